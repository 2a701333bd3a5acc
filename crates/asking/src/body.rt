// The line of `body`: the length of a picture's joined body, its bytes in hex, and what they say in words.
ghost use Rattle.std.specs.Prelude.{◌≡◌, length};

use crate::answers::{print_bytes, print_refused};
use boxes::types::{GRID, IOVL};
use layout::ZERO;
use lines::print_field;
use table::{ItemId, ItemRow};
use words::say;

// So many offsets of an overlay are told in words: a line is to be read. The bytes have all of them.
const TOLD: usize = 16;

// Room for the longest body.
fn new_buffer() -> [u8; 16402]
    ensures { 16402 ≡ length result }
{
    [0; 16402]
}

fn print_number(n: u32) {
    io::print_decimal(1, n as u64);
}

// A number of things: 1 row, 2 rows.
fn print_many(n: u32, thing: &[u8]) {
    print_number(n);
    say(1, thing);
    if n != 1 {
        say(1, b"s");
    }
}

fn print_canvas(wide: u32, high: u32) {
    say(1, b"canvas ");
    print_number(wide);
    say(1, b" x ");
    print_number(high);
}

fn print_grid(b: &[u8]) {
    let Some(g) = pictures::read_grid(b) else {
        return;
    };
    say(1, b"grid: ");
    print_many(g.rows, b" row");
    say(1, b", ");
    print_many(g.columns, b" column");
    say(1, b", ");
    print_canvas(g.wide, g.high);
}

// A number to which `ZERO` was added.
fn print_signed(raised: u64) {
    if raised < ZERO {
        say(1, b"-");
        io::print_decimal(1, ZERO - raised);
    } else {
        io::print_decimal(1, raised - ZERO);
    }
}

// Where the input with a number from 0 lies: its top left pixel on the canvas.
fn print_corner(b: &[u8], bytes: usize, k: u32) {
    let c = corners::offset_in(b, bytes, k);
    say(1, b"(");
    print_signed(c.x);
    say(1, b", ");
    print_signed(c.y);
    say(1, b")");
}

// The first n inputs, lowest first.
fn print_corners(b: &[u8], bytes: usize, n: u32) {
    for k in 0..n {
        if 0 < k {
            say(1, b", ");
        }
        print_corner(b, bytes, k);
    }
}

fn print_inputs(b: &[u8], bytes: usize, n: usize) {
    say(1, b", inputs at ");
    if n <= TOLD {
        return print_corners(b, bytes, n as u32);
    }
    print_corners(b, bytes, TOLD as u32);
    say(1, b" and ");
    io::print_decimal(1, (n - TOLD) as u64);
    say(1, b" more");
}

// Red, green, blue and opacity, each from 0 to 65,535.
fn print_fill(b: &[u8]) {
    if b.len() < 10 {
        return;
    }
    say(1, b", fill ");
    print_number(fields::be16(b, 2));
    say(1, b" ");
    print_number(fields::be16(b, 4));
    say(1, b" ");
    print_number(fields::be16(b, 6));
    say(1, b" ");
    print_number(fields::be16(b, 8));
}

fn print_overlay(b: &[u8], n: usize) {
    if 2048 < n {
        return;
    }
    let Some(o) = pictures::read_overlay(b, n) else {
        return;
    };
    say(1, b"overlay: ");
    print_canvas(o.wide, o.high);
    print_fill(b);
    print_inputs(b, o.bytes, n);
}

// Why there is none, where a picture of a type has no body.
fn print_without(kind: u32) {
    say(1, b"no body: ");
    words::print_kind(1, kind);
    if views::is_coded(kind) {
        return say(1, b" is a coded picture");
    }
    say(1, b" shows its one input as it is");
}

// What the body of the picture in a row says.
fn print_said(table: &[u32], row: ItemRow, b: &[u8]) {
    let kind = views::type_of(table, row);
    if kind == GRID {
        return print_grid(b);
    }
    if kind == IOVL {
        return print_overlay(b, views::record_word(table, row, 6) as usize);
    }
    print_without(kind);
}

// Length, bytes in hex or `-`, words.
fn print_joined(table: &[u32], id: u32, b: &[u8]) {
    print_field(b.len() as u64);
    say(1, b"\t");
    if b.len() == 0 {
        say(1, b"-");
    }
    print_bytes(b);
    say(1, b"\t");
    if let Some(row) = views::row_named(table, ItemId(id), ItemRow(0)) {
        print_said(table, row, b);
    }
    say(1, b"\n");
}

// `body`, ID; length, bytes, words.
pub fn print_body(head: &[u8], total: u64, table: &mut [u32], id: u32) {
    let mut buffer = new_buffer();
    let b = still::body(head, total, &mut *table, ItemId(id), &mut buffer);
    say(1, b"body");
    print_field(id as u64);
    match b {
        Ok(n) => print_joined(&*table, id, views::part(&buffer, 0, n)),
        Err(f) => print_refused(head, total, f),
    }
}
