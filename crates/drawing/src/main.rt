// The drawing program: a still on standard input, the ID of an item in the arguments or none for the primary item, then a seam's four
// numbers or none, an SVG picture as the answer.
#![tactic(auto)]

ghost use Rattle.std.specs.Prelude.{◌≡◌, ◌≤◌, length};

use between::Seam;
use std::env::Env;
use table::{ItemId, ItemRow};

// The item that is drawn, or the primary one, and the seam over it, if there is one.
#[derive(Clone, Copy)]
struct Request {
    item: Option<ItemId>,
    seam: Option<Seam>,
}

// The number that argument i spells.
fn number_at(rt: &impl Env, i: usize) -> Option<u32> {
    let mut text = [0u8; 16];
    let n = input::argument(rt, i, &mut text);
    arguments::number_of(&text[..n])
}

// The item that an argument names.
fn read_item(rt: &impl Env, at: usize) -> Option<ItemId> {
    Some(ItemId(number_at(rt, at)?))
}

// The seam that four arguments name.
fn read_seam(rt: &impl Env, at: usize) -> Option<Seam> {
    if 8 < at {
        return None;
    }
    Some(Seam {
        x: number_at(rt, at)?,
        y: number_at(rt, at + 1)?,
        to_x: number_at(rt, at + 2)?,
        to_y: number_at(rt, at + 3)?,
    })
}

// The program's own name comes first; then an item or none, then a seam or none.
fn read_request(rt: &impl Env) -> Option<Request> {
    let (item, seam) = match input::argument_count(rt) {
        1 => (None, None),
        2 => (Some(read_item(rt, 1)?), None),
        5 => (None, Some(read_seam(rt, 1)?)),
        6 => (Some(read_item(rt, 1)?), Some(read_seam(rt, 2)?)),
        _ => return None,
    };
    Some(Request { item, seam })
}

// The picture of an item that `size` answers for, and a seam through points that were answered.
fn draw_listed(head: &[u8], table: &[u32], rows: &[u32], id: ItemId, points: &[[u32; 9]]) {
    if let Some(row) = views::row_named(table, id, ItemRow(0)) {
        sketch::draw_item(head, table, rows, row, points);
    }
}

// `size` has accepted the file, so neither call refuses it; a point outside says so in its own record.
fn draw_along(head: &[u8], total: u64, table: &mut [u32], id: ItemId, points: &mut [[u32; 9]]) {
    let _ = still::point_numbers(head, total, &mut *table, id, &mut *points);
    let mut rows = new_rows();
    let _ = opening::open_rows(head, total, &mut *table, &mut rows);
    draw_listed(head, &*table, &rows, id, &*points);
}

// Room for the rows that opening finds.
fn new_rows() -> [u32; 2816]
    ensures { 2816 ≡ length result }
{
    [0; 2816]
}

// Room for the points of a seam.
fn new_points() -> [[u32; 9]; 512]
    ensures { 512 ≡ length result }
{
    [[0; 9]; 512]
}

// How many points a seam has, which are laid.
fn laid(seam: Option<Seam>, points: &mut [[u32; 9]]) -> usize
    ensures upper_bound { result ≤ length points.old }
    ensures points_len_unchanged { length points.new ≡ length points.old }
{
    match seam {
        Some(s) => between::lay(s, points),
        None => 0,
    }
}

fn draw_lined(head: &[u8], total: u64, table: &mut [u32], id: ItemId, seam: Option<Seam>) {
    let mut points = new_points();
    let n = laid(seam, &mut points);
    draw_along(head, total, table, id, &mut points[..n]);
}

// `size` tells whether there is such a picture.
fn draw_item(head: &[u8], total: u64, table: &mut [u32], id: ItemId, seam: Option<Seam>) {
    match still::size(head, total, table, id) {
        Ok(_) => draw_lined(head, total, table, id, seam),
        Err(f) => sketch::draw_refusal(head, f),
    }
}

fn draw_file(head: &[u8], total: u64, r: Request) {
    let mut table = input::new_table();
    match still::verdict(head, total, &mut table) {
        Ok(v) => draw_item(head, total, &mut table, r.item.unwrap_or(v.primary), r.seam),
        Err(f) => sketch::draw_refusal(head, f),
    }
}

// The script ./draw names a wrong argument before it starts this program.
fn print_use() {
    words::say(
        2,
        b"there is no such item or seam; ./draw --help says what to write\n",
    );
}

fn draw(rt: &HostRuntime, r: Request) {
    let mut head = io::large_buffer();
    match input::read_input(rt, &mut head) {
        Some(got) => draw_file(&head[..got.here], got.total, r),
        None => input::print_failed(),
    }
}

fn main(rt: HostRuntime) {
    match read_request(&rt) {
        Some(r) => draw(&rt, r),
        None => print_use(),
    }
}
