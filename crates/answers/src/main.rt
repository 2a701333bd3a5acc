// Answers questions about many heads: reads them from standard input and prints a line for each, as in the files with the right answers.
// The input: how many heads (4 bytes); for each its name (length in 4 bytes, then the letters), the file's total (8),
// its bytes (length in 4, then the bytes), how many questions (4); for each question its kind (4: 0 verdict, 1 table, 2
// size, 3 trace, 4 sources, 5 property, 6 orientation, 7 transforms, 8 points, 9 body), an item ID, or the orientation for 7 (4),
// and two numbers (4 each); for 8 the first is how many points, and x and y of each follow (4 each).
// The table is never cleared between calls, and has 20 words more than it needs.
#![tactic(auto)]

mod body;
mod points;

ghost use Rattle.std.specs.Prelude.{◌≡◌, ◌<◌, length};

use boxes::Refusal;
use facing::{Transform, TransformList};
use pictures::Point;
use table::ItemId;
use traced::Traced;

pub fn print_more(n: u64) {
    io::write_all(1, b" ");
    io::print_decimal(1, n);
}

pub fn print_refusal(f: Refusal) {
    io::write_all(1, b"refused");
    print_more(f.number as u64);
    print_more(f.place);
    io::write_all(1, b"\n");
}

fn print_verdict(head: &[u8], total: u64, table: &mut [u32]) {
    io::write_all(1, b"verdict\t\t");
    match still::verdict(head, total, table) {
        Ok(v) => {
            io::print_decimal(1, v.items as u64);
            print_more(v.primary.0 as u64);
            io::write_all(1, b"\n");
        }
        Err(f) => print_refusal(f),
    }
}

fn print_digest(h: [u32; 8]) {
    for word in &h {
        io::print_hex(1, *word as u64, 8);
    }
}

fn print_table(head: &[u8], total: u64, table: &mut [u32]) {
    io::write_all(1, b"table\t\t");
    // The table is what is asked about, of refused files too.
    let _ = still::verdict(head, total, table);
    print_digest(digest::of_table(&*table));
    io::write_all(1, b"\n");
}

fn print_size(head: &[u8], total: u64, table: &mut [u32], id: u32) {
    io::write_all(1, b"size\t");
    io::print_decimal(1, id as u64);
    io::write_all(1, b"\t");
    match still::size(head, total, table, ItemId(id)) {
        Ok(s) => {
            io::print_decimal(1, s.wide as u64);
            print_more(s.high as u64);
            print_more(s.output_wide as u64);
            print_more(s.output_high as u64);
            print_more(s.depth as u64);
            io::write_all(1, b"\n");
        }
        Err(f) => print_refusal(f),
    }
}

fn print_asked(id: u32, x: u32, y: u32) {
    io::print_decimal(1, id as u64);
    print_more(x as u64);
    print_more(y as u64);
    io::write_all(1, b"\t");
}

fn print_end(kind: &[u8], item: ItemId, x: u32, y: u32, passed: u32) {
    io::write_all(1, kind);
    print_more(item.0 as u64);
    print_more(x as u64);
    print_more(y as u64);
    print_more(passed as u64);
    io::write_all(1, b"\n");
}

fn print_trace(head: &[u8], total: u64, table: &mut [u32], id: u32, x: u32, y: u32) {
    io::write_all(1, b"trace\t");
    print_asked(id, x, y);
    match still::trace(head, total, table, ItemId(id), Point { x, y }) {
        Ok(Traced::Pixel { item, x, y, passed }) => print_end(b"pixel", item, x, y, passed),
        Ok(Traced::Fill { item, x, y, passed }) => print_end(b"fill", item, x, y, passed),
        Err(f) => print_refusal(f),
    }
}

// A list in which something is left from before.
fn used_list() -> [u32; 300]
    ensures { 300 ≡ length result }
{
    [9; 300]
}

fn print_list(list: &[u32], n: usize) {
    for (i, id) in list.iter().take(n).enumerate() {
        if i == 0 {
            io::print_decimal(1, *id as u64);
        } else {
            print_more(*id as u64);
        }
    }
    io::write_all(1, b"\n");
}

fn print_listed(head: &[u8], total: u64, table: &mut [u32], id: u32, list: &mut [u32]) {
    match still::sources(head, total, table, ItemId(id), list) {
        Ok(n) => print_list(&*list, n),
        Err(f) => print_refusal(f),
    }
}

fn print_sources(head: &[u8], total: u64, table: &mut [u32], id: u32, room: u32) {
    io::write_all(1, b"sources\t");
    io::print_decimal(1, id as u64);
    print_more(room as u64);
    io::write_all(1, b"\t");
    let mut list = used_list();
    let n = room as usize;
    if n <= 300 {
        print_listed(head, total, table, id, &mut list[..n]);
    }
}

// A sum over bytes that changes with each of them and with their order.
fn sum_of(b: &[u8]) -> u64
    ensures { result < 4294967296 }
{
    let mut sum: u64 = 0;
    for x in b {
        sum = heads::added(sum, u32::from(*x));
    }
    sum
}

// The length of a part and a sum over its bytes, or the refusal.
fn print_part(told: [u64; 2], part: &[u8]) {
    if told[0] == 0 {
        io::print_decimal(1, part.len() as u64);
        print_more(sum_of(part));
        io::write_all(1, b"\n");
        return;
    }
    io::write_all(1, b"refused");
    print_more(told[0]);
    print_more(told[1]);
    io::write_all(1, b"\n");
}

fn print_property(head: &[u8], total: u64, table: &mut [u32], id: u32, k: u32) {
    io::write_all(1, b"prop\t");
    io::print_decimal(1, id as u64);
    print_more(k as u64);
    io::write_all(1, b"\t");
    let mut told = [7u64; 2];
    let part = still::property(head, total, table, ItemId(id), k, &mut told);
    print_part(told, part);
}

fn print_orientation(head: &[u8], total: u64, table: &mut [u32], id: u32) {
    io::write_all(1, b"orientation\t");
    io::print_decimal(1, id as u64);
    io::write_all(1, b"\t");
    match still::orientation(head, total, table, ItemId(id)) {
        Ok(n) => {
            io::print_decimal(1, n as u64);
            io::write_all(1, b"\n");
        }
        Err(f) => print_refusal(f),
    }
}

fn print_transform(t: Transform) {
    match t {
        Transform::Irot(value) => {
            io::write_all(1, b" irot");
            print_more(value as u64);
        }
        Transform::Imir(value) => {
            io::write_all(1, b" imir");
            print_more(value as u64);
        }
    }
}

// How many, then each. No file is read and no table is lent.
fn print_transforms(orientation: u32) {
    io::write_all(1, b"transforms\t");
    io::print_decimal(1, orientation as u64);
    io::write_all(1, b"\t");
    match still::transforms(orientation) {
        Err(f) => print_refusal(f),
        Ok(TransformList::None) => {
            io::write_all(1, b"0\n");
        }
        Ok(TransformList::One(t)) => {
            io::write_all(1, b"1");
            print_transform(t);
            io::write_all(1, b"\n");
        }
        Ok(TransformList::Two(t, u)) => {
            io::write_all(1, b"2");
            print_transform(t);
            print_transform(u);
            io::write_all(1, b"\n");
        }
    }
}

fn answer(name: &[u8], head: &[u8], total: u64, table: &mut [u32]) {
    let kind = heads::read_number();
    let id = heads::read_number();
    let x = heads::read_number();
    let y = heads::read_number();
    io::write_all(1, name);
    io::write_all(1, b"\t");
    io::print_decimal(1, total);
    io::write_all(1, b"\t");
    match kind {
        0 => print_verdict(head, total, table),
        1 => print_table(head, total, table),
        2 => print_size(head, total, table, id),
        3 => print_trace(head, total, table, id, x, y),
        4 => print_sources(head, total, table, id, x),
        5 => print_property(head, total, table, id, x),
        6 => print_orientation(head, total, table, id),
        7 => print_transforms(id),
        8 => points::print_points(head, total, table, id, x),
        _ => body::print_body(head, total, table, id, x),
    }
}

fn answer_all(name: &[u8], head: &[u8], total: u64, table: &mut [u32]) {
    for _ in 0..heads::read_number() {
        answer(name, head, total, table);
    }
}

// The next file: its name, its head and the questions about it.
fn next_file(table: &mut [u32]) {
    let letters = heads::read_number();
    let mut name = heads::name_room();
    let n = heads::read_bytes(&mut name, letters);
    let total = heads::read_long();
    let bytes = heads::read_number();
    let mut head = heads::head_room();
    let m = heads::read_bytes(&mut head, bytes);
    answer_all(&name[..n], &head[..m], total, table);
}

fn main() {
    let count = heads::read_number();
    let mut table = heads::used_table();
    for _ in 0..count {
        next_file(&mut table);
    }
}
