// The line of `points`: how many, then each record after a comma, as a trace or its own refusal.
ghost use Rattle.std.specs.Prelude.{◌≡◌, length};

use crate::{print_more, print_refusal};
use table::ItemId;

// Records in which something is left from before.
fn used_points() -> [[u32; 9]; 600]
    ensures { 600 ≡ length result }
{
    [[9; 9]; 600]
}

// Reads x and y into each record, and prints them.
fn read_points(points: &mut [[u32; 9]])
    ensures { length points.new ≡ length points.old }
{
    for r in points.iter_mut() {
        let x = heads::read_number();
        let y = heads::read_number();
        print_more(x as u64);
        print_more(y as u64);
        *r = [x, y, 9, 9, 9, 9, 9, 9, 9];
    }
}

// What a record tells: number and place where it is refused, else kind, item, x, y, items passed.
fn print_record(r: [u32; 9]) {
    if r[2] != 0 {
        io::write_all(1, b", refused");
        print_more(r[2] as u64);
        return print_more(r[3] as u64);
    }
    if r[4] == 1 {
        io::write_all(1, b", pixel");
    } else {
        io::write_all(1, b", fill");
    }
    print_more(r[5] as u64);
    print_more(r[6] as u64);
    print_more(r[7] as u64);
    print_more(r[8] as u64);
}

fn print_records(points: &[[u32; 9]]) {
    for r in points {
        print_record(*r);
    }
    io::write_all(1, b"\n");
}

fn print_filled(head: &[u8], total: u64, table: &mut [u32], id: u32, points: &mut [[u32; 9]]) {
    match still::point_numbers(head, total, table, ItemId(id), &mut *points) {
        Ok(n) => {
            io::print_decimal(1, n as u64);
            print_records(&*points);
        }
        Err(f) => print_refusal(f),
    }
}

fn print_asked(head: &[u8], total: u64, table: &mut [u32], id: u32, points: &mut [[u32; 9]]) {
    read_points(&mut *points);
    io::write_all(1, b"\t");
    print_filled(head, total, table, id, points);
}

pub fn print_points(head: &[u8], total: u64, table: &mut [u32], id: u32, count: u32) {
    io::write_all(1, b"points\t");
    io::print_decimal(1, id as u64);
    let mut points = used_points();
    let n = count as usize;
    if n <= 600 {
        print_asked(head, total, table, id, &mut points[..n]);
    }
}
