// The lines of the listing program, for one file, and what other programs' lines share with them.
#![tactic(auto)]

ghost use Rattle.std.specs.Prelude.{◌≡◌, length};

use asked::Verdict;
use boxes::Refusal;
use table::ItemRow;

// A tab and a number.
pub fn print_field(n: u64) {
    io::write_all(1, b"\t");
    io::print_decimal(1, n);
}

// `refused`, number, place.
pub fn print_refused(number: u64, place: u64) {
    io::write_all(1, b"refused");
    print_field(number);
    print_field(place);
    io::write_all(1, b"\n");
}

pub fn print_refusal(f: Refusal) {
    print_refused(f.number as u64, f.place);
}

fn print_word(table: &[u32], row: ItemRow, k: usize) {
    if k < 16 {
        print_field(views::record_word(table, row, k) as u64);
    }
}

// `item`, ID, type in hex, hidden, reconstructed width, height, output width, height, depth.
fn print_item(table: &[u32], row: ItemRow) {
    io::write_all(1, b"item");
    print_word(table, row, 0);
    io::write_all(1, b"\t");
    io::print_hex(1, views::type_of(table, row) as u64, 8);
    print_word(table, row, 2);
    for k in 10..15 {
        print_word(table, row, k);
    }
    io::write_all(1, b"\n");
}

// `file`, total, primary ID, items; then a line for each item, in the order of `iinf`.
fn print_file(table: &[u32], total: u64, v: Verdict) {
    io::write_all(1, b"file");
    print_field(total);
    print_field(v.primary.0 as u64);
    print_field(v.items as u64);
    io::write_all(1, b"\n");
    let rows = arranged::rows_by_place(table);
    for k in 0..v.items as usize {
        print_item(table, ItemRow(table::word(&rows, k) as usize));
    }
}

// What the listing program prints for a file: its lines, or the refusal.
pub fn print_listing(head: &[u8], total: u64, table: &mut [u32]) {
    match still::verdict(head, total, table) {
        Ok(v) => print_file(&*table, total, v),
        Err(f) => print_refusal(f),
    }
}
