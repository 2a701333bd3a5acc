// Refusals 12 to 17, 22, 29 and 30: what the table says of the item, as far as it was read.
ghost use Rattle.std.specs.Prelude.{◌≡◌, length};

use crate::chain;
use boxes::Refusal;
use boxes::types::{HVCC, IDEN, ISPE};
use table::{ItemId, ItemRow};
use words::say;

// The longest body.
const LONGEST: u64 = 16402;

// As many bytes of a file are looked at.
const HEAD: u64 = 65536;

// Room for what reading fills.
fn new_table() -> [u32; 11280]
    ensures { 11280 ≡ length result }
{
    [0; 11280]
}

fn new_rows() -> [u32; 2816]
    ensures { 2816 ≡ length result }
{
    [0; 2816]
}

fn print_type(fd: i32, table: &[u32], row: ItemRow) {
    say(fd, b"is of type ");
    words::print_kind(fd, views::type_of(table, row));
    say(fd, b", which is no picture here");
}

// 12: of the wrong type, or hidden.
fn print_primary(fd: i32, table: &[u32], row: ItemRow) {
    if views::is_image(views::type_of(table, row)) {
        return say(fd, b"is hidden");
    }
    print_type(fd, table, row);
}

// 13: another method, another file, or an extent of length 0.
fn print_method(fd: i32, table: &[u32], row: ItemRow) {
    let method = views::record_word(table, row, 9);
    if 2 < method {
        say(fd, b"has its bytes by method ");
        io::print_decimal(fd, method as u64);
        return say(fd, b", and this reader goes by 0, 1 and 2");
    }
    if views::record_word(table, row, 10) != 0 {
        return say(fd, b"has its bytes in another file");
    }
    say(fd, b"has an extent of length 0");
}

// 14: no bytes, or bytes past an end.
fn print_reach(fd: i32, table: &[u32], rows: &[u32], row: ItemRow, total: u64) {
    if views::record_word(table, row, 8) == 0 {
        return say(fd, b"is a coded picture that has no bytes");
    }
    if views::record_word(table, row, 9) == 1 {
        return say(fd, b"has bytes past the end of `idat`");
    }
    if views::record_word(table, row, 9) == 2 {
        return chain::print_past(fd, table, rows, row);
    }
    say(fd, b"has bytes past the end of the file, which has ");
    io::print_decimal(fd, total);
    say(fd, b" bytes");
}

// An essential property that this reader does not know.
fn is_unknown(table: &[u32], row: ItemRow, j: usize) -> bool {
    if views::association_of(table, row, j) < 32768 {
        return false;
    }
    !declared::is_known(declared::kind_of(table, row, j))
}

// Whether an ID names a picture.
fn is_picture(table: &[u32], id: ItemId) -> bool {
    match views::row_named(table, id, ItemRow(0)) {
        Some(row) => views::is_image(views::type_of(table, row)),
        None => false,
    }
}

// The first of the places from `from` on, of n, at which what is sought stands; n where there is none.
fn first_from<F: Fn(usize) -> bool>(from: usize, n: usize, is_sought: F) -> usize
    requires { F.IsAlwaysCallable is_sought }
{
    for j in from..n {
        if is_sought(j) {
            return j;
        }
    }
    n
}

// The first property of a type.
fn first_of_type(table: &[u32], row: ItemRow, kind: u32, from: usize, n: usize) -> usize {
    first_from(from, n, |j| declared::kind_of(table, row, j) == kind)
}

// 15: protected, or a property that is needed and not known.
fn print_need(fd: i32, table: &[u32], row: ItemRow) {
    if views::record_word(table, row, 12) != 0 {
        return say(fd, b"is protected");
    }
    let n = declared::property_count(table, row);
    let kind = declared::kind_of(table, row, first_from(0, n, |j| is_unknown(table, row, j)));
    if kind == 0 {
        return say(
            fd,
            b"needs a property that it names by index 0, which is none",
        );
    }
    say(fd, b"needs a property of type ");
    words::print_kind(fd, kind);
    say(fd, b", which this reader does not know");
}

// 29: no configuration, several, or one that is not marked essential.
fn print_configuration(fd: i32, table: &[u32], row: ItemRow) {
    let n = declared::property_count(table, row);
    let first = first_of_type(table, row, HVCC, 0, n);
    if n <= first {
        return say(fd, b"has no decoder configuration (`hvcC`)");
    }
    if first_of_type(table, row, HVCC, first + 1, n) < n {
        return say(fd, b"has its decoder configuration (`hvcC`) more than once");
    }
    say(
        fd,
        b"has a decoder configuration (`hvcC`) that is not marked essential",
    );
}

// 16: no size, several, or one behind a turn or crop.
fn print_size(fd: i32, table: &[u32], row: ItemRow) {
    let n = declared::property_count(table, row);
    let first = first_of_type(table, row, ISPE, 0, n);
    if n <= first {
        return say(fd, b"does not say its size (it has no `ispe`)");
    }
    if first_of_type(table, row, ISPE, first + 1, n) < n {
        return say(fd, b"says its size more than once (`ispe`)");
    }
    say(fd, b"says its size (`ispe`) only after its `");
    let j = first_from(
        0,
        n,
        |j| declared::is_transform(declared::kind_of(table, row, j)),
    );
    words::print_kind(fd, declared::kind_of(table, row, j));
    say(fd, b"`");
}

// 17 of a picture whose inputs are pictures: no body, one too long, one that may not be; else the number of inputs, or what the body says.
fn print_body(fd: i32, table: &[u32], row: ItemRow, total: u64) {
    let extents = views::record_word(table, row, 8);
    if views::type_of(table, row) == IDEN {
        if 0 < extents {
            return say(fd, b"is a copy of its input, and has bytes of its own");
        }
        return say(fd, b"is a copy, and has more than one input");
    }
    if extents == 0 {
        return say(fd, b"has no body");
    }
    let size = joining::length_of(table, row);
    if LONGEST < size {
        say(fd, b"has a body of ");
        io::print_decimal(fd, size);
        return say(fd, b" bytes, and none has more than 16,402");
    }
    say(fd, b"has a wrong number of inputs, or a damaged body");
    if HEAD < total {
        say(fd, b", or one that is not wholly in the first 65,536 bytes");
    }
}

// 17: inputs where there may be none, none where there must be, one that is no picture; else their number or the body.
fn print_inputs(fd: i32, table: &[u32], row: ItemRow, total: u64) {
    let n = views::record_word(table, row, 6) as usize;
    if !views::is_derived(views::type_of(table, row)) {
        say(fd, b"has inputs, and its type ");
        words::print_kind(fd, views::type_of(table, row));
        return say(fd, b" is not made from others");
    }
    if n == 0 {
        return say(fd, b"is to be made from others, and has no inputs");
    }
    let j = first_from(
        0,
        n,
        |j| !is_picture(table, views::target_of(table, row, j)),
    );
    if j < n {
        say(fd, b"is made from item ");
        let id = views::target_of(table, row, j);
        io::print_decimal(fd, id.0 as u64);
        return say(fd, b", which is no picture");
    }
    print_body(fd, table, row, total);
}

fn print_of(fd: i32, table: &[u32], rows: &[u32], row: ItemRow, total: u64, number: u32) {
    match number {
        12 => print_primary(fd, table, row),
        13 => print_method(fd, table, row),
        14 => print_reach(fd, table, rows, row, total),
        15 => print_need(fd, table, row),
        16 => print_size(fd, table, row),
        17 => print_inputs(fd, table, row, total),
        22 => print_type(fd, table, row),
        29 => print_configuration(fd, table, row),
        30 => chain::print_chain(fd, table, rows, row),
        _ => words::print_words(fd, number),
    }
}

fn print_listed(fd: i32, table: &[u32], rows: &[u32], total: u64, f: Refusal) {
    let id = ItemId((f.place % 4294967296) as u32);
    match views::row_named(table, id, ItemRow(0)) {
        Some(row) => print_of(fd, table, rows, row, total, f.number),
        // 12 and 21.
        None => say(fd, b"is not listed"),
    }
}

// What follows the item's name.
pub fn print_cause(fd: i32, head: &[u8], total: u64, f: Refusal) {
    let mut table = new_table();
    let mut rows = new_rows();
    match reading::read_file(head, total, &mut table, &mut rows) {
        Ok(_) => print_listed(fd, &table, &rows, total, f),
        Err(_) => words::print_words(fd, f.number),
    }
}
