// The working of an item's crops for the desk, step by step with the numbers: a line for each side of each crop. Document 02, Q-2.
#![tactic(auto)]

use boxes::types::{CLAP, ISPE};
use io::print_decimal;
use pictures::Size;
use table::{ItemId, ItemRow};
use words::say;

// One side of a picture and what a `clap` says of it: width, or height, n / d, offset o / od, o a 32-bit two's complement number.
#[derive(Clone, Copy)]
pub struct Cut {
    across: bool,
    side: u32,
    n: u32,
    d: u32,
    o: u32,
    od: u32,
}

fn print_named(name: &[u8], n: u64) {
    say(1, name);
    print_decimal(1, n);
}

// A number over a denominator, behind its name.
fn print_over(name: &[u8], n: u64, d: u64) {
    print_named(name, n);
    print_named(b"/", d);
}

// What is cut to: a width across, a height down.
fn print_kind(across: bool) {
    if across {
        say(1, b"\twidth ");
    } else {
        say(1, b"\theight ");
    }
}

// The fields as the box has them.
fn print_fields(c: Cut) {
    print_named(b"\tside ", c.side as u64);
    print_kind(c.across);
    print_over(b"", c.n as u64, c.d as u64);
    if c.o < 2147483648 {
        print_over(b"\toffset ", c.o as u64, c.od as u64);
    } else {
        print_over(b"\toffset -", 4294967296 - (c.o as u64), c.od as u64);
    }
}

// The step that fails: the line ends as a refusal by 20 at the item does.
fn print_misfit(id: ItemId, words: &[u8]) -> bool {
    print_named(b"\trefused\t20\t", id.0 as u64);
    say(1, b"\t");
    say(1, words);
    say(1, b"\n");
    false
}

// Test for whole, halve, and whether the crop ends within the side, of which it leaves so much.
fn print_halves(id: ItemId, left: u32, od: u32, twice: u64) -> bool {
    print_over(b"\ttwice the edge ", twice, od as u64);
    if od == 0 {
        return print_misfit(id, b"the offset's denominator is 0");
    }
    print_over(b"\ttest for whole ", twice, 2 * (od as u64));
    if !pictures::is_whole(twice, od) {
        return print_misfit(id, b"the edge is no whole number of pixels");
    }
    let e = pictures::halved_of(twice, od);
    print_named(b"\thalve ", e);
    if (left as u64) < e {
        return print_misfit(id, b"the crop ends past the side");
    }
    print_named(b"\tedge ", e);
    say(1, b"\n");
    true
}

// The steps for a width of c pixels.
fn print_steps(id: ItemId, cut: Cut, c: u64) -> bool {
    print_kind(cut.across);
    print_named(b"is ", c);
    let side = cut.side as u64;
    if side < c {
        return print_misfit(id, b"the crop is larger than the side");
    }
    let left = ((side - c) % 4294967296) as u32;
    print_named(b"\tleaves ", left as u64);
    let common = pictures::common_of(left, cut.od);
    print_over(b"\tcommon denominator ", common, cut.od as u64);
    match pictures::twice_edge(common, cut.o) {
        Some(twice) => print_halves(id, left, cut.od, twice),
        None => print_misfit(id, b"twice the edge is below 0"),
    }
}

// The fields and the steps of one side; whether it has an edge.
fn print_cut(id: ItemId, cut: Cut) -> bool {
    print_fields(cut);
    if cut.od == 0 {
        return print_misfit(id, b"the offset's denominator is 0");
    }
    match pictures::width_of(cut.side, cut.n, cut.d) {
        Some(c) => print_steps(id, cut, c),
        None => print_misfit(
            id,
            b"what is cut to is no whole number of pixels, or more than the side has",
        ),
    }
}

// `crop`, the item, the number of the property, which side.
fn print_start(id: ItemId, k: usize, side: &[u8]) {
    print_named(b"crop\t", id.0 as u64);
    print_named(b"\t", k as u64);
    say(1, side);
}

// Both sides of the crop with the content b, of a picture of size s; whether it fits.
fn print_crop(id: ItemId, k: usize, s: Size, b: &[u8]) -> bool {
    if b.len() < 32 {
        return false;
    }
    print_start(id, k, b"\tacross");
    let across = print_cut(
        id,
        Cut {
            across: true,
            side: s.wide,
            n: fields::be32(b, 0),
            d: fields::be32(b, 4),
            o: fields::be32(b, 16),
            od: fields::be32(b, 20),
        },
    );
    print_start(id, k, b"\tdown");
    let down = print_cut(
        id,
        Cut {
            across: false,
            side: s.high,
            n: fields::be32(b, 8),
            d: fields::be32(b, 12),
            o: fields::be32(b, 24),
            od: fields::be32(b, 28),
        },
    );
    across && down
}

// What the property with the content b makes of a picture of size s.
fn size_behind(kind: u32, s: Size, b: &[u8]) -> Size {
    if kind == ISPE {
        return declared::ispe_size(b);
    }
    if declared::is_transform(kind) {
        return pictures::size_after(pictures::turn_of(s, kind, b), s);
    }
    s
}

// The lines of all crops of the item in a row of a table that was read, up to the first that does not fit; `none` where it has no crop.
pub fn print_crops(head: &[u8], table: &[u32], row: ItemRow) {
    let id = views::id_of(table, row);
    let n = declared::property_count(table, row);
    let mut s = Size { wide: 0, high: 0 };
    let mut none = true;
    for j in 0..n {
        let kind = declared::kind_of(table, row, j);
        let b = views::content_of(declared::box_of(head, table, row, j));
        if kind == CLAP {
            none = false;
            if !print_crop(id, j + 1, s, b) {
                return;
            }
        }
        s = size_behind(kind, s, b);
    }
    if none {
        print_named(b"crop\t", id.0 as u64);
        say(1, b"\tnone\n");
    }
}
