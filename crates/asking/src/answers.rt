// A line for each question: its word and numbers as asked, then the answer's fields or those of the refusal. `table` is lent and left as `still` leaves it.
ghost use Rattle.std.specs.Prelude.{◌≡◌, length};

use boxes::Refusal;
use facing::{Transform, TransformList};
use lines::print_field;
use pictures::Point;
use table::ItemId;
use traced::Traced;
use words::say;

// `refused`, number and place; the sentence follows.
fn open_refused(f: Refusal) {
    say(1, b"\trefused");
    print_field(f.number as u64);
    print_field(f.place);
    say(1, b"\t");
}

// `refused`, number, place, and the sentence, in any answer's place.
pub fn print_refused(head: &[u8], total: u64, f: Refusal) {
    open_refused(f);
    causes::print_sentence(1, head, total, f);
    say(1, b"\n");
}

// `verdict`; `accepted`, items, primary ID.
pub fn print_verdict(head: &[u8], total: u64, table: &mut [u32]) {
    let v = still::verdict(head, total, table);
    say(1, b"verdict");
    match v {
        Ok(v) => {
            say(1, b"\taccepted");
            print_field(v.items as u64);
            print_field(v.primary.0 as u64);
            say(1, b"\n");
        }
        Err(f) => print_refused(head, total, f),
    }
}

// `why`; where the file is accepted, what stands for number, place and sentence.
pub fn print_why(head: &[u8], total: u64, table: &mut [u32]) {
    let v = still::verdict(head, total, table);
    say(1, b"why");
    match v {
        Ok(_) => say(1, b"\taccepted\t0\t0\tthe file keeps every rule\n"),
        Err(f) => print_refused(head, total, f),
    }
}

// `size`, ID; reconstructed width, height, output width, height, depth.
pub fn print_size(head: &[u8], total: u64, table: &mut [u32], id: u32) {
    let s = still::size(head, total, table, ItemId(id));
    say(1, b"size");
    print_field(id as u64);
    match s {
        Ok(s) => {
            print_field(s.wide as u64);
            print_field(s.high as u64);
            print_field(s.output_wide as u64);
            print_field(s.output_high as u64);
            print_field(s.depth as u64);
            say(1, b"\n");
        }
        Err(f) => print_refused(head, total, f),
    }
}

// An end of a trace: what it is, the item's ID, x, y, items passed.
pub fn print_end(kind: &[u8], item: ItemId, x: u32, y: u32, passed: u32) {
    say(1, kind);
    print_field(item.0 as u64);
    print_field(x as u64);
    print_field(y as u64);
    print_field(passed as u64);
    say(1, b"\n");
}

// `trace`, ID, x, y; `pixel` or `fill`, item ID, x, y there, items passed.
pub fn print_trace(head: &[u8], total: u64, table: &mut [u32], id: u32, x: u32, y: u32) {
    let t = still::trace(head, total, table, ItemId(id), Point { x, y });
    say(1, b"trace");
    print_field(id as u64);
    print_field(x as u64);
    print_field(y as u64);
    match t {
        Ok(Traced::Pixel { item, x, y, passed }) => print_end(b"\tpixel", item, x, y, passed),
        Ok(Traced::Fill { item, x, y, passed }) => print_end(b"\tfill", item, x, y, passed),
        Err(f) => print_refused(head, total, f),
    }
}

// Room for the ID of every item that a file may have.
fn new_list() -> [u32; 256]
    ensures { 256 ≡ length result }
{
    [0; 256]
}

fn print_list(list: &[u32], n: usize) {
    for id in list.iter().take(n) {
        print_field(*id as u64);
    }
}

// `sources`, ID; the IDs of the sources.
pub fn print_sources(head: &[u8], total: u64, table: &mut [u32], id: u32) {
    let mut list = new_list();
    let l = still::sources(head, total, table, ItemId(id), &mut list);
    say(1, b"sources");
    print_field(id as u64);
    match l {
        Ok(n) => {
            print_list(&list, n);
            say(1, b"\n");
        }
        Err(f) => print_refused(head, total, f),
    }
}

// In hex.
pub fn print_bytes(part: &[u8]) {
    for b in part {
        io::print_hex(1, *b as u64, 2);
    }
}

// The type in hex and in letters, the length and the bytes in hex; `-`, and 0 for the length, where the property is named by index 0.
fn print_part(part: &[u8]) {
    if part.len() < 8 {
        return say(1, b"\t-\t-\t0\t-\n");
    }
    let kind = fields::be32(part, 4);
    say(1, b"\t");
    io::print_hex(1, kind as u64, 8);
    say(1, b"\t");
    words::print_letters(1, kind);
    print_field(part.len() as u64);
    say(1, b"\t");
    print_bytes(part);
    say(1, b"\n");
}

// `property`, ID, number; the property box.
pub fn print_property(head: &[u8], total: u64, table: &mut [u32], id: u32, k: u32) {
    let mut told = [0u64; 2];
    let part = still::property(head, total, table, ItemId(id), k, &mut told);
    say(1, b"property");
    print_field(id as u64);
    print_field(k as u64);
    if told[0] == 0 {
        return print_part(part);
    }
    let f = Refusal {
        number: (told[0] % 4294967296) as u32,
        place: told[1],
    };
    print_refused(head, total, f);
}

// `orientation`, ID; the number, and what it asks of a viewer.
pub fn print_orientation(head: &[u8], total: u64, table: &mut [u32], id: u32) {
    let o = still::orientation(head, total, table, ItemId(id));
    say(1, b"orientation");
    print_field(id as u64);
    match o {
        Ok(n) => {
            print_field(n as u64);
            say(1, b"\t");
            words::print_orientation(1, n);
            say(1, b"\n");
        }
        Err(f) => print_refused(head, total, f),
    }
}

// The same of the primary item, which a refused file does not tell: `-` then stands for its ID.
pub fn print_primary_orientation(head: &[u8], total: u64, table: &mut [u32]) {
    match still::verdict(head, total, table) {
        Ok(v) => print_orientation(head, total, table, v.primary.0),
        Err(f) => {
            say(1, b"orientation\t-");
            print_refused(head, total, f);
        }
    }
}

// A transform as one field, its type and its value.
fn print_transform(t: Transform) {
    match t {
        Transform::Irot(value) => {
            say(1, b"\tirot ");
            io::print_decimal(1, value as u64);
        }
        Transform::Imir(value) => {
            say(1, b"\timir ");
            io::print_decimal(1, value as u64);
        }
    }
}

// `transforms`, an orientation; how many transforms say it, and each. No file is read.
pub fn print_transforms(orientation: u32) {
    let l = still::transforms(orientation);
    say(1, b"transforms");
    print_field(orientation as u64);
    match l {
        Err(f) => {
            open_refused(f);
            words::print_words(1, f.number);
        }
        Ok(TransformList::None) => print_field(0),
        Ok(TransformList::One(t)) => {
            print_field(1);
            print_transform(t);
        }
        Ok(TransformList::Two(t, u)) => {
            print_field(2);
            print_transform(t);
            print_transform(u);
        }
    }
    say(1, b"\n");
}
