// What a refusal says of the file at hand: which of the causes that its number joins it is. The number and the place
// are the library's; for the words the file is looked at again. Where that tells nothing more, they are the number's
// own (crate `words`).
#![tactic(auto)]

mod chain;
mod in_box;
mod of_item;

use boxes::types::FTYP;
use boxes::{Refusal, TopBox};
use words::{PlaceKind, say};

// 4 of a first box that is whole, by its type and the place where its content begins and ends.
fn print_first(fd: i32, kind: u32, body: usize, end: usize) {
    if kind != FTYP {
        return say(fd, b"the file does not begin with an `ftyp`");
    }
    if body <= end {
        if (end - body) % 4 != 0 {
            return say(
                fd,
                b"the `ftyp` that the file begins with has a content that is no multiple of 4 bytes",
            );
        }
    }
    say(
        fd,
        b"the `ftyp` that the file begins with does not name the brand `mif1`",
    );
}

// 4: the file's first box.
fn print_start(fd: i32, head: &[u8], total: u64) {
    if total == 0 {
        return say(fd, b"the file is empty");
    }
    let b = boxes::top_box_at(head, total, 0);
    match b {
        TopBox::Whole { kind, body, end } => print_first(fd, kind, body, end),
        _ => words::print_words(fd, 4),
    }
}

// The refusal as a sentence: `iinf` lists more than 256 items.
pub fn print_sentence(fd: i32, head: &[u8], total: u64, f: Refusal) {
    if f.number == 4 {
        return print_start(fd, head, total);
    }
    let kind = words::place_kind(f.number);
    match kind {
        PlaceKind::Nothing => words::print_words(fd, f.number),
        PlaceKind::Box => {
            words::print_subject(fd, head, f);
            in_box::print_cause(fd, head, total, f);
        }
        PlaceKind::Item | PlaceKind::Asked => {
            if f.number == 12 {
                say(fd, b"the primary ");
            }
            words::print_subject(fd, head, f);
            of_item::print_cause(fd, head, total, f);
        }
    }
}
