// What each refusal says, in words, and each orientation. A refusal's sentence is a subject, which the place tells, and
// the words: `iloc` ends inside one of its fields, item 5 is made from itself.
#![tactic(auto)]

mod numbers;
mod orientation;

ghost use Rattle.std.specs.Prelude.{◌≡◌};
ghost use Rattle.fields.specs.Lists.{member};
ghost use Rattle.words.specs.inner.Subject.{kind_of, printable, text};

use boxes::Refusal;
pub use numbers::say;
use numbers::{print_asked_words, print_box_words, print_item_words, print_other_words};
pub use orientation::{has_second_step, print_first_step, print_orientation, print_second_step};

// What the place of a refusal tells: nothing, where a box begins in the head, an item's ID, the ID that was asked for.
#[derive(Drop)]
pub enum PlaceKind {
    Nothing,
    Box,
    Item,
    Asked,
}

// Whether a number is one of a list.
fn is_among(number: u32, list: &[u32]) -> bool
    ensures { result ≡ member number list.now }
{
    list.contains(&number)
}

pub fn place_kind(number: u32) -> PlaceKind
    ensures { result ≡ kind_of number }
{
    if is_among(number, &[3, 6, 7, 8, 9, 10, 11]) {
        return PlaceKind::Box;
    }
    if is_among(number, &[12, 13, 14, 15, 16, 17, 18, 19, 20, 29, 30]) {
        return PlaceKind::Item;
    }
    if is_among(number, &[21, 22, 23, 24, 25, 26, 28, 31]) {
        return PlaceKind::Asked;
    }
    PlaceKind::Nothing
}

// The words of a number, without their subject where the place tells it.
pub fn print_words(fd: i32, number: u32) {
    let kind = place_kind(number);
    match kind {
        PlaceKind::Nothing => print_other_words(fd, number),
        PlaceKind::Box => print_box_words(fd, number),
        PlaceKind::Item => print_item_words(fd, number),
        PlaceKind::Asked => print_asked_words(fd, number),
    }
}

fn is_printable(b: u8) -> bool
    ensures { result ≡ printable b }
{
    32 <= b && b < 127
}

fn is_text(a: u8, b: u8, c: u8, d: u8) -> bool
    ensures { result ≡ text a b c d }
{
    is_printable(a) && is_printable(b) && is_printable(c) && is_printable(d)
}

// The last byte of a number.
fn last_byte(x: u32) -> u8 {
    (x % 256) as u8
}

// A byte as it shows, or a point.
fn shown(b: u8) -> u8 {
    if is_printable(b) {
        return b;
    }
    b'.'
}

// The four letters of a type, a point for each byte that shows as none.
pub fn print_letters(fd: i32, kind: u32) {
    let letters = [
        shown(last_byte(kind / 16777216)),
        shown(last_byte(kind / 65536)),
        shown(last_byte(kind / 256)),
        shown(last_byte(kind)),
    ];
    say(fd, &letters);
}

fn is_named(kind: u32) -> bool {
    is_text(
        last_byte(kind / 16777216),
        last_byte(kind / 65536),
        last_byte(kind / 256),
        last_byte(kind),
    )
}

// A type by its letters, or in hex where they are no text.
pub fn print_kind(fd: i32, kind: u32) {
    if is_named(kind) {
        print_letters(fd, kind);
    } else {
        io::print_hex(fd, kind as u64, 8);
    }
}

// The box at a place of the head by its type: `iinf`, or in hex where that is no text.
fn print_box(fd: i32, head: &[u8], at: usize) {
    if head.len() < 8 {
        return say(fd, b"a box");
    }
    if head.len() - 8 < at {
        return say(fd, b"a box");
    }
    let kind = fields::be32(head, at + 4);
    if is_named(kind) {
        say(fd, b"`");
        print_letters(fd, kind);
        say(fd, b"`");
    } else {
        say(fd, b"box ");
        print_kind(fd, kind);
    }
}

// Whom the words are about, where the place tells it: `iinf` or item 5.
pub fn print_subject(fd: i32, head: &[u8], f: Refusal) {
    let kind = place_kind(f.number);
    match kind {
        PlaceKind::Nothing => {}
        PlaceKind::Box => {
            print_box(fd, head, f.place as usize);
            say(fd, b" ");
        }
        PlaceKind::Item | PlaceKind::Asked => {
            say(fd, b"item ");
            io::print_decimal(fd, f.place);
            say(fd, b" ");
        }
    }
}
