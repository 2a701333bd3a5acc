// Prints the table of refusal numbers that README shows, so that the two say the same.
#![tactic(auto)]

use words::{PlaceKind, say};

// The subject of a number's words, where its place tells one.
fn print_subject(number: u32) {
    let kind = words::place_kind(number);
    match kind {
        PlaceKind::Nothing => say(1, b""),
        PlaceKind::Box => say(1, b"a box "),
        PlaceKind::Item => say(1, b"an item "),
        PlaceKind::Asked => say(1, b"the item asked for "),
    }
}

// What the place is.
fn print_place(number: u32) {
    let kind = words::place_kind(number);
    match kind {
        PlaceKind::Nothing => say(1, b"0"),
        PlaceKind::Box => say(1, b"its offset"),
        PlaceKind::Item | PlaceKind::Asked => say(1, b"its ID"),
    }
}

fn print_row(number: u32) {
    say(1, b"| ");
    io::print_decimal(1, number as u64);
    say(1, b" | ");
    print_subject(number);
    words::print_words(1, number);
    say(1, b" | ");
    print_place(number);
    say(1, b" |\n");
}

fn main() {
    say(1, b"| No. | in words | place |\n|---|---|---|\n");
    for number in 1..32 {
        print_row(number);
    }
}
