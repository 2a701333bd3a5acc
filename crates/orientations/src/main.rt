// Writes README's picture of the eight orientations, as SVG: a letter that is stored upright, as each of them shows it.
// The library says which transforms an orientation means, and the marks of ./draw (crate `canvas`) draw them.
#![tactic(auto)]

use boxes::types::{IMIR, IROT};
use canvas::{put, put_number, put_with};
use facing::{Transform, TransformList};
use pictures::{Size, Turn};

// Higher than wide, so that a quarter turn shows.
fn stored_size() -> Size {
    Size {
        wide: 96,
        high: 128,
    }
}

// The letter has no symmetry, so that no two of the eight look the same.
fn put_stored() {
    put(
        b"<rect class='c0' width='96' height='128' stroke='#234'/><path d='M26 20H74V38H46V56H68V74H46V108H26Z' fill='#0b3d91'/>",
    );
}

fn turn_by(t: Transform) -> Turn {
    match t {
        Transform::Irot(value) => { pictures::turn_of(stored_size(), IROT, &[(value % 256) as u8]) }
        Transform::Imir(value) => { pictures::turn_of(stored_size(), IMIR, &[(value % 256) as u8]) }
    }
}

// The middle of what is shown stands in the middle of its cell.
fn open_shown(s: Size) {
    put_with(b"<g transform='translate(150 108) translate(-", s.wide / 2);
    put_with(b" -", s.high / 2);
    put(b")'>");
}

// The letter after two transforms.
fn put_shown(first: Turn, second: Turn) {
    let s = stored_size();
    let turned = pictures::size_after(first, s);
    open_shown(pictures::size_after(second, turned));
    canvas::open_turn(second, turned, false);
    canvas::open_turn(first, s, false);
    put_stored();
    canvas::close_turn(first, s, false);
    canvas::close_turn(second, turned, false);
    canvas::close_group();
}

fn put_letter(l: TransformList) {
    match l {
        TransformList::None => put_shown(Turn::Stay, Turn::Stay),
        TransformList::One(t) => put_shown(turn_by(t), Turn::Stay),
        TransformList::Two(t, u) => put_shown(turn_by(t), turn_by(u)),
    }
}

// What the orientation asks of a viewer, a line for each step.
fn put_words(orientation: u32) {
    put(b"<text x='150' y='208' text-anchor='middle'>");
    words::print_first_step(1, orientation);
    if words::has_second_step(orientation) {
        put(b",</text><text x='150' y='229' text-anchor='middle'>");
        words::print_second_step(1, orientation);
    }
    put(b"</text>\n");
}

// The cell of an orientation, its corner at x and y.
fn put_cell(orientation: u32, x: u32, y: u32) {
    put_with(b"<g transform='translate(", x);
    put_with(b" ", y);
    put(
        b")'><rect x='8' y='8' width='284' height='238' rx='8' fill='#f4f6f8'/>\n<text class='title' x='24' y='42'>",
    );
    put_number(orientation as u64);
    put(b"</text>\n");
    if let Ok(l) = facing::transforms_for(orientation) {
        put_letter(l);
    }
    put_words(orientation);
    canvas::close_group();
}

fn main() {
    canvas::open_page(572);
    put(
        b"<text x='600' y='36' text-anchor='middle'>A letter that is stored upright, as each orientation shows it, and what a viewer must do</text>\n",
    );
    put_cell(1, 0, 56);
    put_cell(2, 300, 56);
    put_cell(3, 600, 56);
    put_cell(4, 900, 56);
    put_cell(5, 0, 310);
    put_cell(6, 300, 310);
    put_cell(7, 600, 310);
    put_cell(8, 900, 310);
    canvas::close_canvas();
}
