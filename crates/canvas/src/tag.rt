// What is written on a picture: upright, whichever way the picture lies.
ghost use Rattle.std.specs.Prelude.{◌≤◌};

use crate::number::{put, put_fraction, put_kind, put_number, put_times, put_with};
use crate::pose::{put_middle, put_upright};
use layout::{Part, Pose, across_of, down_of};
use pictures::Turn;

// At the left edge of what is seen of a picture, at its bottom or at its top, in steps of so many millionths.
fn open_corner(part: Part, pose: Pose, bottom: bool, step: u64) {
    put(b"<g class='tag' transform='matrix(");
    put_upright(pose);
    put_middle(part);
    put_fraction(b") translate(-", across_of(part, pose) * 500000);
    if bottom {
        put_fraction(b" ", down_of(part, pose) * 500000);
    } else {
        put_fraction(b" -", down_of(part, pose) * 500000);
    }
    put_fraction(b") scale(", step);
    put(b")'><text x='4' y='");
}

// How many letters a number has, or some more.
fn letters(n: u32) -> u64
    ensures { 4 ≤ result }
{
    if n < 10000 {
        return 4;
    }
    if n < 1000000 {
        return 6;
    }
    10
}

// The tag of a coded picture: its ID, below it its type, and below that what is done to it.
pub fn open_coded_tag(part: Part, pose: Pose, id: u32, kind: u32, scale: u32) {
    let across = across_of(part, pose) * 70000 / letters(id);
    let down = down_of(part, pose) * 14000;
    open_corner(
        part,
        pose,
        false,
        across.min(down).min(scale as u64 * 12 / 10),
    );
    put_with(b"20'>", id);
    put(b"</text><text class='low' x='4' y='37'>");
    put_kind(kind);
    put(b"</text><text class='low' x='4' y='54'>");
}

// The tag of a derived picture, above the tags of so many of its copies.
pub fn open_derived_tag(part: Part, pose: Pose, id: u32, kind: u32, scale: u32, copies: u32) {
    let side = across_of(part, pose).min(down_of(part, pose));
    open_corner(part, pose, true, (side * 5000).min(scale as u64 * 8 / 10));
    put(b"-");
    put_number(copies as u64 * 24 + 6);
    put_with(b"'>", id);
    put(b" ");
    put_kind(kind);
}

pub fn close_tag() {
    put(b"</text></g>\n");
}

// What a transform does, in a word.
pub fn put_turn(t: Turn) {
    match t {
        Turn::Left => put(b" left"),
        Turn::Half => put(b" half"),
        Turn::Right => put(b" right"),
        Turn::FlipX => put(b" mirror"),
        Turn::FlipY => put(b" flip"),
        Turn::Crop {
            left: _,
            top: _,
            wide: _,
            high: _,
        } => put(b" cut"),
        _ => {}
    }
}

// The same in a sentence.
pub fn say_turn(t: Turn) {
    match t {
        Turn::Left => put(b", then turned a quarter to the left"),
        Turn::Half => put(b", then turned upside down"),
        Turn::Right => put(b", then turned a quarter to the right"),
        Turn::FlipX => put(b", then mirrored left to right"),
        Turn::FlipY => put(b", then flipped top to bottom"),
        Turn::Crop {
            left: _,
            top: _,
            wide,
            high,
        } => {
            put(b", then cut to ");
            put_times(wide, high);
        }
        _ => {}
    }
}
