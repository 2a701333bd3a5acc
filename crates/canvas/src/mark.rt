// The marks of one picture in the coordinates of its reconstructed image.
ghost use Rattle.std.specs.Prelude.{◌<◌};

use crate::number::{put, put_fraction, put_kind, put_raised, put_times, put_with};
use crate::pose::{put_middle, put_pose, put_upright};
use crate::turn::put_holed;
use layout::{Margins, Part, Pose, across_of, down_of, uncut};
use pictures::Size;

fn put_size(s: Size) {
    put_with(b" width='", s.wide);
    put_with(b"' height='", s.high);
    put(b"'");
}

pub fn open_group() {
    put(b"<g>");
}

pub fn close_group() {
    put(b"</g>\n");
}

// A canvas, past whose edges nothing is drawn.
pub fn open_canvas(s: Size) {
    put(b"<svg");
    put_size(s);
    put(b">\n");
}

pub fn close_canvas() {
    put(b"</svg>\n");
}

// An input whose corner lies at x and y, each with `ZERO` added to it.
pub fn open_input(x: u64, y: u64) {
    put(b"<g transform='translate(");
    put_raised(x);
    put(b" ");
    put_raised(y);
    put(b")'>");
}

// What is shown where one points at a picture.
fn put_name(id: u32, kind: u32, s: Size) {
    put_with(b"><title>", id);
    put(b" ");
    put_kind(kind);
    put(b" ");
    put_times(s.wide, s.high);
    put(b"</title></rect>\n");
}

// A coded picture. An item has one colour wherever it is seen.
pub fn put_coded(id: u32, kind: u32, s: Size) {
    put_with(b"<rect class='c", id % 6);
    put_with(b"' data-item='", id);
    put(b"'");
    put_size(s);
    put_name(id, kind, s);
}

// A picture that is not gone into.
pub fn put_shut(id: u32, kind: u32, s: Size) {
    put(b"<rect class='shut'");
    put_size(s);
    put_name(id, kind, s);
}

// The canvas of an overlay; the word for fill is upright.
pub fn put_fill(id: u32, s: Size, pose: Pose) {
    put_with(b"<rect class='fill' data-fill='", id);
    put_with(b"' fill='url(#fill", pose.0 % 8);
    put(b")'");
    put_size(s);
    put(b"/>\n");
}

// The edge of an input.
pub fn put_edge(s: Size) {
    put(b"<rect class='edge'");
    put_size(s);
    put(b"/>");
}

// The edge of an input that others may lie on.
pub fn put_under(s: Size) {
    put(b"<rect class='under'");
    put_size(s);
    put(b"/>");
}

// To the middle of what is seen of a picture, then on the page so many millionths to the right, and down or up.
fn put_place(part: Part, pose: Pose, right: u64, down: u64, up: bool) {
    put(b"translate(");
    put_middle(part);
    put(b") matrix(");
    put_upright(pose);
    put_fraction(b"0 0) translate(", right);
    if up {
        put_fraction(b" -", down);
    } else {
        put_fraction(b" ", down);
    }
    put(b") matrix(");
    put_pose(pose);
    put(b"0 0)");
}

// The arrow to where the coded picture has its top, the flag on its right side.
pub fn put_arrow(part: Part, pose: Pose, scale: u32) {
    let across = across_of(part, pose);
    let down = down_of(part, pose);
    put(b"<use xlink:href='#up' transform='");
    put_place(part, pose, across * 170000, down * 170000, false);
    put_fraction(b" scale(", (across.min(down) * 5500).min(scale as u64 * 3));
    put(b")'/>\n");
}

// The longer side of a frame, at least 1.
fn longest(frame: Size) -> u64
    ensures { 0 < result }
{
    if frame.wide < frame.high {
        return frame.high as u64;
    }
    if frame.wide == 0 {
        return 1;
    }
    frame.wide as u64
}

// How often one length goes into another, at least once.
fn ratio(length: u64, side: u64) -> u64
    requires { 0 < side }
    ensures { 0 < result }
{
    let r = length / side;
    if r == 0 {
        return 1;
    }
    r
}

// A frame at so many millionths of its size, its middle at the origin; what lies outside a picture of size s in it is cut away.
fn put_small(frame: Size, s: Size, m: Margins, scale: u32, small: u64)
    requires { 0 < small }
{
    put_fraction(b" scale(", small);
    put_fraction(b") translate(-", frame.wide as u64 * 500000);
    put_fraction(b" -", frame.high as u64 * 500000);
    put_fraction(b")' stroke-width='", scale as u64 * 1000000 / small);
    put(b"'><rect class='kept'");
    put_size(frame);
    put(b"/>");
    put_holed(b"away", frame, m.left, m.top, s.wide, s.high);
}

// What the crops of an input kept, small in a corner of what is seen of it: of a coded one at the top, of a derived one at the bottom.
pub fn put_kept(part: Part, pose: Pose, s: Size, m: Margins, scale: u32, up: bool) {
    let frame = uncut(s, m);
    let across = across_of(part, pose);
    let down = down_of(part, pose);
    let side = (across.min(down) * 300000).min(scale as u64 * 40);
    let inset = side * 6 / 10;
    let right = (across * 500000).saturating_sub(inset);
    let below = (down * 500000).saturating_sub(inset);
    put(b"<g transform='");
    put_place(part, pose, right, below, up);
    put_small(frame, s, m, scale, ratio(side, longest(frame)));
    put(b"</g>\n");
}
