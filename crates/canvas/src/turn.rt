// Transforms as groups: what stands in one is in the coordinates of the picture before the transform.
use crate::number::{put, put_with};
use crate::pose::put_pose;
use layout::pose_of;
use pictures::{Point, Size, Turn};

// Where a turn takes the corner (0, 0), as an edge and not as a pixel.
fn corner_after(t: Turn, s: Size) -> Point {
    match t {
        Turn::Left => Point { x: 0, y: s.wide },
        Turn::Half => Point {
            x: s.wide,
            y: s.high,
        },
        Turn::Right => Point { x: s.high, y: 0 },
        Turn::FlipX => Point { x: s.wide, y: 0 },
        Turn::FlipY => Point { x: 0, y: s.high },
        _ => Point { x: 0, y: 0 },
    }
}

fn open_turned(t: Turn, s: Size) {
    let c = corner_after(t, s);
    put(b"<g transform='matrix(");
    put_pose(pose_of(t));
    put_with(b"", c.x);
    put_with(b" ", c.y);
    put(b")'>");
}

fn put_four(left: u32, top: u32, wide: u32, high: u32) {
    put_with(b"", left);
    put_with(b" ", top);
    put_with(b" ", wide);
    put_with(b" ", high);
}

// What is cut away is drawn around the picture itself and its copies, but not around a tile, which has neighbours.
fn open_crop(left: u32, top: u32, wide: u32, high: u32, around: bool) {
    if around {
        put_with(b"<g transform='translate(-", left);
        put_with(b" -", top);
        put(b")'>");
        return;
    }
    put_with(b"<svg width='", wide);
    put_with(b"' height='", high);
    put(b"' viewBox='");
    put_four(left, top, wide, high);
    put(b"'>");
}

// Begins the group of a transform of a picture of size s.
pub fn open_turn(t: Turn, s: Size, around: bool) {
    match t {
        Turn::Stay => {}
        Turn::Crop {
            left,
            top,
            wide,
            high,
        } => open_crop(left, top, wide, high, around),
        _ => open_turned(t, s),
    }
}

// A frame with a hole in it.
pub fn put_holed(class: &[u8], frame: Size, left: u32, top: u32, wide: u32, high: u32) {
    put(b"<path class='");
    put(class);
    put_with(b"' d='M0 0H", frame.wide);
    put_with(b"V", frame.high);
    put_with(b"H0ZM", left);
    put_with(b" ", top);
    put_with(b"v", high);
    put_with(b"h", wide);
    put_with(b"v-", high);
    put(b"z'/>");
}

// Ends it; what a crop cuts away is veiled.
pub fn close_turn(t: Turn, s: Size, around: bool) {
    match t {
        Turn::Stay => {}
        Turn::Crop {
            left,
            top,
            wide,
            high,
        } => {
            if around {
                put_holed(b"cut", s, left, top, wide, high);
                return put(b"</g>\n");
            }
            put(b"</svg>\n");
        }
        _ => put(b"</g>\n"),
    }
}
