// How pictures lie on the page, in numbers of SVG.
use crate::number::{put, put_fraction};
use layout::{Part, Pose, upright};

// The first four numbers of a pose's matrix.
pub fn put_pose(pose: Pose) {
    match pose.0 % 8 {
        0 => put(b"1 0 0 1 "),
        1 => put(b"0 -1 1 0 "),
        2 => put(b"-1 0 0 -1 "),
        3 => put(b"0 1 -1 0 "),
        4 => put(b"-1 0 0 1 "),
        5 => put(b"0 1 1 0 "),
        6 => put(b"1 0 0 -1 "),
        _ => put(b"0 -1 -1 0 "),
    }
}

pub fn put_upright(pose: Pose) {
    put_pose(upright(pose));
}

// The middle of a part, in its own coordinates.
pub fn put_middle(part: Part) {
    put_fraction(b"", (part.left as u64 + part.right as u64 + 1) * 500000);
    put_fraction(b" ", (part.top as u64 + part.bottom as u64 + 1) * 500000);
}
