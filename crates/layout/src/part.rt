// Which part of a picture is seen, and how large it is as it lies on the page.
ghost use Rattle.std.specs.Prelude.{◌≡◌, ◌+◌, ◌-◌, ◌%◌, ◌≤◌, ◌==◌};
ghost use Rattle.layout.specs.inner.Part.{whole_of, across_of, down_of};

use crate::pose::Pose;
use pictures::Size;

// The first and the last column and row of what is seen of a picture.
#[derive(Clone, Copy)]
pub struct Part {
    pub left: u32,
    pub top: u32,
    pub right: u32,
    pub bottom: u32,
}

// All of a picture.
pub fn whole(s: Size) -> Part
    ensures { result ≡ whole_of s }
{
    Part {
        left: 0,
        top: 0,
        right: s.wide.saturating_sub(1),
        bottom: s.high.saturating_sub(1),
    }
}

// How many columns or rows there are from a first to a last one.
fn count(first: u32, last: u32) -> u64
    ensures { result ≡ last + 1 - first }
{
    if last < first {
        return 0;
    }
    (last - first) as u64 + 1
}

// Whether width and height are exchanged.
fn is_sideways(pose: Pose) -> bool
    ensures { result ≡ (pose.0 % 2 == 1) }
{
    pose.0 % 2 == 1
}

// How wide a part is as it lies on the page.
pub fn across_of(part: Part, pose: Pose) -> u64
    ensures { (result ≤ 4294967296) × (result ≡ across_of part pose.0) }
{
    if is_sideways(pose) {
        return count(part.top, part.bottom);
    }
    count(part.left, part.right)
}

// How high it is.
pub fn down_of(part: Part, pose: Pose) -> u64
    ensures { (result ≤ 4294967296) × (result ≡ down_of part pose.0) }
{
    if is_sideways(pose) {
        return count(part.left, part.right);
    }
    count(part.top, part.bottom)
}
