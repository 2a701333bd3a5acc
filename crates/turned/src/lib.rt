// What an item's transforms, one after the other, do to how it is drawn.
#![tactic(auto)]

ghost use Rattle.std.specs.Prelude.{◌≡◌, [], ◌+◌, ◌≤◌, ◌<◌, length, get_or};
ghost use Rattle.contents.specs.File.{File};
ghost use Rattle.pictures.specs.Turn.{point, Inside, AllFit, size_through};
ghost use Rattle.pictures.specs.Decode.{turns_of};
ghost use Rattle.rules.specs.Joined.{associations_of, boxes_of};
ghost use Rattle.rules.specs.Places.{Places};
ghost use Rattle.views.specs.inner.View.{TableOf, id_of};
ghost use Rattle.layout.specs.inner.Pose.{composed_of};
ghost use Rattle.turned.specs.inner.Turns.{done_by, posed, margins_through, part_between, part_back};

use layout::{Margins, Part, Pose};
use pictures::{Point, Size, Turn};
use table::ItemRow;

// What an item's association with a number from 0 does to a picture of size s. Most do nothing.
pub fn turn_at(head: &[u8], table: &[u32], row: ItemRow, j: usize, s: Size) -> Turn
    ensures { (pl : Places) (f : File) → TableOf table.now head.now pl f →
        row.0 < length f.items → j < length (associations_of f (id_of f row.0)) →
        result ≡ done_by s (get_or (boxes_of f (id_of f row.0)) j []) }
{
    let kind = declared::kind_of(table, row, j);
    if declared::is_transform(kind) {
        let b = views::content_of(declared::box_of(head, table, row, j));
        return pictures::turn_of(s, kind, b);
    }
    Turn::Stay
}

// How an item's reconstructed image lies where its output image lies in a pose.
pub fn pose_within(head: &[u8], table: &[u32], row: ItemRow, s: Size, outer: Pose) -> Pose
    ensures { (pl : Places) (f : File) → TableOf table.now head.now pl f →
        row.0 < length f.items → result.0 ≡ composed_of outer.0 (posed (turns_of s (boxes_of f (id_of f row.0))) 0) }
{
    let n = declared::property_count(table, row);
    let mut size = s;
    let mut pose = Pose(0);
    for j in 0..n {
        let t = turn_at(head, table, row, j, size);
        pose = layout::composed(layout::pose_of(t), pose);
        size = pictures::size_after(t, size);
    }
    layout::composed(outer, pose)
}

// The margins of an item's output image, where its reconstructed image has the size s and margins m.
pub fn margins_through(head: &[u8], table: &[u32], row: ItemRow, s: Size, m: Margins) -> Margins
    ensures { (pl : Places) (f : File) → TableOf table.now head.now pl f →
        row.0 < length f.items → AllFit (turns_of s (boxes_of f (id_of f row.0))) s →
        m.left + s.wide + m.right ≤ 65535 → m.top + s.high + m.bottom ≤ 65535 →
        result ≡ margins_through (turns_of s (boxes_of f (id_of f row.0))) s m }
{
    let n = declared::property_count(table, row);
    let mut size = s;
    let mut margins = m;
    for j in 0..n {
        let t = turn_at(head, table, row, j, size);
        margins = layout::margins_after(t, size, margins);
        size = pictures::size_after(t, size);
    }
    margins
}

// The part between two of its corners that lie across from each other, in any order.
fn part_between(a: Point, b: Point) -> Part
    ensures { result ≡ part_between a b }
{
    Part {
        left: a.x.min(b.x),
        top: a.y.min(b.y),
        right: a.x.max(b.x),
        bottom: a.y.max(b.y),
    }
}

// The part of an item's reconstructed image that a part of its output image comes from.
pub fn part_within(head: &[u8], table: &[u32], row: ItemRow, s: Size, part: Part) -> Part
    ensures { (pl : Places) (f : File) → TableOf table.now head.now pl f →
        row.0 < length f.items → AllFit (turns_of s (boxes_of f (id_of f row.0))) s →
        Inside (size_through (turns_of s (boxes_of f (id_of f row.0))) s) (point part.left part.top) →
        Inside (size_through (turns_of s (boxes_of f (id_of f row.0))) s) (point part.right part.bottom) →
        result ≡ part_back (turns_of s (boxes_of f (id_of f row.0))) s part }
{
    let first = Point {
        x: part.left,
        y: part.top,
    };
    let last = Point {
        x: part.right,
        y: part.bottom,
    };
    let a = tracing::undone(head, table, row, s, first);
    let b = tracing::undone(head, table, row, s, last);
    part_between(a, b)
}
