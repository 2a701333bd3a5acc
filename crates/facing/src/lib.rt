// Orientations: the number of 1 to 8 that says what an item's `irot` and `imir` do together, and the transforms that say a number.
#![tactic(auto)]

ghost use Rattle.std.specs.Prelude.{◌≡◌, List, ℕ, ◌<◌, length};
ghost use Rattle.contents.specs.File.{File};
ghost use Rattle.pictures.specs.declared.Size as Sizes;
ghost use Rattle.rules.specs.Places.{Places};
ghost use Rattle.rules.specs.Derivations.{scene_of};
ghost use Rattle.views.specs.inner.View.{TableOf, id_of};
ghost use Rattle.facing.specs.Facings.{turn_facing, joined_facing};
ghost use Rattle.facing.specs.Facings as Facings;
ghost use Rattle.facing.specs.Orientation.{orientation_in, transforms_in};
ghost use Rattle.facing.specs.Told.{told_faced, told_oriented, told_transforms};

use boxes::Refusal;
use boxes::types::CLAP;
use pictures::{Size, Turn};
use table::{ItemId, ItemRow};

// One of the eight ways in which a picture can face: its axes exchanged or not, and each then mirrored or not, left and
// right by `across`, top and bottom by `down`.
#[derive(Drop)]
pub struct Facing {
    pub swap: bool,
    pub across: bool,
    pub down: bool,
}

fn faces(swap: bool, across: bool, down: bool) -> Facing
    ensures { result ≡ Facings.facing swap across down }
{
    Facing { swap, across, down }
}

// What a transform that cuts nothing does.
#[tactic(auto, unfolding(crate::specs::Facings::turn_facing))]
fn facing_of(t: Turn) -> Facing
    ensures { result ≡ turn_facing t }
{
    match t {
        Turn::Left => faces(true, true, false),
        Turn::Half => faces(false, true, true),
        Turn::Right => faces(true, false, true),
        Turn::FlipX => faces(false, true, false),
        Turn::FlipY => faces(false, false, true),
        Turn::Stay | Turn::Crop { .. } | Turn::Misfit => faces(false, false, false),
    }
}

// The transforms of a, then those of b.
#[tactic(auto, unfolding(crate::specs::Facings::joined_facing))]
fn joined(a: Facing, b: Facing) -> Facing
    ensures { result ≡ joined_facing a b }
{
    if a.swap {
        return faces(!b.swap, a.across != b.down, a.down != b.across);
    }
    faces(b.swap, a.across != b.across, a.down != b.down)
}

// The number of 1 to 8.
#[tactic(auto, unfolding(crate::specs::Facings::number_of))]
fn number_of(a: Facing) -> u32
    ensures { result ≡ Facings.number_of a }
{
    if a.swap {
        if a.across {
            return if a.down { 7 } else { 8 };
        }
        return if a.down { 6 } else { 5 };
    }
    if a.across {
        return if a.down { 3 } else { 2 };
    }
    if a.down { 4 } else { 1 }
}

// The orientation of the item in a row, its transforms gone through from the last to the first: none where a `clap` is
// among its properties.
pub fn orientation_of(head: &[u8], table: &[u32], row: ItemRow) -> Option<u32>
    ensures { (pl : Places) (f : File) → TableOf table.now head.now pl f →
        row.0 < length f.items → (s : Sizes.Size) → result ≡ told_faced f s (id_of f row.0) }
{
    let mut faced = faces(false, false, false);
    for j in (0..declared::property_count(table, row)).rev() {
        let kind = declared::kind_of(table, row, j);
        if kind == CLAP {
            return None;
        }
        if declared::is_transform(kind) {
            let b = views::content_of(declared::box_of(head, table, row, j));
            // `irot` and `imir` do the same to every size.
            let t = pictures::turn_of(Size { wide: 0, high: 0 }, kind, b);
            faced = joined(facing_of(t), faced);
        }
    }
    Some(number_of(faced))
}

// A transform by the value that its box holds.
#[derive(Clone, Copy)]
pub enum Transform {
    Irot(u32),
    Imir(u32),
}

#[derive(Clone, Copy)]
pub enum TransformList {
    None,
    One(Transform),
    Two(Transform, Transform),
}

// The shortest list of transforms for an orientation, `irot` first: 27 where it is none of 1 to 8.
pub fn transforms_for(orientation: u32) -> Result<TransformList, Refusal>
    ensures { result ≡ told_transforms (transforms_in orientation) }
{
    match orientation {
        1 => Ok(TransformList::None),
        2 => Ok(TransformList::One(Transform::Imir(1))),
        3 => Ok(TransformList::One(Transform::Irot(2))),
        4 => Ok(TransformList::One(Transform::Imir(0))),
        5 => Ok(TransformList::Two(Transform::Irot(3), Transform::Imir(1))),
        6 => Ok(TransformList::One(Transform::Irot(3))),
        7 => Ok(TransformList::Two(Transform::Irot(1), Transform::Imir(1))),
        8 => Ok(TransformList::One(Transform::Irot(1))),
        _ => Err(Refusal {
            number: 27,
            place: 0,
        }),
    }
}

// The orientation of an item of an accepted file's table: 21, 22, then 26.
pub fn orientation_in(head: &[u8], table: &[u32], id: ItemId) -> Result<u32, Refusal>
    ensures { (total : ℕ) (pl : Places) (f : File) → TableOf table.now head.now pl f →
        result ≡ told_oriented (orientation_in (scene_of total head.now f) f id.0) }
{
    let row = asked::picture_row(table, id)?;
    orientation_of(head, table, row).ok_or(asked::refusal(26, id))
}
