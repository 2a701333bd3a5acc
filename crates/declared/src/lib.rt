// Refusals 15, 29 and 16, and what an item's properties say of its size: the properties of an item, one after the other.
#![tactic(auto)]

ghost use Rattle.std.specs.Prelude.{◌≡◌, List, [], true, ℕ, ◌≤◌, ◌<◌, length, get_or};
ghost use Rattle.fields.specs.Choice.{pick};
ghost use Rattle.fields.specs.Field.{be_at};
ghost use Rattle.boxes.specs.Types.{known_property};
ghost use Rattle.contents.specs.File.{File};
ghost use Rattle.pictures.specs.Turn.{size};
ghost use Rattle.pictures.specs.Decode.{transform};
ghost use Rattle.rules.specs.Places.{Places};
ghost use Rattle.rules.specs.Joined.{associations_of, boxes_of, types_of, item_at};
ghost use Rattle.rules.specs.Rules.{essential_known, configured};
ghost use Rattle.views.specs.inner.View.{TableOf, id_of};
ghost use Rattle.declared.specs.inner.Told.{Alike, told_sizes};

use boxes::types::{AUXC, CLAP, COLR, HVC1, HVCC, IMIR, IROT, ISPE, JPGC, PASP, PIXI, RLOC};
use pictures::Size;
use table::ItemRow;

// The word of an essential association has bit 15.
const ESSENTIAL: u32 = 32768;

pub fn is_transform(kind: u32) -> bool
    ensures { result ≡ transform kind }
{
    matches!(kind, IROT | IMIR | CLAP)
}

// Whether a type of property is one that this reader knows.
pub fn is_known(kind: u32) -> bool
    ensures { result ≡ known_property kind }
{
    matches!(
        kind,
        ISPE | PASP | COLR | PIXI | RLOC | AUXC | CLAP | IROT | IMIR | HVCC | JPGC
    )
}

// How many properties an item is associated with.
pub fn property_count(table: &[u32], row: ItemRow) -> usize
    ensures { (head : List ℕ) (pl : Places) (f : File) → TableOf table.now head pl f →
        row.0 < length f.items → result ≡ length (associations_of f (id_of f row.0)) }
{
    views::record_word(table, row, 4) as usize
}

// The type of the property that an item's association with a number from 0 names, 0 where it names nothing.
pub fn kind_of(table: &[u32], row: ItemRow, j: usize) -> u32
    ensures { (head : List ℕ) (pl : Places) (f : File) → TableOf table.now head pl f →
        row.0 < length f.items → j < length (associations_of f (id_of f row.0)) →
        result ≡ get_or (types_of f (id_of f row.0)) j 0 }
{
    views::property_type(table, views::index_of(views::association_of(table, row, j)))
}

// The property box itself, as a part of the head.
pub fn box_of<'a>(head: &'a [u8], table: &[u32], row: ItemRow, j: usize) -> &'a [u8]
    ensures { (pl : Places) (f : File) → TableOf table.now head.now pl f →
        row.0 < length f.items → j < length (associations_of f (id_of f row.0)) →
        result.now ≡ get_or (boxes_of f (id_of f row.0)) j [] }
{
    views::property_box(
        head,
        table,
        views::index_of(views::association_of(table, row, j)),
    )
}

// Whether every essential property of an item is of a known type.
fn essentials_known(table: &[u32], row: ItemRow) -> bool
    ensures { (head : List ℕ) (pl : Places) (f : File) → TableOf table.now head pl f →
        row.0 < length f.items → result ≡ essential_known f (associations_of f (id_of f row.0)) }
{
    let n = property_count(table, row);
    for j in 0..n {
        if ESSENTIAL <= views::association_of(table, row, j) && !is_known(kind_of(table, row, j)) {
            return false;
        }
    }
    true
}

// Whether an item that is an `hvc1` has exactly one `hvcC`, marked essential. Others need none.
pub fn is_configured(table: &[u32], row: ItemRow) -> bool
    ensures { (head : List ℕ) (pl : Places) (f : File) → TableOf table.now head pl f →
        row.0 < length f.items → result ≡ configured f (item_at f row.0) }
{
    if views::type_of(table, row) != HVC1 {
        return true;
    }
    let n = property_count(table, row);
    let mut seen = false;
    for j in 0..n {
        if kind_of(table, row, j) == HVCC {
            if seen {
                return false;
            }
            if views::association_of(table, row, j) < ESSENTIAL {
                return false;
            }
            seen = true;
        }
    }
    seen
}

// Which of 15, 29 and 16 comes first for the properties of a picture that break one of them.
pub fn properties_fault(table: &[u32], row: ItemRow) -> u32
    ensures { (head : List ℕ) (pl : Places) (f : File) → TableOf table.now head pl f →
        row.0 < length f.items →
        result ≡ pick (essential_known f (associations_of f (id_of f row.0))) (pick (configured f (item_at f row.0)) 16 29) 15 }
{
    if !essentials_known(table, row) {
        return 15;
    }
    if is_configured(table, row) { 16 } else { 29 }
}

// Whether two items have the same type, and the same associations in the same order.
pub fn is_alike(table: &[u32], row: ItemRow, other: ItemRow) -> bool
    ensures { (head : List ℕ) (pl : Places) (f : File) → TableOf table.now head pl f →
        row.0 < length f.items → other.0 < length f.items →
        (result ≡ true → Alike f row.0 other.0) × (Alike f row.0 other.0 → result ≡ true) }
{
    if views::type_of(table, row) != views::type_of(table, other) {
        return false;
    }
    let n = property_count(table, row);
    if n != property_count(table, other) {
        return false;
    }
    for j in 0..n {
        if views::association_of(table, row, j) != views::association_of(table, other, j) {
            return false;
        }
    }
    true
}

// The size that the content of an `ispe` declares.
pub fn ispe_size(b: &[u8]) -> Size
    ensures { 12 ≤ length b.now → result ≡ size (be_at b.now 4 4) (be_at b.now 8 4) }
{
    if b.len() < 12 {
        return Size { wide: 0, high: 0 };
    }
    Size {
        wide: fields::be32(b, 4),
        high: fields::be32(b, 8),
    }
}

// The size that an item declares and the one that its transforms make of it.
#[derive(Clone, Copy)]
pub struct Sizes {
    pub declared: Size,
    pub output: Size,
}

// The sizes of a picture, in one pass over its properties: each essential one known, one `ispe`, and that before all
// transforms. None where they break 15 or 16.
pub fn read_sizes(head: &[u8], table: &[u32], row: ItemRow) -> Option<Sizes>
    ensures { (pl : Places) (f : File) → TableOf table.now head.now pl f →
        row.0 < length f.items → result ≡ told_sizes f (id_of f row.0) }
{
    let n = property_count(table, row);
    let mut sized = false;
    let mut declared = Size { wide: 0, high: 0 };
    let mut output = Size { wide: 0, high: 0 };
    for j in 0..n {
        let kind = kind_of(table, row, j);
        if ESSENTIAL <= views::association_of(table, row, j) && !is_known(kind) {
            return None;
        }
        if kind == ISPE {
            if sized {
                return None;
            }
            sized = true;
            declared = ispe_size(views::content_of(box_of(head, table, row, j)));
            output = declared;
        }
        if is_transform(kind) {
            if !sized {
                return None;
            }
            let b = views::content_of(box_of(head, table, row, j));
            output = pictures::size_after(pictures::turn_of(output, kind, b), output);
        }
    }
    sized.then_some(Sizes { declared, output })
}
