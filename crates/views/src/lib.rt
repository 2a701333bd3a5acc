// A table that was read, seen item by item. Nothing here can be asked for what is not there: what is past an end reads as 0 or nothing.
#![tactic(auto)]

ghost use Rattle.std.specs.Prelude.{◌≡◌, List, [], ◌++◌, ℕ, ◌+◌, ◌*◌, ◌%◌, ◌≤◌, ◌<◌, length, get_or, take, drop};
ghost use Rattle.boxes.specs.Types.{coded, derived, image};
ghost use Rattle.boxes.specs.Box.{kind_of, body_of};
ghost use Rattle.contents.specs.File.{File};
ghost use Rattle.rules.specs.Places.{Places, places_in, property_offset, file_offset};
ghost use Rattle.rules.specs.Joined.{no_extent, associations_of, targets_of, location_of, property_at, no_association};
ghost use Rattle.rules.specs.Words.{association_word, file_words};
ghost use Rattle.records.specs.inner.Raw.{capped};
ghost use Rattle.views.specs.inner.View.{TableOf, record_word, id_of};
ghost use Rattle.views.specs.inner.Told.{told_row};
ghost use Rattle.views.specs.Lies.{LiesAt};

use boxes::types::{GRID, HVC1, IDEN, IOVL, JPEG};
use table::{ItemId, ItemRow, PropertyIndex, Table};

// How many items there are.
pub fn item_count(table: &[u32]) -> usize
    ensures { result ≡ get_or table.now 0 0 }
{
    table::word(table, 0) as usize
}

// The row at a place in `iinf`, while the records stand in its order: until the table is arranged, the last step of a call.
pub fn row_at(_table: &[u32], place: usize) -> ItemRow
    ensures { result.0 ≡ place }
{
    ItemRow(place)
}

// The row of an ID, looked for from a row on that the caller hopes for, without keys.
pub fn row_named(table: &[u32], id: ItemId, hope: ItemRow) -> Option<ItemRow>
    ensures { (head : List ℕ) (pl : Places) (f : File) → TableOf table.now head pl f → result ≡ told_row id.0 f.items }
{
    if table.len() < Table::WORDS {
        return None;
    }
    let n = item_count(table);
    if 256 < n {
        return None;
    }
    records::row_unkeyed(table, n, id, hope)
}

// A word of the record in a row.
pub fn record_word(table: &[u32], row: ItemRow, k: usize) -> u32
    requires { k < 16 }
    ensures { row.0 < 256 → result ≡ record_word table.now row.0 k }
{
    let r = row.0;
    if r < 256 {
        return table::word(table, 16 + 16 * r + k);
    }
    0
}

// The same of a table that is known to be as long as a file's: its end is not tested for.
pub fn held_word(table: &[u32], row: ItemRow, k: usize) -> u32
    requires { (k < 16) × (11280 ≤ length table.now) }
    ensures { row.0 < 256 → result ≡ record_word table.now row.0 k }
{
    let r = row.0;
    if r < 256 {
        return table[16 + 16 * r + k];
    }
    0
}

pub fn id_of(table: &[u32], row: ItemRow) -> ItemId
    ensures { row.0 < 256 → result.0 ≡ record_word table.now row.0 0 }
{
    ItemId(record_word(table, row, 0))
}

pub fn type_of(table: &[u32], row: ItemRow) -> u32
    ensures { row.0 < 256 → result ≡ record_word table.now row.0 1 }
{
    record_word(table, row, 1)
}

// The association with a number from 0, as the table has it.
pub fn association_of(table: &[u32], row: ItemRow, j: usize) -> u32
    ensures { (head : List ℕ) (pl : Places) (f : File) → TableOf table.now head pl f →
        row.0 < length f.items → j < length (associations_of f (id_of f row.0)) →
        result ≡ association_word (get_or (associations_of f (id_of f row.0)) j no_association) }
{
    let first = record_word(table, row, 3) as usize;
    if first < 2048 && j < 2048 {
        return table::word(table, 5136 + (first + j));
    }
    0
}

// The `dimg` target with a number from 0.
pub fn target_of(table: &[u32], row: ItemRow, j: usize) -> ItemId
    ensures { (head : List ℕ) (pl : Places) (f : File) → TableOf table.now head pl f →
        row.0 < length f.items → j < length (targets_of f (id_of f row.0)) →
        result.0 ≡ get_or (targets_of f (id_of f row.0)) j 0 }
{
    let first = record_word(table, row, 5) as usize;
    if first < 2048 && j < 2048 {
        return ItemId(table::word(table, 7184 + (first + j)));
    }
    ItemId(0)
}

#[derive(Drop)]
pub struct Extent {
    pub offset: u64,
    pub size: u64,
}

// A 64-bit number in two words, the high one first.
fn wide(table: &[u32], k: usize) -> u64
    requires { k < 65536 }
    ensures { result ≡ get_or table.now k 0 * 4294967296 + get_or table.now (k + 1) 0 }
{
    (table::word(table, k) as u64) * 4294967296 + (table::word(table, k + 1) as u64)
}

// The extent with a number from 0, its offset counted from the file's start.
pub fn extent_of(table: &[u32], row: ItemRow, j: usize) -> Extent
    ensures { (head : List ℕ) (pl : Places) (f : File) → TableOf table.now head pl f →
        row.0 < length f.items → j < length (location_of f (id_of f row.0)).extents →
        (result.size ≡ (get_or (location_of f (id_of f row.0)).extents j no_extent).size) ×
        (result.offset ≡ capped (file_offset pl (location_of f (id_of f row.0))
        (get_or (location_of f (id_of f row.0)).extents j no_extent))) }
{
    let first = record_word(table, row, 7) as usize;
    if j < 512 && first + j < 512 {
        let k = 9232 + 4 * (first + j);
        return Extent {
            offset: wide(table, k),
            size: wide(table, k + 2),
        };
    }
    Extent { offset: 0, size: 0 }
}

// The index of the property that an association names.
pub fn index_of(association: u32) -> PropertyIndex
    ensures { result.0 ≡ association % 32768 }
{
    PropertyIndex(association % 32768)
}

// The type of a property, 0 where the index names nothing.
pub fn property_type(table: &[u32], index: PropertyIndex) -> u32
    ensures { (head : List ℕ) (pl : Places) (f : File) → TableOf table.now head pl f →
        index.0 ≤ length f.properties → result ≡ kind_of (property_at f index.0) }
{
    let k = index.0;
    if k == 0 {
        return 0;
    }
    if k <= 256 {
        return table::word(table, 4112 + 4 * ((k - 1) as usize));
    }
    0
}

// n bytes of s from a place on, or nothing where they are not there. The part is that of s, not a like one elsewhere.
pub fn part(s: &[u8], at: usize, n: usize) -> &[u8]
    ensures result_value { at + n ≤ length s.now → result.now ≡ take n (drop at s.now) }
    ensures result_value_2 { length s.now < at + n → result.now ≡ [] }
    ensures lies_at { at + n ≤ length s.now → LiesAt s.entry.ref_ptr at result.ref_ptr }
{
    if at <= s.len() && n <= s.len() - at {
        return &s[at..at + n];
    }
    &s[..0]
}

// The box of a property as a part of the head, nothing where the index names nothing.
pub fn property_box<'a>(head: &'a [u8], table: &[u32], index: PropertyIndex) -> &'a [u8]
    ensures result_value { (pl : Places) (f : File) → TableOf table.now head.now pl f →
        index.0 ≤ length f.properties → result.now ≡ property_at f index.0 }
    ensures by_index { (total : ℕ) (x : List ℕ) (f : File) →
        table.now ≡ file_words total head.now f ++ x →
        TableOf table.now head.now (places_in total head.now) f →
        index.0 ≤ length f.properties → (index.0 ≡ 0 → ⊥) →
        LiesAt head.entry.ref_ptr (property_offset (places_in total head.now) f index.0) result.ref_ptr }
{
    let k = index.0;
    if k == 0 || 256 < k {
        return &head[..0];
    }
    let w = 4112 + 4 * ((k - 1) as usize);
    part(
        head,
        table::word(table, w + 1) as usize,
        table::word(table, w + 2) as usize,
    )
}

// The content of a box.
pub fn content_of(b: &[u8]) -> &[u8]
    ensures { result.now ≡ body_of b.now }
{
    if b.len() < 8 {
        return &b[..0];
    }
    if fields::be32(b, 0) == 1 {
        if b.len() < 16 {
            return &b[..0];
        }
        return &b[16..];
    }
    &b[8..]
}

pub fn is_coded(kind: u32) -> bool
    ensures { result ≡ coded kind }
{
    matches!(kind, HVC1 | JPEG)
}

pub fn is_derived(kind: u32) -> bool
    ensures { result ≡ derived kind }
{
    matches!(kind, IDEN | GRID | IOVL)
}

pub fn is_image(kind: u32) -> bool
    ensures { result ≡ image kind }
{
    is_coded(kind) || is_derived(kind)
}
