// Refusals 12 to 14 and 30: the primary item, and where an item's bytes lie.
#![tactic(auto)]

ghost use Rattle.std.specs.Prelude.{◌≡◌, List, true, false, ◌&&◌, not, ℕ, ◌+◌, ◌≤◌, ◌<◌, length, get_or, leb};
ghost use Rattle.contents.specs.Iloc.{Extent};
ghost use Rattle.contents.specs.File.{File};
ghost use Rattle.rules.specs.Places.{Places, file_offset};
ghost use Rattle.rules.specs.Joined.{location_of, item_at};
ghost use Rattle.rules.specs.Bytes.{all_extents, good_method, good_lengths, names_past};
ghost use Rattle.rules.specs.Bytes as Bytes;
ghost use Rattle.rules.specs.inner.Direct.{store_of, within};
ghost use Rattle.linking.specs.inner.Links.{named_row};
ghost use Rattle.linking.specs.inner.Bytes.{LinksAre};
ghost use Rattle.placed.specs.inner.Plain.{plain_method, plain_rule, end_at, SourcesAre, Chained};
ghost use Rattle.rules.specs.Rules.{good_primary, has_bytes, rule13-30-14};
ghost use Rattle.views.specs.inner.View.{TableOf, Judging, id_of};
ghost use Rattle.views.specs.inner.Told.{fault_of};

use table::{ItemId, ItemRow};

// Where the bytes end that an item's extents may lie in, as places of the file. What else ends at a place of its own is
// a field more here.
#[derive(Clone, Copy)]
pub struct Ends {
    // The file.
    pub total: u64,
    // The content of its `idat`.
    pub idat: usize,
}

// Whether the primary item is listed, a picture and not hidden.
pub fn good_primary(table: &[u32]) -> bool
    ensures { (head : List ℕ) (pl : Places) (f : File) → TableOf table.now head pl f → result ≡ good_primary f }
{
    match views::row_named(table, ItemId(table::word(table, 5)), ItemRow(0)) {
        None => false,
        Some(row) => {
            views::is_image(views::type_of(table, row)) && views::record_word(table, row, 2) == 0
        }
    }
}

// Whether each extent of an item has a length.
fn has_lengths(table: &[u32], row: ItemRow) -> bool
    ensures { (head : List ℕ) (pl : Places) (f : File) → TableOf table.now head pl f →
        row.0 < length f.items → result ≡ good_lengths (location_of f (id_of f row.0)) }
{
    let n = views::record_word(table, row, 8) as usize;
    for j in 0..n {
        if views::extent_of(table, row, j).size == 0 {
            return false;
        }
    }
    true
}

// Whether each extent of an item has a length and ends at a place of the file or before it. An offset that passes 64
// bits stands in the table as the largest number, from which no length is left.
fn lie_before(table: &[u32], row: ItemRow, end: u64) -> bool
    ensures { (head : List ℕ) (pl : Places) (f : File) → TableOf table.now head pl f →
        row.0 < length f.items → result ≡ (good_lengths (location_of f (id_of f row.0)) &&
        all_extents (λ (e : Extent). leb (file_offset pl (location_of f (id_of f row.0)) e + e.size) end)
        (location_of f (id_of f row.0)).extents) }
{
    let n = views::record_word(table, row, 8) as usize;
    for j in 0..n {
        let e = views::extent_of(table, row, j);
        if e.size == 0 || end < e.offset || end - e.offset < e.size {
            return false;
        }
    }
    true
}

// Whether an item has method 0 or 1, and its bytes in this file.
fn good_method(table: &[u32], row: ItemRow) -> bool
    ensures { (head : List ℕ) (pl : Places) (f : File) → TableOf table.now head pl f →
        Judging table.now f → row.0 < length f.items → result ≡ plain_method (location_of f (id_of f row.0)) }
{
    views::record_word(table, row, 9) <= 1 && views::record_word(table, row, 10) == 0
}

// Whether each extent of an item has a length and ends where its source does or before.
fn lies_within(table: &[u32], row: ItemRow, ends: Ends) -> bool
    ensures { (head : List ℕ) (pl : Places) (f : File) → TableOf table.now head pl f →
        pl.idat + length f.idat ≡ ends.idat → row.0 < length f.items →
        result ≡ (good_lengths (location_of f (id_of f row.0)) &&
        within (store_of ends.total head f (location_of f (id_of f row.0)).method)
        (location_of f (id_of f row.0))) }
{
    if views::record_word(table, row, 9) == 1 {
        return lie_before(table, row, ends.idat as u64);
    }
    lie_before(table, row, ends.total)
}

// Whether an item has an extent if it is coded.
fn has_bytes(table: &[u32], row: ItemRow) -> bool
    ensures { (head : List ℕ) (pl : Places) (f : File) → TableOf table.now head pl f →
        row.0 < length f.items → result ≡ has_bytes f (item_at f row.0) }
{
    views::record_word(table, row, 8) != 0 || !views::is_coded(views::type_of(table, row))
}

// 13 before 14 for the item in a row, none where neither is given; 30 for one that is made of other items, which is asked with
// their levels (linked_fault). Only where an extent is wrong are the lengths gone over once more.
pub fn place_fault(table: &[u32], row: ItemRow, ends: Ends) -> Option<u32>
    ensures { (head : List ℕ) (pl : Places) (f : File) → TableOf table.now head pl f →
        Judging table.now f → pl.idat + length f.idat ≡ ends.idat → row.0 < length f.items →
        result ≡ fault_of (plain_rule ends.total head f (item_at f row.0)) }
{
    if !good_method(table, row) {
        if views::record_word(table, row, 9) == 2 {
            return Some(30);
        }
        return Some(13);
    }
    if !lies_within(table, row, ends) {
        if has_lengths(table, row) {
            return Some(14);
        }
        return Some(13);
    }
    if !has_bytes(table, row) {
        return Some(14);
    }
    None
}

// The sum of the lengths of a row that an extent names.
fn sum_named(sums: &[u64; 256], x: u32) -> u64
    ensures { x < 256 → result ≡ get_or sums.now x 0 }
{
    let k = x as usize;
    if k < sums.len() {
        return sums[k];
    }
    0
}

// Where the source of an extent ends, by its item's method: the file, `idat`, or the item that it names.
fn end_of(rows: &[u32], sums: &[u64; 256], ends: Ends, method: u32, e: usize) -> u64
    requires { e < 512 }
    ensures { (1 < method → named_row rows.now e < 256) →
        result ≡ end_at ends.total ends.idat rows.now sums.now method e }
{
    match method {
        0 => ends.total,
        1 => ends.idat as u64,
        _ => sum_named(sums, table::word(rows, 2304 + e)),
    }
}

// Whether each extent of an item ends where its source does or before. An offset that passes 64 bits stands in the table as the
// largest number, from which no length is left. (Not `lies_within`, which the compiler then would not fold into its caller.)
fn lie_in_sources(table: &[u32], rows: &[u32], sums: &[u64; 256], row: ItemRow, ends: Ends) -> bool
    requires { 11280 ≤ length table.now }
    ensures { (head : List ℕ) (pl : Places) (f : File) →
        SourcesAre table.now rows.now sums.now head pl ends.idat f → row.0 < length f.items →
        Chained f (id_of f row.0) → names_past 8 f (id_of f row.0) ≡ false →
        result ≡ Bytes.within ends.total head f (id_of f row.0) }
{
    let method = views::record_word(table, row, 9);
    let first = views::record_word(table, row, 7) as usize;
    let past = first + (views::record_word(table, row, 8) as usize);
    if 512 < past {
        return false;
    }
    for e in first..past {
        let end = end_of(rows, sums, ends, method, e);
        let offset = linking::offset_at(table, e);
        if end < offset || end - offset < linking::size_at(table, e) {
            return false;
        }
    }
    true
}

// 14 for an item that keeps 13 and 30.
fn is_past(
    table: &[u32],
    rows: &[u32],
    links: &[u8; 256],
    sums: &[u64; 256],
    row: ItemRow,
    ends: Ends,
) -> bool
    requires { 11280 ≤ length table.now }
    ensures { (head : List ℕ) (pl : Places) (f : File) →
        SourcesAre table.now rows.now sums.now head pl ends.idat f →
        LinksAre table.now rows.now (length f.items) links.now → row.0 < length f.items →
        Chained f (id_of f row.0) → result ≡ not (not (names_past 8 f (id_of f row.0)) &&
        (Bytes.within ends.total head f (id_of f row.0) && has_bytes f (item_at f row.0))) }
{
    linking::names_past(links, row)
        || !lie_in_sources(table, rows, sums, row, ends)
        || !has_bytes(table, row)
}

// Whether an item has a method that there is, its bytes in this file, and extents that all have a length.
fn is_lengthy(table: &[u32], row: ItemRow) -> bool
    ensures { (head : List ℕ) (pl : Places) (f : File) → TableOf table.now head pl f →
        Judging table.now f → row.0 < length f.items →
        result ≡ (good_method (location_of f (id_of f row.0)) && good_lengths (location_of f (id_of f row.0))) }
{
    views::record_word(table, row, 9) <= 2
        && views::record_word(table, row, 10) == 0
        && has_lengths(table, row)
}

// 13, 30, 14 for the item in a row, none where none is given, once the levels of all rows are known. (It says of every item what the
// rules say. place_fault is the same for files that have no levels, and a function of its own for their speed.)
pub fn linked_fault(
    table: &[u32],
    rows: &[u32],
    links: &[u8; 256],
    sums: &[u64; 256],
    row: ItemRow,
    ends: Ends,
) -> Option<u32>
    requires { 11280 ≤ length table.now }
    ensures { (head : List ℕ) (pl : Places) (f : File) →
        SourcesAre table.now rows.now sums.now head pl ends.idat f →
        LinksAre table.now rows.now (length f.items) links.now →
        Judging table.now f → row.0 < length f.items →
        result ≡ fault_of (rule13-30-14 ends.total head f (item_at f row.0)) }
{
    if !is_lengthy(table, row) {
        return Some(13);
    }
    if linking::is_endless(links, row) {
        return Some(30);
    }
    if is_past(table, rows, links, sums, row, ends) {
        return Some(14);
    }
    None
}
