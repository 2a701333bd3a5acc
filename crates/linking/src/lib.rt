// How items' bytes are made of other items' bytes: how far down each goes, and how long each is (document 02, Q-7).
// `rows` has from 2,304 on, extent by extent, the row that a method 2 extent names; over 255 where there is no such reference.
#![tactic(auto)]

ghost use Rattle.std.specs.Prelude.{◌≡◌, List, true, not, ℕ, ◌+◌, ◌-◌, ◌≤◌, ◌<◌, length, get_or};
ghost use Rattle.records.specs.inner.Raw.{capped};
ghost use Rattle.linking.specs.inner.Links.{first_extent, extents, offset_at, size_at, every, some, chained, level, sum_from, length_sum, names_past, LinksIn};
ghost use Rattle.linking.specs.inner.Bytes.{SumIs, link_byte, link_named, names_below, names_marked, Linked, LinksAre, Settled, Swept};

use table::ItemRow;

// What following its links tells of a row, in a byte: its level, and two marks.
// A level counts links: 0 where the bytes lie in a file, else 1 more than the highest level that is named, 1 where none is.
const NO_LEVEL: u8 = 9;

// Some row that is named, at any depth, has lengths that sum to 2^64 or more.
const NAMES_PAST: u8 = 16;

// Its own lengths do.
const PAST: u8 = 32;

// A word that the table is known to hold: what goes over all extents reads it without a test.
fn held(table: &[u32], at: usize) -> u32
    requires { at < length table.now }
    ensures { result ≡ get_or table.now at 0 }
{
    table[at]
}

// The offset and the length of the extent with a number.
pub fn offset_at(table: &[u32], e: usize) -> u64
    requires { (e < 512) × (11280 ≤ length table.now) }
    ensures { result ≡ offset_at table.now e }
{
    (held(table, 9232 + 4 * e) as u64) * 4294967296 + (held(table, 9233 + 4 * e) as u64)
}

pub fn size_at(table: &[u32], e: usize) -> u64
    requires { (e < 512) × (11280 ≤ length table.now) }
    ensures { result ≡ size_at table.now e }
{
    (held(table, 9234 + 4 * e) as u64) * 4294967296 + (held(table, 9235 + 4 * e) as u64)
}

// The sum of the lengths of the extents from one on, before an end, if it has 64 bits.
fn sum_between(table: &[u32], first: usize, end: usize) -> Option<u64>
    requires { (first ≤ end) × (end ≤ 512) × (11280 ≤ length table.now) }
    ensures { SumIs result (sum_from table.now first (end - first)) }
{
    let mut sum: u64 = 0;
    for e in first..end {
        sum = sum.checked_add(size_at(table, e))?;
    }
    Some(sum)
}

// The sum of the lengths of an item's extents, if it has 64 bits.
pub fn sum_of(table: &[u32], row: ItemRow) -> Option<u64>
    requires { 11280 ≤ length table.now }
    ensures { row.0 < 256 → first_extent table.now row.0 + extents table.now row.0 ≤ 512 →
        SumIs result (length_sum table.now row.0) }
{
    let first = views::held_word(table, row, 7) as usize;
    let count = views::held_word(table, row, 8) as usize;
    if 512 < first + count {
        return None;
    }
    sum_between(table, first, first + count)
}

// The sum of the lengths of each of n rows, the largest 64-bit number where it is no less.
pub fn sums_of(table: &[u32], n: usize) -> [u64; 256]
    requires { (n ≤ 256) × (11280 ≤ length table.now) }
    ensures { (r : ℕ) → r < n → first_extent table.now r + extents table.now r ≤ 512 →
        get_or result r 0 ≡ capped (length_sum table.now r) }
{
    let mut sums = [0u64; 256];
    for r in 0..n {
        sums[r] = sum_of(table, ItemRow(r)).unwrap_or(u64::MAX);
    }
    sums
}

// What is known of a row before links are followed: no level where it is made of other items.
fn unfollowed(table: &[u32], row: ItemRow) -> u8
    requires { 11280 ≤ length table.now }
    ensures { row.0 < 256 → first_extent table.now row.0 + extents table.now row.0 ≤ 512 →
        (v : List ℕ) → result ≡ link_byte table.now v 1 row.0 }
{
    let level = if views::held_word(table, row, 9) == 2 {
        NO_LEVEL
    } else {
        0
    };
    match sum_of(table, row) {
        None => level + PAST,
        Some(_) => level,
    }
}

// The same of each of n rows.
fn put_rows(table: &[u32], links: &mut [u8], n: usize)
    requires { (n ≤ 256) × (n ≤ length links.old) × (11280 ≤ length table.now) }
    ensures { (v : List ℕ) → LinksIn table.now v n → Linked table.now v 1 n links.new }
{
    for r in 0..n {
        links[r] = unfollowed(table, ItemRow(r));
    }
}

// What is known of a row that an extent names: no level where there is no such row.
fn link_named(links: &[u8], x: u32) -> u8
    requires { 256 ≤ length links.now }
    ensures { result ≡ link_named links.now x }
{
    if 255 < x {
        return NO_LEVEL;
    }
    links[x as usize]
}

// Whether the extents from one on, before an end, all name rows of a level below k.
fn all_below(rows: &[u32], links: &[u8], first: usize, end: usize, k: u8) -> bool
    requires { (first ≤ end) × (end ≤ 512) × (2816 ≤ length rows.now) × (256 ≤ length links.now) }
    ensures { result ≡ every (λ j. names_below rows.now links.now k (first + j)) (end - first) }
{
    for e in first..end {
        if k <= link_named(links, held(rows, 2304 + e)) % 16 {
            return false;
        }
    }
    true
}

// Whether the extents from one on, before an end, name a row whose lengths, or those of one that it names at any depth, sum to
// 2^64 or more.
fn some_past(rows: &[u32], links: &[u8], first: usize, end: usize) -> bool
    requires { (first ≤ end) × (end ≤ 512) × (2816 ≤ length rows.now) × (256 ≤ length links.now) }
    ensures { result ≡ some (λ j. names_marked rows.now links.now (first + j)) (end - first) }
{
    for e in first..end {
        if 16 <= link_named(links, held(rows, 2304 + e)) {
            return true;
        }
    }
    false
}

// Gives a row without a level the level k if all that it names lies below; whether it was given.
fn settle(table: &[u32], rows: &[u32], links: &mut [u8], row: ItemRow, k: u8) -> bool
    requires { (row.0 < 256) × (1 ≤ k) × (k ≤ 8) × (256 ≤ length links.old) × (2816 ≤ length rows.now) × (11280 ≤ length table.now) }
    ensures { Settled table.now rows.now row.0 k links.old links.new result }
{
    let r = row.0;
    let was = links[r];
    if was % 16 != NO_LEVEL {
        return false;
    }
    let first = views::held_word(table, row, 7) as usize;
    let end = first + (views::held_word(table, row, 8) as usize);
    if 512 < end {
        return false;
    }
    if !all_below(rows, &*links, first, end, k) {
        return false;
    }
    let past = if some_past(rows, &*links, first, end) {
        NAMES_PAST
    } else {
        0
    };
    links[r] = was / 32 * 32 + k + past;
    true
}

// Gives the level k to all rows that have none and name only rows below it; whether there was one.
fn settle_all(table: &[u32], rows: &[u32], links: &mut [u8], n: usize, k: u8) -> bool
    requires { (n ≤ 256) × (1 ≤ k) × (k ≤ 8) × (256 ≤ length links.old) × (2816 ≤ length rows.now) × (11280 ≤ length table.now) }
    ensures { Swept table.now rows.now n k links.old links.new result }
{
    let mut grew = false;
    for r in 0..n {
        if settle(table, rows, &mut *links, ItemRow(r), k) {
            grew = true;
        }
    }
    grew
}

// What following its links tells of each of n rows. By rounds from the bottom up: what has no level after eight of them, or after
// one that gave none, comes to a reference that is not there, goes over 8 deep or returns to itself. Every extent is looked at once
// a round, however many ways lead to it.
pub fn links_of(table: &[u32], rows: &[u32], n: usize) -> [u8; 256]
    requires { (n ≤ 256) × (2816 ≤ length rows.now) × (11280 ≤ length table.now) }
    ensures { LinksAre table.now rows.now n result }
{
    let mut links = [0u8; 256];
    put_rows(table, &mut links, n);
    for k in 1..NO_LEVEL {
        if !settle_all(table, rows, &mut links, n, k) {
            break;
        }
    }
    links
}

// What is known of a row; of one past the last as of one in a file.
fn link_of(links: &[u8], row: ItemRow) -> u8
    ensures { result ≡ get_or links.now row.0 0 }
{
    let r = row.0;
    if r < links.len() {
        return links[r];
    }
    0
}

// The level of a row.
pub fn level_in(links: &[u8], row: ItemRow) -> u8
    ensures { (t v : List ℕ) (n : ℕ) → LinksIn t v n → LinksAre t v n links.now → row.0 < n → result ≡ level t v row.0 }
{
    link_of(links, row) % 16
}

// Whether 30 refuses a row: following its links comes to no end within 8.
pub fn is_endless(links: &[u8], row: ItemRow) -> bool
    ensures { (t v : List ℕ) (n : ℕ) → LinksIn t v n → LinksAre t v n links.now → row.0 < n → result ≡ not (chained 8 t v row.0) }
{
    level_in(links, row) == NO_LEVEL
}

// Whether some row that a row names, at any depth, has lengths that sum to 2^64 or more.
pub fn names_past(links: &[u8], row: ItemRow) -> bool
    ensures { (t v : List ℕ) (n : ℕ) → LinksIn t v n → LinksAre t v n links.now → row.0 < n →
        chained 8 t v row.0 ≡ true → result ≡ names_past 8 t v row.0 }
{
    link_of(links, row) / 16 % 2 == 1
}
