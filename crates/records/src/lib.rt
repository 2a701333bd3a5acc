// Item records while a file is read: an item found by its ID, and the keys that say where to look.
#![tactic(auto)]

ghost use Rattle.std.specs.Prelude.{◌≡◌, true, List, Some, ◌⊎◌, ℕ, ◌+◌, ◌*◌, ◌≤◌, ◌<◌, length, get_or};
ghost use Rattle.records.specs.inner.Rows.{id_at, FoundIs};
ghost use Rattle.records.specs.inner.Keys.{key_of, LastUpto, Keyed};

use table::{ItemId, ItemRow, Table};

// A key is an ID and its row in one number, larger where the ID is. Keys rise; of 512 those before the first are 0, and
// those behind the last the largest number there is: neither is an item's key.
pub const NO_KEY: u64 = 0xffffffffffffffff;

// The key of an ID in a row.
pub fn key_of(id: ItemId, row: ItemRow) -> u64
    requires { row.0 < 256 }
    ensures { result ≡ key_of id.0 row.0 }
{
    (u64::from(id.0) + 1) * 256 + row.0 as u64
}

// The place of the last of 512 rising keys that is at most x, 0 where none is.
pub fn last_upto(keys: &[u64; 512], x: u64) -> usize
    ensures { LastUpto keys.now x result }
{
    let mut at: usize = 0;
    let mut width: usize = 512;
    // A while: a binary search, which halves its width.
    while 1 < width {
        let half = width / 2;
        if keys[at + half] <= x {
            at += half;
        }
        width -= half;
    }
    at
}

// The row among the first n of an ID. Files name items in much the same order again and again: the row that the caller
// hopes for is looked at first.
pub fn row_of(
    table: &[u32],
    n: usize,
    id: ItemId,
    hope: ItemRow,
    keys: &[u64; 512],
) -> Option<ItemRow>
    requires { (n ≤ 256) × (11280 ≤ length table.now) }
    ensures { FoundIs table.now n id.0 result }
{
    if is_in_row(table, n, id, hope) {
        return Some(hope);
    }
    row_away(table, n, id, keys)
}

// The same where there is no hope. Most writers number items one after the other: the row that the ID points to is looked
// at, then the one that the keys lead to. Nothing is asked of keys here: where that row is not the item's, which happens
// once in a file, all are searched. (A function of its own with two callers: one with a single call the compiler makes a
// part of its caller, and then whoever finds its hope at once pays for the search.)
pub fn row_away(table: &[u32], n: usize, id: ItemId, keys: &[u64; 512]) -> Option<ItemRow>
    requires { (n ≤ 256) × (11280 ≤ length table.now) }
    ensures { FoundIs table.now n id.0 result }
{
    let guess = guessed_row(table, id);
    if is_in_row(table, n, id, guess) {
        return Some(guess);
    }
    let row = row_in_keys(keys, id);
    if is_in_row(table, n, id, row) {
        return Some(row);
    }
    row_searched(table, n, id)
}

// The row among the first n of an ID where there are no keys.
pub fn row_unkeyed(table: &[u32], n: usize, id: ItemId, hope: ItemRow) -> Option<ItemRow>
    requires { (n ≤ 256) × (11280 ≤ length table.now) }
    ensures { FoundIs table.now n id.0 result }
{
    if is_in_row(table, n, id, hope) {
        return Some(hope);
    }
    let guess = guessed_row(table, id);
    if is_in_row(table, n, id, guess) {
        return Some(guess);
    }
    row_searched(table, n, id)
}

// The place of the first key of an item.
pub fn first_key(keys: &[u64; 512]) -> usize
    ensures { (result ≤ 512) × ((ids : List ℕ) (k : Keyed ids keys.now) → result ≡ k.first) }
{
    last_upto(keys, 255) + 1
}

// The row of the key at a place, any row where there is none.
pub fn row_in_key(keys: &[u64; 512], at: usize) -> ItemRow
    ensures { result.0 < 256 }
{
    if at < 512 {
        ItemRow((keys[at] % 256) as usize)
    } else {
        ItemRow(0)
    }
}

// The same of IDs that rise: behind the row that is hoped for, the key whose turn it is is looked at.
pub fn row_in_turn(
    table: &[u32],
    n: usize,
    id: ItemId,
    hope: ItemRow,
    keys: &[u64; 512],
    turn: usize,
) -> Option<ItemRow>
    requires { (n ≤ 256) × (11280 ≤ length table.now) }
    ensures { FoundIs table.now n id.0 result }
{
    if is_in_row(table, n, id, hope) {
        return Some(hope);
    }
    row_of(table, n, id, row_in_key(keys, turn), keys)
}

// The row that keys have for an ID, any row where they have none.
fn row_in_keys(keys: &[u64; 512], id: ItemId) -> ItemRow
    ensures { result.0 < 256 }
{
    let k = last_upto(keys, key_of(id, ItemRow(255)));
    ItemRow((keys[k] % 256) as usize)
}

// Whether a row is one of the first n and has an ID.
fn is_in_row(table: &[u32], n: usize, id: ItemId, row: ItemRow) -> bool
    requires { (n ≤ 256) × (11280 ≤ length table.now) }
    ensures { result ≡ true → FoundIs table.now n id.0 (Some row) }
{
    row.0 < n && table[Table::item(row)] == id.0
}

// The row of an ID if the items are numbered one after the other, rising or falling, from that of row 0 on. A guess: whoever asks looks there.
fn guessed_row(table: &[u32], id: ItemId) -> ItemRow
    requires { 11280 ≤ length table.now }
    ensures { (id.0 ≡ id_at table.now 0 + result.0) ⊎ (id.0 + result.0 ≡ id_at table.now 0) }
{
    ItemRow(id.0.abs_diff(table[Table::ITEMS]) as usize)
}

// The first row of n with an ID.
pub fn row_searched(table: &[u32], n: usize, id: ItemId) -> Option<ItemRow>
    requires { (n ≤ 256) × (11280 ≤ length table.now) }
    ensures { FoundIs table.now n id.0 result }
{
    for k in 0..n {
        if table[Table::item(ItemRow(k))] == id.0 {
            return Some(ItemRow(k));
        }
    }
    None
}
