// The bytes of an item, its extents joined, also where they are made of other items' bytes (document 02, Q-7).
// `rows` has from 2,304 on, extent by extent, the row that a method 2 extent names.
#![tactic(auto)]

ghost use Rattle.std.specs.Prelude.{◌≡◌, true, List, ℕ, ◌+◌, ◌-◌, ◌≤◌, ◌<◌, length, get_or, take, drop, ltb, leb, min, IfSome};
ghost use Rattle.std.proofs.lemmas.List.Edits.{sets};
ghost use Rattle.fields.specs.Choice.{pick};
ghost use Rattle.records.specs.inner.Raw.{capped};
ghost use Rattle.linking.specs.inner.Links.{first_extent, extents, offset_at, size_at, made_of_items, chained, level, every, length_sum};
ghost use Rattle.linking.specs.inner.Bytes.{LinksAre};
ghost use Rattle.joining.specs.inner.Lies.{holder_from, place_of, PieceIs, leading, source_place, run_of, RunsIn, RunsTo, RunsAre, Sourced, bytes_of};
ghost use Rattle.joining.specs.declared.Held.{Held};

use table::{ItemRow, Table};

// How many links a chain may have.
const MOST_LINKS: u32 = 8;

// As many bytes without a gap, or more: one more than any body has.
const MOST: u64 = 16403;

// Of an item's extents the one that has a byte, and the byte's number in it.
#[derive(Clone, Copy)]
pub struct Held {
    pub e: usize,
    pub rest: u64,
}

// A stretch of the file.
#[derive(Clone, Copy)]
pub struct Piece {
    pub from: u64,
    pub size: u64,
}

// The joined length of an item, the largest 64-bit number where it is no less.
pub fn length_of(table: &[u32], row: ItemRow) -> u64
    ensures { 11280 ≤ length table.now → row.0 < 256 →
        first_extent table.now row.0 + extents table.now row.0 ≤ 512 →
        result ≡ capped (length_sum table.now row.0) }
{
    if table.len() < Table::WORDS {
        return 0;
    }
    linking::sum_of(table, row).unwrap_or(u64::MAX)
}

// Of the extents from one on, before an end, the one that has the byte p.
fn seek(table: &[u32], first: usize, end: usize, p: u64) -> Option<Held>
    requires { (first ≤ end) × (end ≤ 512) × (11280 ≤ length table.now) }
    ensures { result ≡ holder_from table.now first (end - first) p }
{
    let mut rest = p;
    for e in first..end {
        let size = linking::size_at(table, e);
        if rest < size {
            return Some(Held { e, rest });
        }
        rest -= size;
    }
    None
}

// The same of an item's extents.
fn holder_of(table: &[u32], row: ItemRow, p: u64) -> Option<Held>
    requires { 11280 ≤ length table.now }
    ensures value { row.0 < 256 → first_extent table.now row.0 + extents table.now row.0 ≤ 512 →
        result ≡ holder_from table.now (first_extent table.now row.0) (extents table.now row.0) p }
    ensures by_index { IfSome result (λ (h : Held). (h.e < 512) × (h.rest < size_at table.now h.e)) }
{
    let first = views::held_word(table, row, 7) as usize;
    let end = first + (views::held_word(table, row, 8) as usize);
    if 512 < end {
        return None;
    }
    seek(table, first, end, p)
}

// Where the first of n bytes of an item from p on lie, with d links left: as many of them as lie in one piece. None where there is
// no such byte.
fn piece_at(table: &[u32], rows: &[u32], d: u32, row: ItemRow, p: u64, n: u64) -> Piece
    requires { (11280 ≤ length table.now) × (2816 ≤ length rows.now) }
    ensures by_index { (m : ℕ) → Sourced table.now rows.now m → row.0 < m →
        chained d table.now rows.now row.0 ≡ true → 0 < n → p + n ≤ length_sum table.now row.0 →
        PieceIs (place_of d table.now rows.now row.0) p n result }
    ensures size_le_n { result.size ≤ n }
{
    match holder_of(table, row, p) {
        None => Piece { from: 0, size: 0 },
        Some(Held { e, rest }) => {
            let here = n.min(linking::size_at(table, e) - rest);
            let from = linking::offset_at(table, e).saturating_add(rest);
            if views::held_word(table, row, 9) != 2 {
                return Piece { from, size: here };
            }
            if d == 0 {
                return Piece { from: 0, size: 0 };
            }
            piece_at(
                table,
                rows,
                d - 1,
                ItemRow(rows[2304 + e] as usize),
                from,
                here,
            )
        }
    }
}

// How many bytes from a place of the file on lie in a head of so many, or as many as are asked for.
fn filed_run(end: u64, from: u64) -> u64
    ensures { result ≡ leading (λ i. ltb (from + i) end) 16403 }
{
    if end <= from {
        return 0;
    }
    (end - from).min(MOST)
}

// Of a stretch of so many bytes so many lie in the head without a gap, and so many behind it: how many in all, from its first one on.
fn joined_run(here: u64, left: u64, behind: u64) -> u64
    requires { (here ≤ 16403) × (behind < 65536) }
    ensures { result ≡ pick (ltb here left) here (min (left + behind) 16403) }
{
    if here < left {
        return here;
    }
    (left + behind).min(MOST)
}

// What stands for the extent e, nothing behind the last one of an item. What is no row may have any end, so the length is asked too.
fn run_behind(runs: &[u16], e: usize, end: usize) -> u64
    ensures value { result ≡ pick (ltb e end) (get_or runs.now e 0) 0 }
    ensures upper_bound { result < 65536 }
{
    if end <= e {
        return 0;
    }
    if e < runs.len() {
        return runs[e] as u64;
    }
    0
}

// How many bytes of an item from p on lie in a head of `end` bytes without a gap, with d links left, where that is known for each
// extent of the item and of all that it is made of: only the extent that has the first of them is looked into.
#[cycle(run_at_run_in)]
fn run_at(
    end: u64,
    table: &[u32],
    rows: &[u32],
    runs: &[u16; 512],
    d: u32,
    row: ItemRow,
    p: u64,
) -> u64
    requires { (11280 ≤ length table.now) × (2816 ≤ length rows.now) }
    ensures by_index { (m k : ℕ) → Sourced table.now rows.now m → row.0 < m →
        chained d table.now rows.now row.0 ≡ true →
        RunsTo k table.now rows.now end m runs.now → level table.now rows.now row.0 < k →
        result ≡ run_of 8 table.now rows.now end row.0 p }
    ensures upper_bound { result ≤ 16403 }
{
    match holder_of(table, row, p) {
        None => 0,
        Some(Held { e, rest }) => {
            let left = linking::size_at(table, e) - rest;
            let here = run_in(end, table, rows, runs, d, row, e, rest);
            let past = (views::held_word(table, row, 7) as usize)
                + (views::held_word(table, row, 8) as usize);
            joined_run(here, left, run_behind(runs, e + 1, past))
        }
    }
}

// The same of the source of an item's extent e, from the extent's byte `rest` on.
#[cycle(run_at_run_in)]
fn run_in(
    end: u64,
    table: &[u32],
    rows: &[u32],
    runs: &[u16; 512],
    d: u32,
    row: ItemRow,
    e: usize,
    rest: u64,
) -> u64
    requires { (11280 ≤ length table.now) × (2816 ≤ length rows.now) × (e < 512) }
    ensures by_index { (m k j : ℕ) → Sourced table.now rows.now m → row.0 < m →
        chained d table.now rows.now row.0 ≡ true →
        RunsTo k table.now rows.now end m runs.now →
        level table.now rows.now row.0 ≤ k → j < extents table.now row.0 →
        e ≡ first_extent table.now row.0 + j →
        rest ≤ size_at table.now e → result ≡ leading
        (λ i. ltb (source_place 8 table.now rows.now row.0 e
        (offset_at table.now e + (rest + i))) end) 16403 }
    ensures upper_bound { result ≤ 16403 }
{
    let from = linking::offset_at(table, e).saturating_add(rest);
    if views::held_word(table, row, 9) != 2 {
        return filed_run(end, from);
    }
    if d == 0 {
        return 0;
    }
    run_at(
        end,
        table,
        rows,
        runs,
        d - 1,
        ItemRow(rows[2304 + e] as usize),
        from,
    )
}

// The runs of the extents of a row, the last one first, where those of all that it is made of are known.
fn put_row(end: u64, table: &[u32], rows: &[u32], runs: &mut [u16; 512], row: ItemRow)
    requires { (11280 ≤ length table.now) × (2816 ≤ length rows.now) × (length runs.old ≡ 512) }
    ensures by_index { (m : ℕ) → Sourced table.now rows.now m → row.0 < m →
        RunsTo (level table.now rows.now row.0) table.now rows.now end m
        runs.old →
        RunsIn table.now rows.now end row.0 runs.new }
    ensures e_unchanged { row.0 < 256 → (e : ℕ) → ((j : ℕ) → j < extents table.now row.0 → e ≡ first_extent table.now row.0 + j → ⊥) →
        get_or runs.new e 0 ≡ get_or runs.old e 0 }
    ensures runs_len { length runs.new ≡ 512 }
{
    let first = views::held_word(table, row, 7) as usize;
    let past = first + (views::held_word(table, row, 8) as usize);
    if 512 < past {
        return;
    }
    let mut behind: u64 = 0;
    for e in (first..past).rev() {
        let here = run_in(end, table, rows, &*runs, MOST_LINKS, row, e, 0);
        behind = joined_run(here, linking::size_at(table, e), behind);
        runs[e] = behind as u16;
    }
}

// The same of the rows of a level.
fn put_level(
    end: u64,
    table: &[u32],
    rows: &[u32],
    runs: &mut [u16; 512],
    links: &[u8],
    n: usize,
    level: u8,
)
    requires { (11280 ≤ length table.now) × (2816 ≤ length rows.now) × (length runs.old ≡ 512) }
    ensures runs_to { Sourced table.now rows.now n →
        LinksAre table.now rows.now n links.now →
        RunsTo level table.now rows.now end n runs.old →
        RunsTo (level + 1) table.now rows.now end n runs.new }
    ensures runs_len { length runs.new ≡ 512 }
{
    for r in 0..n {
        if linking::level_in(links, ItemRow(r)) == level {
            put_row(end, table, rows, &mut *runs, ItemRow(r));
        }
    }
}

// The runs of all extents, from the bottom up: every extent is looked at once, however many ways lead to it.
pub fn runs_of(end: u64, table: &[u32], rows: &[u32], links: &[u8], n: usize) -> [u16; 512]
    ensures { 11280 ≤ length table.now → 2816 ≤ length rows.now → n ≤ 256 →
        Sourced table.now rows.now n →
        LinksAre table.now rows.now n links.now → RunsAre table.now rows.now end n result }
{
    let mut runs = [0u16; 512];
    if table.len() < Table::WORDS || rows.len() < 2816 {
        return runs;
    }
    for level in 0..9 {
        put_level(end, table, rows, &mut runs, links, n, level);
    }
    runs
}

// Whether the extents from one on, before an end, all lie in a head of so many bytes.
fn all_filed(end: u64, table: &[u32], first: usize, past: usize) -> bool
    requires { (first ≤ past) × (past ≤ 512) × (11280 ≤ length table.now) }
    ensures { result ≡ every (λ j. leb (offset_at table.now (first + j) + size_at table.now (first + j)) end) (past - first) }
{
    for e in first..past {
        let offset = linking::offset_at(table, e);
        if end < offset || end - offset < linking::size_at(table, e) {
            return false;
        }
    }
    true
}

// Whether all bytes of an item lie in a head of so many. It has `size` of them, at most 16,402.
pub fn is_held(end: u64, table: &[u32], runs: &[u16; 512], row: ItemRow, size: u64) -> bool
    ensures { (m : ℕ) (v : List ℕ) → 11280 ≤ length table.now → Sourced table.now v m →
        row.0 < m → size ≡ length_sum table.now row.0 → size ≤ 16402 →
        ((j : ℕ) → j < extents table.now row.0 → 0 < size_at table.now (first_extent table.now row.0 + j)) →
        (made_of_items table.now row.0 ≡ true → RunsAre table.now v end m runs.now) →
        result ≡ every (λ p. ltb (place_of 8 table.now v row.0 p) end) size }
{
    if table.len() < Table::WORDS {
        return false;
    }
    let first = views::held_word(table, row, 7) as usize;
    let past = first + (views::held_word(table, row, 8) as usize);
    if 512 < past {
        return false;
    }
    if views::held_word(table, row, 9) == 2 {
        return size <= run_behind(runs, first, past);
    }
    all_filed(end, table, first, past)
}

// A part of the head to a place of `out`, both long enough.
fn copy_part(head: &[u8], from: usize, n: usize, out: &mut [u8], at: usize)
    requires { (from + n ≤ length head.now) × (at + n ≤ length out.old) }
    ensures { out.new ≡ sets out.old at (take n (drop from head.now)) }
{
    // Byte by byte: std's copy would ask callers in C for `memmove`.
    for i in 0..n {
        out[at + i] = head[from + i];
    }
}

// n bytes of an item from p on, which all lie in the head, to the front of `out`.
pub fn copy_bytes(
    head: &[u8],
    table: &[u32],
    rows: &[u32],
    row: ItemRow,
    p: usize,
    n: usize,
    out: &mut [u8],
)
    requires { p + n < 18446744073709551616 }
    ensures out_len_unchanged { length out.new ≡ length out.old }
    ensures by_index { (m : ℕ) → 11280 ≤ length table.now → 2816 ≤ length rows.now →
        n ≤ length out.old → Sourced table.now rows.now m → row.0 < m →
        p + n ≤ length_sum table.now row.0 → ((i : ℕ) → i < n →
        place_of 8 table.now rows.now row.0 (p + i) < length head.now) →
        out.new ≡ sets out.old 0 (bytes_of table.now rows.now head.now row.0 p n) }
{
    if table.len() < Table::WORDS || rows.len() < 2816 || out.len() < n {
        return;
    }
    let mut done: usize = 0;
    // A while: each turn goes on by as many bytes as lie in one piece.
    while done < n {
        let q = piece_at(
            table,
            rows,
            MOST_LINKS,
            row,
            (p + done) as u64,
            (n - done) as u64,
        );
        let size = q.size as usize;
        let from = q.from;
        if size == 0 || head.len() as u64 <= from || head.len() as u64 - from < q.size {
            return;
        }
        copy_part(head, from as usize, size, &mut *out, done);
        done += size;
    }
}
