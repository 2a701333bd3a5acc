// Reading: from any bytes to the first fault of 1 to 11 or the file's table.
#![tactic(auto)]

ghost use Rattle.std.specs.Prelude.{◌≡◌, List, [], ◌++◌, ℕ, ◌+◌, ◌/◌, ◌%◌, ◌≤◌, ◌<◌, length, drop, replicate, set, OnOk};
ghost use Rattle.fields.specs.Lists.{All};
ghost use Rattle.boxes.specs.Answer.{ok};
ghost use Rattle.boxes.specs.Box.{IsBox};
ghost use Rattle.contents.specs.Iinf.{Item};
ghost use Rattle.contents.specs.Iloc.{Location, extents_in};
ghost use Rattle.contents.specs.File.{File, contents_of, file_of, read_file};
ghost use Rattle.rules.specs.Places.{places_at};
ghost use Rattle.records.specs.inner.Stage.{Kept, with_items, with_locations};
ghost use Rattle.records.specs.inner.Keys.{order_of, order_put, Keyed};
ghost use Rattle.records.specs.inner.Rows.{TargetsRowed, Rowed};
ghost use Rattle.records.specs.inner.Named.{NamedRows, NamedIn};
ghost use Rattle.reading.specs.inner.Parts.{
  kids,
  Standing,
  Before,
  LastBefore,
  After,
  ReadLeft,
  NamedOf,
  shown_of,
  from_handler,
  from_items,
  from_locations,
  from_shown,
  from_references,
  told_spot,
  spots_in,
  Missing,
  read_answer,
  read_words,
};

use boxes::{Refusal, Spot};
use table::{ItemId, Table};

// Where the content of `idat` begins and ends in the head, both 0 where there is none.
#[derive(Clone, Copy)]
pub struct Idat {
    pub idat: usize,
    pub idat_end: usize,
}

// How many of each there are.
#[derive(Drop)]
pub struct Counts {
    pub items: usize,
    pub properties: usize,
    pub associations: usize,
    pub targets: usize,
    pub extents: usize,
}

// The table's first words.
fn put_head(table: &mut [u32], total: u64, primary: ItemId, c: Counts)
    requires { (11280 ≤ length table.old) × (c.items ≤ 256) × (c.properties ≤ 256) × (c.associations ≤ 2048) ×
        (c.targets ≤ 2048) × (c.extents ≤ 512) }
    ensures { table.new ≡ set (set (set
        (set (set (set (set (set table.old 0 c.items) 1 c.properties) 2 c.associations) 3
        c.targets) 4 c.extents) 5 primary.0) 6 (total / 4294967296)) 7 (total % 4294967296) }
{
    table[0] = c.items as u32;
    table[1] = c.properties as u32;
    table[2] = c.associations as u32;
    table[3] = c.targets as u32;
    table[4] = c.extents as u32;
    table[5] = primary.0;
    table[6] = (total / 4294967296) as u32;
    table[7] = (total % 4294967296) as u32;
}

// Where the content of `idat` stands in the head.
fn found_idat(spots: [Spot; 7], at: usize) -> Idat
    requires { (s : List ℕ) × Standing s spots × (at + length s ≤ 65536) }
    ensures { (s : List ℕ) → Standing s spots → result ≡ told_spot at s }
{
    let d = spots[6];
    if d.end == 0 {
        return Idat {
            idat: 0,
            idat_end: 0,
        };
    }
    Idat {
        idat: at + d.body,
        idat_end: at + d.end,
    }
}

// `iref`, and then all is read.
fn read_last(
    s: &[u8],
    at: usize,
    spots: [Spot; 7],
    table: &mut [u32],
    rows: &mut [u32],
    total: u64,
    primary: ItemId,
    c: Counts,
    keys: &[u64; 512],
) -> Result<Idat, Refusal>
    requires { (Standing s.now spots) × (at + length s.now ≤ 65536) × (11280 ≤ length table.old) ×
        (2816 ≤ length rows.old) × ((f : File) × (x : List ℕ) × LastBefore s.now at c f x table.old) }
    ensures after { (f : File) (x : List ℕ) → LastBefore s.now at c f x table.old →
        After s.now at total (from_references at (kids s.now) primary.0 f.items
        f.locations (shown_of f)) result x table.new }
    ensures kept { Kept table.old table.new }
    ensures by_index { OnOk result (TargetsRowed table.new rows.new) }
    ensures named_of { (f : File) (x : List ℕ) → LastBefore s.now at c f x table.old →
        NamedRows f.items f.locations [] rows.old →
        NamedOf (from_references at (kids s.now) primary.0 f.items f.locations (shown_of f))
        rows.new }
{
    let r = spots[5];
    if r.end == 0 {
        put_head(table, total, primary, c);
        return Ok(found_idat(spots, at));
    }
    let n = c.items;
    let place = (at + r.start) as u64;
    let base = (at + r.body) as u64;
    let targets = references::read_references(
        &s[r.body..r.end],
        place,
        base,
        table,
        rows,
        n,
        keys,
    )?;
    put_head(table, total, primary, Counts { targets, ..c });
    Ok(found_idat(spots, at))
}

// `iprp`, then the rest.
fn read_iprp(
    s: &[u8],
    at: usize,
    spots: [Spot; 7],
    table: &mut [u32],
    rows: &mut [u32],
    total: u64,
    primary: ItemId,
    n: usize,
    keys: &[u64; 512],
    extents: usize,
) -> Result<Idat, Refusal>
    requires { (Standing s.now spots) × (at + length s.now ≤ 65536) × (11280 ≤ length table.old) ×
        (2816 ≤ length rows.old) × ((is : List Item) × (ls : List Location) × (x : List ℕ) ×
        Before s.now at n (with_locations (with_items is) ls) x table.old × (extents_in ls ≡ extents)) }
    ensures after { (is : List Item) (ls : List Location) (x : List ℕ) →
        Before s.now at n (with_locations (with_items is) ls) x table.old → extents_in ls ≡ extents →
        After s.now at total (from_shown at (kids s.now) primary.0 is ls) result x
        table.new }
    ensures kept { Kept table.old table.new }
    ensures by_index { OnOk result (TargetsRowed table.new rows.new) }
    ensures named_of { (is : List Item) (ls : List Location) (x : List ℕ) →
        Before s.now at n (with_locations (with_items is) ls) x table.old → extents_in ls ≡ extents →
        NamedRows is ls [] rows.old →
        NamedOf (from_shown at (kids s.now) primary.0 is ls) rows.new }
{
    let p = spots[4];
    let place = (at + p.start) as u64;
    let base = (at + p.body) as u64;
    let shown = properties::read_iprp_content(&s[p.body..p.end], place, base, table, n, keys)?;
    let c = Counts {
        items: n,
        properties: shown.properties,
        associations: shown.associations,
        targets: 0,
        extents,
    };
    read_last(s, at, spots, table, rows, total, primary, c, keys)
}

// Where the content of `idat` begins in the head, 0 where there is none.
fn idat_at(spots: [Spot; 7], at: usize) -> u64
    requires { (s : List ℕ) × Standing s spots × (at + length s ≤ 65536) }
    ensures { (s : List ℕ) → Standing s spots → result ≡ (places_at at (kids s)).idat }
{
    let d = spots[6];
    if d.end == 0 {
        return 0;
    }
    (at + d.body) as u64
}

// `iloc`, then the rest.
fn read_iloc(
    s: &[u8],
    at: usize,
    spots: [Spot; 7],
    table: &mut [u32],
    rows: &mut [u32],
    total: u64,
    primary: ItemId,
    n: usize,
    keys: &[u64; 512],
) -> Result<Idat, Refusal>
    requires { (Standing s.now spots) × (at + length s.now ≤ 65536) × (11280 ≤ length table.old) ×
        (2816 ≤ length rows.old) × ((is : List Item) × (x : List ℕ) ×
        Before s.now at n (with_items is) x table.old) }
    ensures after { (is : List Item) (x : List ℕ) →
        Before s.now at n (with_items is) x table.old →
        After s.now at total (from_locations at (kids s.now) primary.0 is) result x
        table.new }
    ensures kept { Kept table.old table.new }
    ensures by_index { OnOk result (TargetsRowed table.new rows.new) }
    ensures named_of { (is : List Item) (x : List ℕ) →
        Before s.now at n (with_items is) x table.old →
        NamedOf (from_locations at (kids s.now) primary.0 is) rows.new }
{
    let l = spots[3];
    let idat = idat_at(spots, at);
    let place = (at + l.start) as u64;
    let extents = locations::read_locations(
        &s[l.body..l.end],
        place,
        table,
        &mut *rows,
        n,
        keys,
        idat,
    )?;
    read_iprp(s, at, spots, table, rows, total, primary, n, keys, extents)
}

// The rows of the n items in rising ID order, behind the rows of the targets.
fn put_order(keys: &[u64; 512], n: usize, rows: &mut [u32])
    requires { (2304 ≤ length rows.old) × ((ids : List ℕ) × (length ids ≡ n) × (n ≤ 256) × Keyed ids keys.now) }
    ensures { (ids : List ℕ) → length ids ≡ n → Keyed ids keys.now →
        rows.new ≡ order_put (order_of ids) rows.old }
{
    let first = records::first_key(keys);
    for k in 0..n {
        rows[2048 + k] = (keys[first + k] % 256) as u32;
    }
}

// `iinf`, then the rest.
fn read_iinf(
    s: &[u8],
    at: usize,
    spots: [Spot; 7],
    table: &mut [u32],
    rows: &mut [u32],
    total: u64,
    primary: ItemId,
) -> Result<Idat, Refusal>
    requires { (Standing s.now spots) × (at + length s.now ≤ 65536) × (11280 ≤ length table.old) ×
        (2816 ≤ length rows.old) × ((x : List ℕ) × (table.old ≡ replicate 11280 0 ++ x)) }
    ensures by_index { (x : List ℕ) → table.old ≡ replicate 11280 0 ++ x →
        After s.now at total (from_items at (kids s.now) primary.0) result x table.new }
    ensures kept { Kept table.old table.new }
    ensures by_index_2 { OnOk result (Rowed table.new rows.new) }
    ensures named_of { NamedOf (from_items at (kids s.now) primary.0) rows.new }
{
    let i = spots[2];
    let place = (at + i.start) as u64;
    let base = (at + i.body) as u64;
    // Where rows are looked for by their IDs from here on.
    let mut keys = [0u64; 512];
    let n = items::read_items(&s[i.body..i.end], place, base, table, &mut keys)?;
    let r = read_iloc(s, at, spots, table, &mut *rows, total, primary, n, &keys);
    put_order(&keys, n, rows);
    r
}

// `hdlr` and `pitm`, then the rest.
fn read_contents(
    s: &[u8],
    at: usize,
    spots: [Spot; 7],
    table: &mut [u32],
    rows: &mut [u32],
    total: u64,
) -> Result<Idat, Refusal>
    requires { (Standing s.now spots) × (at + length s.now ≤ 65536) × (11280 ≤ length table.old) ×
        (2816 ≤ length rows.old) × ((x : List ℕ) × (table.old ≡ replicate 11280 0 ++ x)) }
    ensures by_index { (x : List ℕ) → table.old ≡ replicate 11280 0 ++ x →
        After s.now at total (from_handler at (kids s.now)) result x table.new }
    ensures kept { Kept table.old table.new }
    ensures by_index_2 { OnOk result (Rowed table.new rows.new) }
    ensures named_of { NamedOf (from_handler at (kids s.now)) rows.new }
{
    let h = spots[0];
    contents::read_hdlr(&s[h.body..h.end], (at + h.start) as u64)?;
    let p = spots[1];
    let primary = contents::read_pitm(&s[p.body..p.end], (at + p.start) as u64)?;
    read_iinf(s, at, spots, table, rows, total, primary)
}

// Whether one of the five children that must be there is missing.
fn is_missing(spots: [Spot; 7]) -> bool
    ensures { (bs : List (List ℕ)) → All IsBox bs → spots ≡ spots_in bs → Missing bs result }
{
    spots[..5].iter().any(|p| p.end == 0)
}

// The children of the `meta` at a place, the first at `at`.
fn read_children(
    s: &[u8],
    place: usize,
    at: usize,
    table: &mut [u32],
    rows: &mut [u32],
    total: u64,
) -> Result<Idat, Refusal>
    requires { (at + length s.now ≤ 65536) × (11280 ≤ length table.old) × (2816 ≤ length rows.old) ×
        ((x : List ℕ) × (table.old ≡ replicate 11280 0 ++ x)) }
    ensures by_index { (x : List ℕ) → table.old ≡ replicate 11280 0 ++ x →
        After s.now at total (contents_of place at s.now) result x table.new }
    ensures kept { Kept table.old table.new }
    ensures by_index_2 { OnOk result (Rowed table.new rows.new) }
    ensures named_of { NamedOf (contents_of place at s.now) rows.new }
{
    let spots = boxes::walk_children(s, place, at)?;
    if is_missing(spots) {
        return Err(Refusal {
            number: 7,
            place: place as u64,
        });
    }
    read_contents(s, at, spots, table, rows, total)
}

// The content s of the `meta` at a place, beginning at `at`.
fn read_meta(
    s: &[u8],
    place: usize,
    at: usize,
    table: &mut [u32],
    rows: &mut [u32],
    total: u64,
) -> Result<Idat, Refusal>
    requires { (at + length s.now ≤ 65536) × (11280 ≤ length table.old) × (2816 ≤ length rows.old) ×
        ((x : List ℕ) × (table.old ≡ replicate 11280 0 ++ x)) }
    ensures by_index { (x : List ℕ) → table.old ≡ replicate 11280 0 ++ x →
        After (drop 4 s.now) (at + 4) total (file_of place at s.now) result x table.new }
    ensures kept { Kept table.old table.new }
    ensures by_index_2 { OnOk result (Rowed table.new rows.new) }
    ensures named_of { NamedOf (file_of place at s.now) rows.new }
{
    contents::read_full(s, 0, 0, place as u64)?;
    read_children(&s[4..], place, at + 4, table, rows, total)
}

// The file into a table that is all 0.
fn read_head(head: &[u8], total: u64, table: &mut [u32], rows: &mut [u32]) -> Result<Idat, Refusal>
    requires { (length head.now ≤ 65536) × (length head.now ≤ total) × (11280 ≤ length table.old) ×
        (2816 ≤ length rows.old) × ((x : List ℕ) × (table.old ≡ replicate 11280 0 ++ x)) }
    ensures by_index { (x : List ℕ) → table.old ≡ replicate 11280 0 ++ x → ReadLeft total head.now result x table.new }
    ensures kept { Kept table.old table.new }
    ensures by_index_2 { OnOk result (Rowed table.new rows.new) }
    ensures named_of { NamedOf (read_file total head.now) rows.new }
{
    let m = boxes::find_meta(head, total)?;
    read_meta(&head[m.body..m.end], m.start, m.body, table, rows, total)
}

// The whole reading. Refusal 1 writes nothing, the others leave the first 11,280 words 0. Where the file is read,
// `rows` has for each target the row that it names, from 2,048 on the rows in rising ID order, and from 2,304 on for each
// extent of a method 2 item the row that it names, or more than 255; elsewhere nothing is said of it.
pub fn read_file(
    head: &[u8],
    total: u64,
    table: &mut [u32],
    rows: &mut [u32],
) -> Result<Idat, Refusal>
    requires { 2816 ≤ length rows.old }
    ensures value { result ≡ read_answer (length table.old) total head.now }
    ensures table_after { table.new ≡ read_words total head.now table.old }
    ensures by_index { OnOk result (Rowed table.new rows.new) }
    ensures named_in { (f : File) → 11280 ≤ length table.old → read_file total head.now ≡ ok f →
        NamedIn f rows.new }
{
    if table.len() < Table::WORDS {
        return Err(Refusal {
            number: 1,
            place: 0,
        });
    }
    table::clear(table);
    if 65536 < head.len() {
        return Err(Refusal {
            number: 2,
            place: 0,
        });
    }
    if total < head.len() as u64 {
        return Err(Refusal {
            number: 2,
            place: 0,
        });
    }
    let r = read_head(head, total, table, rows);
    if r.is_err() {
        table::clear(table);
    }
    r
}
