// `iref`: what items are derived from, into targets and records, and what their bytes are made of, into rows.
#![tactic(auto)]

ghost use Rattle.std.specs.Prelude.{◌≡◌, true, false, Ok, List, [], ◌∷◌, ◌++◌, ◌⊎◌, ℕ, ◌+◌, ◌*◌, ◌≤◌, ◌<◌, length, get_or, drop, replicate};
ghost use Rattle.std.proofs.lemmas.List.Edits.{sets};
ghost use Rattle.fields.specs.Choice.{pick};
ghost use Rattle.fields.specs.Field.{be_at};
ghost use Rattle.fields.specs.Lists.{member};
ghost use Rattle.boxes.specs.Answer.{ok};
ghost use Rattle.boxes.specs.Told.{told};
ghost use Rattle.boxes.specs.Types.{dimg, iloc};
ghost use Rattle.boxes.specs.Children.{contain};
ghost use Rattle.contents.specs.Iinf.{ids_of};
ghost use Rattle.contents.specs.Iref.{
  IrefContent,
  no_references,
  referring_in,
  referring_by,
  targets_in,
  reference,
  references,
};
ghost use Rattle.contents.specs.File.{File};
ghost use Rattle.rules.specs.Places.{Places};
ghost use Rattle.records.specs.inner.Raw.{raw_of};
ghost use Rattle.records.specs.inner.Rows.{id_at, ids_in, Distinct, RowedTo};
ghost use Rattle.records.specs.inner.Named.{NamedRows};
ghost use Rattle.records.specs.inner.Stage.{Kept, Ready};
ghost use Rattle.references.specs.inner.Steps.{
  targets_from,
  no_value,
  TargetsLeft,
  purpose_of,
  Marked,
  MarkedLinks,
  second_by,
  PickedBy,
  NamedFrom,
  NamesPut,
  Put,
  ChildrenLeft,
};
ghost use Rattle.references.specs.inner.Told.{target_count, ReferencesLeft};

use boxes::types::{DIMG, ILOC};
use boxes::{Child, Refusal};
use table::{ItemId, ItemRow, Table};

// What a reference is read for: what an item is derived from, what its bytes are made of, or only that it is well formed.
#[derive(Clone, Copy)]
pub enum Purpose {
    Derives,
    Places,
    Other,
}

// Target j of a reference and the row that it names, which are kept behind the `used` targets before it, or not at all.
#[tactic(auto, unfolding(fields::specs::Choice::pick))]
fn put_target(
    table: &mut [u32],
    rows: &mut [u32],
    keep: bool,
    used: usize,
    j: usize,
    id: u32,
    row: ItemRow,
)
    requires { (11280 ≤ length table.old) × (2048 ≤ length rows.old) × (keep ≡ true → used + j < 2048) × (row.0 < 256) }
    ensures table_after { table.new ≡ sets table.old (7184 + used + j) (pick keep (id ∷ []) []) }
    ensures rows_after { rows.new ≡ sets rows.old (used + j) (pick keep (row.0 ∷ []) []) }
{
    if keep {
        table[Table::TARGETS + used + j] = id;
        rows[used + j] = row.0 as u32;
    }
}

// k targets of w bytes each from a place on: each must be listed. Those of a `dimg` become the targets from a number on.
fn put_targets(
    s: &[u8],
    from: usize,
    w: usize,
    k: usize,
    place: u64,
    table: &mut [u32],
    rows: &mut [u32],
    n: usize,
    keys: &[u64; 512],
    keep: bool,
    used: usize,
) -> Result<(), Refusal>
    requires { (11280 ≤ length table.old) × (2048 ≤ length rows.old) × (n ≤ 256) × (from ≤ length s.now) ×
        ((w ≡ 2) ⊎ (w ≡ 4)) × (used ≤ 2048) × (keep ≡ true → used + k ≤ 2048) }
    ensures value { result ≡ told no_value (targets_from (ids_in table.old n) w k place s.now from) }
    ensures targets_left { TargetsLeft (targets_from (ids_in table.old n) w k place s.now from) k keep
        used table.old table.new }
    ensures rows_unchanged { (keep ≡ false → rows.new ≡ rows.old) ×
        (keep ≡ true → result ≡ Ok tt → RowedTo n used table.old rows.old →
        RowedTo n (used + k) table.new rows.new) ×
        ((i : ℕ) → 2048 ≤ i → get_or rows.new i 0 ≡ get_or rows.old i 0) }
{
    let mut at = from;
    let mut hope: usize = 0;
    for j in 0..k {
        if s.len() - at < w {
            return Err(Refusal { number: 8, place });
        }
        let id = fields::be_id(s, at, w);
        let Some(row) = records::row_of(&*table, n, ItemId(id), ItemRow(hope), keys) else {
            return Err(Refusal { number: 11, place });
        };
        put_target(table, rows, keep, used, j, id, row);
        hope = row.0 + 1;
        at += w;
    }
    if at < s.len() {
        return Err(Refusal { number: 8, place });
    }
    Ok(())
}

fn put_span(table: &mut [u32], row: ItemRow, used: usize, k: usize)
    requires { (11280 ≤ length table.old) × (row.0 < 256) × (used ≤ 2048) × (k ≤ 2048) }
    ensures { table.new ≡ sets table.old (16 + 16 * row.0 + 5) (used ∷ k ∷ []) }
{
    let a = Table::item(row);
    table[a + 5] = used as u32;
    table[a + 6] = k as u32;
}

// Whether a row has a reference of this kind already. Only a `dimg` has targets; that there was an `iloc` is marked.
#[tactic(auto, unfolding(crate::specs::inner::Steps::second_by))]
fn is_second(table: &[u32], rows: &[u32], purpose: Purpose, row: ItemRow) -> bool
    requires { (11280 ≤ length table.now) × (2816 ≤ length rows.now) × (row.0 < 256) }
    ensures { result ≡ second_by purpose table.now rows.now row.0 }
{
    match purpose {
        Purpose::Derives => table[Table::item(row) + 6] != 0,
        Purpose::Places => rows[2048 + row.0] != 0,
        Purpose::Other => false,
    }
}

// A reference at a place, its IDs being w bytes wide. `used` targets are there before it.
fn put_reference(
    s: &[u8],
    purpose: Purpose,
    w: usize,
    place: u64,
    table: &mut [u32],
    rows: &mut [u32],
    n: usize,
    keys: &[u64; 512],
    used: usize,
) -> Result<usize, Refusal>
    requires { (11280 ≤ length table.old) × (2816 ≤ length rows.old) × (n ≤ 256) × ((w ≡ 2) ⊎ (w ≡ 4)) × (used ≤ 2048) }
    ensures kept { Kept table.old table.new }
    ensures by_index { (kind : ℕ) (before : IrefContent) → purpose ≡ purpose_of kind → used ≡ targets_in before.derivations →
        Marked table.old n before.derivations → MarkedLinks table.old n before.links rows.old →
        Put w kind place s.now n used before table.old table.new rows.old rows.new result }
    ensures by_index_2 { (m : ℕ) → result ≡ Ok m → RowedTo n used table.old rows.old →
        RowedTo n m table.new rows.new }
{
    if s.len() < w {
        return Err(Refusal { number: 8, place });
    }
    match records::row_away(&*table, n, ItemId(fields::be_id(s, 0, w)), keys) {
        None => Err(Refusal { number: 11, place }),
        Some(row) => {
            if is_second(&*table, &*rows, purpose, row) {
                return Err(Refusal { number: 10, place });
            }
            put_counted(s, purpose, w, place, table, rows, n, keys, row, used)
        }
    }
}

// A reference behind its source, which has a row.
fn put_counted(
    s: &[u8],
    purpose: Purpose,
    w: usize,
    place: u64,
    table: &mut [u32],
    rows: &mut [u32],
    n: usize,
    keys: &[u64; 512],
    row: ItemRow,
    used: usize,
) -> Result<usize, Refusal>
    requires in_bounds { (11280 ≤ length table.old) × (2816 ≤ length rows.old) × (n ≤ 256) × ((w ≡ 2) ⊎ (w ≡ 4)) × (used ≤ 2048) }
    requires w_in_bounds { (w ≤ length s.now) × (row.0 < n) × (id_at table.old row.0 ≡ be_at s.now 0 w) }
    ensures kept { Kept table.old table.new }
    ensures by_index { (kind : ℕ) (before : IrefContent) → purpose ≡ purpose_of kind → used ≡ targets_in before.derivations →
        member (be_at s.now 0 w) (referring_by kind before) ≡ false →
        Put w kind place s.now n used before table.old table.new rows.old rows.new result }
    ensures by_index_2 { (m : ℕ) → result ≡ Ok m → RowedTo n used table.old rows.old →
        RowedTo n m table.new rows.new }
{
    if s.len() < w + 2 {
        return Err(Refusal { number: 8, place });
    }
    let k = fields::be16(s, w) as usize;
    match purpose {
        Purpose::Derives => put_derivation(s, w, k, place, table, rows, n, keys, row, used),
        Purpose::Places => put_places(s, w, k, place, table, rows, n, keys, row, used),
        Purpose::Other => {
            put_targets(s, w + 2, w, k, place, table, rows, n, keys, false, used)?;
            Ok(used)
        }
    }
}

// The row of the target that an extent's mark picks from the k of a reference, all listed: 256 where there is none.
fn picked_row(
    s: &[u8],
    w: usize,
    k: usize,
    mark: u32,
    table: &[u32],
    n: usize,
    hope: ItemRow,
    keys: &[u64; 512],
) -> u32
    requires in_bounds { (11280 ≤ length table.now) × (n ≤ 256) × ((w ≡ 2) ⊎ (w ≡ 4)) × (k < 65536) × (w + 2 + w * k ≤ length s.now) }
    requires by_index { (j : ℕ) → j < k → member (be_at s.now (w + 2 + w * j) w) (ids_in table.now n) ≡ true }
    ensures { (result ≤ 256) × PickedBy table.now n k (λ j. be_at s.now (w + 2 + w * j) w) mark result }
{
    if mark < 258 {
        return 256;
    }
    let j = (mark - 258) as usize;
    if k <= j {
        return 256;
    }
    let id = fields::be_id(s, w + 2 + w * j, w);
    match records::row_of(table, n, ItemId(id), hope, keys) {
        None => 256,
        Some(row) => row.0 as u32,
    }
}

// For each of the extents of a row, `first` and those behind it, the row that it names by a reference with k targets. Many
// name one and the same: the row of the last one is looked at first.
fn put_named(
    s: &[u8],
    w: usize,
    k: usize,
    table: &[u32],
    rows: &mut [u32],
    n: usize,
    keys: &[u64; 512],
    first: usize,
    count: usize,
)
    requires in_bounds { (11280 ≤ length table.now) × (n ≤ 256) × ((w ≡ 2) ⊎ (w ≡ 4)) × (k < 65536) × (w + 2 + w * k ≤ length s.now) }
    requires by_index { (j : ℕ) → j < k → member (be_at s.now (w + 2 + w * j) w) (ids_in table.now n) ≡ true }
    requires in_bounds_2 { (2816 ≤ length rows.old) × (first + count ≤ 512) }
    ensures { NamedFrom table.now n k (λ j. be_at s.now (w + 2 + w * j) w) first count
        rows.old rows.new }
{
    let mut hope: u32 = 0;
    for j in 0..count {
        let at = 2304 + first + j;
        let x = picked_row(s, w, k, rows[at], table, n, ItemRow(hope as usize), keys);
        rows[at] = x;
        hope = x;
    }
}

// The same for the extents of the item in a row, if it is made of other items.
fn put_names(
    s: &[u8],
    w: usize,
    k: usize,
    table: &[u32],
    rows: &mut [u32],
    n: usize,
    keys: &[u64; 512],
    row: ItemRow,
)
    requires in_bounds { (11280 ≤ length table.now) × (n ≤ 256) × ((w ≡ 2) ⊎ (w ≡ 4)) × (k < 65536) × (w + 2 + w * k ≤ length s.now) }
    requires by_index { (j : ℕ) → j < k → member (be_at s.now (w + 2 + w * j) w) (ids_in table.now n) ≡ true }
    requires in_bounds_2 { (2816 ≤ length rows.old) × (row.0 < n) }
    ensures { NamesPut table.now n k (λ j. be_at s.now (w + 2 + w * j) w) row.0
        rows.old rows.new }
{
    let a = Table::item(row);
    if table[a + 9] != 2 {
        return;
    }
    let first = table[a + 7] as usize;
    let count = table[a + 8] as usize;
    if 512 < first + count {
        return;
    }
    put_named(s, w, k, table, rows, n, keys, first, count);
}

// An `iloc` with k targets: that it was there is marked, and the extents of its item get the rows that they name.
fn put_places(
    s: &[u8],
    w: usize,
    k: usize,
    place: u64,
    table: &mut [u32],
    rows: &mut [u32],
    n: usize,
    keys: &[u64; 512],
    row: ItemRow,
    used: usize,
) -> Result<usize, Refusal>
    requires in_bounds { (11280 ≤ length table.old) × (2816 ≤ length rows.old) × (n ≤ 256) × ((w ≡ 2) ⊎ (w ≡ 4)) × (used ≤ 2048) }
    requires w_in_bounds { (w + 2 ≤ length s.now) × (row.0 < n) × (id_at table.old row.0 ≡ be_at s.now 0 w) × (k ≡ be_at s.now w 2) × (k < 65536) }
    ensures kept { Kept table.old table.new }
    ensures put { (before : IrefContent) → used ≡ targets_in before.derivations →
        member (be_at s.now 0 w) (referring_in before.links) ≡ false →
        Put w iloc place s.now n used before table.old table.new rows.old rows.new result }
    ensures by_index { (m : ℕ) → result ≡ Ok m → RowedTo n used table.old rows.old →
        RowedTo n m table.new rows.new }
{
    put_targets(
        s,
        w + 2,
        w,
        k,
        place,
        &mut *table,
        &mut *rows,
        n,
        keys,
        false,
        used,
    )?;
    rows[2048 + row.0] = 1;
    put_names(s, w, k, &*table, rows, n, keys, row);
    Ok(used)
}

// A `dimg` with k targets.
fn put_derivation(
    s: &[u8],
    w: usize,
    k: usize,
    place: u64,
    table: &mut [u32],
    rows: &mut [u32],
    n: usize,
    keys: &[u64; 512],
    row: ItemRow,
    used: usize,
) -> Result<usize, Refusal>
    requires in_bounds { (11280 ≤ length table.old) × (2816 ≤ length rows.old) × (n ≤ 256) × ((w ≡ 2) ⊎ (w ≡ 4)) × (used ≤ 2048) }
    requires w_in_bounds { (w + 2 ≤ length s.now) × (row.0 < n) × (id_at table.old row.0 ≡ be_at s.now 0 w) × (k ≡ be_at s.now w 2) × (k < 65536) }
    ensures kept { Kept table.old table.new }
    ensures put { (before : IrefContent) → used ≡ targets_in before.derivations →
        member (be_at s.now 0 w) (referring_in before.derivations) ≡ false →
        Put w dimg place s.now n used before table.old table.new rows.old rows.new result }
    ensures by_index { (m : ℕ) → result ≡ Ok m → RowedTo n used table.old rows.old →
        RowedTo n m table.new rows.new }
{
    if k == 0 {
        return Err(Refusal { number: 10, place });
    }
    if 2048 < used + k {
        return Err(Refusal { number: 9, place });
    }
    put_targets(s, w + 2, w, k, place, table, rows, n, keys, true, used)?;
    put_span(table, row, used, k);
    Ok(used + k)
}

fn purpose_of(kind: u32) -> Purpose
    ensures { result ≡ purpose_of kind }
{
    match kind {
        DIMG => Purpose::Derives,
        ILOC => Purpose::Places,
        _ => Purpose::Other,
    }
}

// The references of an `iref` at a place from behind its version on, its content s beginning at `base`, into a table with n items.
fn put_references(
    s: &[u8],
    w: usize,
    place: u64,
    base: u64,
    table: &mut [u32],
    rows: &mut [u32],
    n: usize,
    keys: &[u64; 512],
) -> Result<usize, Refusal>
    requires in_bounds { (11280 ≤ length table.old) × (2816 ≤ length rows.old) × (n ≤ 256) ×
        (base + length s.now < 18446744073709551616) × (4 ≤ length s.now) × ((w ≡ 2) ⊎ (w ≡ 4)) }
    requires distinct { Distinct (ids_in table.old n) × ((k : ℕ) → k < n → get_or table.old (16 + 16 * k + 6) 0 ≡ 0) ×
        ((k : ℕ) → k < n → get_or rows.old (2048 + k) 0 ≡ 0) }
    ensures value { result ≡ told target_count (contain (reference (ids_in table.old n) w) place (base + 4) no_references (drop 4 s.now)) }
    ensures children_left { ChildrenLeft (contain (reference (ids_in table.old n) w) place (base + 4) no_references
        (drop 4 s.now)) n table.old table.new rows.old rows.new }
    ensures by_index { (m : ℕ) → result ≡ Ok m → RowedTo n m table.new rows.new }
{
    let mut at: usize = 4;
    let mut used: usize = 0;
    // A loop: each turn goes on to the reference behind.
    loop {
        let c = boxes::child_at(s, at);
        let here = base + (at as u64);
        match c {
            Child::Whole { kind, body, end } => {
                used = put_reference(
                    &s[body..end],
                    purpose_of(kind),
                    w,
                    here,
                    table,
                    rows,
                    n,
                    keys,
                    used,
                )?;
                at = end;
            }
            Child::Bad => return Err(Refusal {
                number: 3,
                place: here,
            }),
            Child::Spare => return Err(Refusal { number: 3, place }),
            Child::End => return Ok(used),
        }
    }
}

// No item has an `iloc` reference yet. Where this is marked the rows in ID order will stand.
fn clear_marks(rows: &mut [u32])
    requires { 2816 ≤ length rows.old }
    ensures { rows.new ≡ sets rows.old 2048 (replicate 256 0) }
{
    rows[2048..2304].fill(0);
}

// The references of the `iref` at a place, its content s beginning at `base`, into a table with n items. `rows` has from 2,304 on what
// stands for the index of each extent of a method 2 item (locations::index_mark), and then the row that it names, or more than 255.
pub fn read_references(
    s: &[u8],
    place: u64,
    base: u64,
    table: &mut [u32],
    rows: &mut [u32],
    n: usize,
    keys: &[u64; 512],
) -> Result<usize, Refusal>
    requires in_bounds { (11280 ≤ length table.old) × (2816 ≤ length rows.old) × (n ≤ 256) × (base + length s.now < 18446744073709551616) }
    requires distinct { Distinct (ids_in table.old n) × ((k : ℕ) → k < n → get_or table.old (16 + 16 * k + 6) 0 ≡ 0) }
    ensures value { result ≡ told target_count (references (ids_in table.old n) place base s.now) }
    ensures references_left { ReferencesLeft s.now place base n table.old table.new }
    ensures by_index { (m : ℕ) → result ≡ Ok m → RowedTo n m table.new rows.new }
    ensures rows_len_unchanged { length rows.new ≡ length rows.old }
    ensures named_rows { (pl : Places) (f : File) (x : List ℕ) (c : IrefContent) → Ready f n → f.derivations ≡ [] → f.links ≡ [] →
        references (ids_of f.items) place base s.now ≡ ok c → table.old ≡ raw_of [] pl f ++ x →
        NamedRows f.items f.locations [] rows.old →
        NamedRows f.items f.locations c.links rows.new }
{
    let h = contents::read_full(s, 0, 1, place)?;
    clear_marks(&mut *rows);
    if h.version == 0 {
        return put_references(s, 2, place, base, table, rows, n, keys);
    }
    put_references(s, 4, place, base, table, rows, n, keys)
}
