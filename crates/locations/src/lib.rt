// `iloc`: where the bytes of the items lie, into extents and records.
#![tactic(auto)]

ghost use Rattle.std.specs.Prelude.{◌≡◌, List, [], ◌++◌, map, ◌&&◌, ◌⊎◌, ◌+◌, ◌*◌, ◌%◌, ◌≤◌, ◌<◌, length, drop, eqb};
ghost use Rattle.std.proofs.lemmas.List.Edits.{sets};
ghost use Rattle.fields.specs.Choice.{pick};
ghost use Rattle.fields.specs.Field.{be_at};
ghost use Rattle.boxes.specs.Answer.{ok};
ghost use Rattle.boxes.specs.Told.{told};
ghost use Rattle.forms.specs.Form.{many, whole};
ghost use Rattle.contents.specs.Iinf.{Item};
ghost use Rattle.contents.specs.Iloc.{Extent, Location, extents_in, field_size, index_of, iloc_form};
ghost use Rattle.rules.specs.Words.{join_all, high_low};
ghost use Rattle.records.specs.inner.Raw.{capped};
ghost use Rattle.records.specs.inner.Rows.{ids_in};
ghost use Rattle.records.specs.inner.Named.{mark_of, NamedRows};
ghost use Rattle.locations.specs.inner.Told.{Unplaced, LocationsLeft};
ghost use Rattle.locations.specs.inner.Parts.{
  widths_by,
  GoodWidths,
  sizes_form,
  count_form,
  SizesAre,
  entry_by,
  each,
  extents_by,
  row_from,
  start_of,
  place_row,
  RowAre,
  RestAre,
  EntryAre,
  StoredAre,
  MarkedAre,
  PutAre,
  EntriesLeft,
};

use boxes::Refusal;
use table::{ItemId, ItemRow, Table};

// How many bytes the fields of an entry have.
#[derive(Clone, Copy)]
pub struct Widths {
    pub id: usize,
    pub method: usize,
    pub offset: usize,
    pub length: usize,
    pub base: usize,
    pub index: usize,
}

// What stands before the entries: the widths of their fields, and how many entries there are.
#[derive(Clone, Copy)]
pub struct Sizes {
    pub widths: Widths,
    pub count: usize,
}

// "each 0, 4 or 8"
fn is_size(n: usize) -> bool
    ensures { result ≡ field_size n }
{
    n == 0 || n == 4 || n == 8
}

fn are_sizes(a: usize, b: usize) -> bool
    ensures { result ≡ (field_size a && field_size b) }
{
    is_size(a) && is_size(b)
}

#[tactic(auto, unfolding(fields::specs::Choice::pick))]
fn id_width(version: u32) -> usize
    ensures { result ≡ pick (eqb version 2) 4 2 }
{
    if version == 2 { 4 } else { 2 }
}

#[tactic(auto, unfolding(fields::specs::Choice::pick))]
fn method_width(version: u32) -> usize
    ensures { result ≡ pick (eqb version 0) 0 2 }
{
    if version == 0 { 0 } else { 2 }
}

#[tactic(auto, unfolding(fields::specs::Choice::pick))]
fn index_width(version: u32, b: usize) -> usize
    ensures { result ≡ pick (eqb version 0) 0 (b % 16) }
{
    if version == 0 { 0 } else { b % 16 }
}

// The widths by a version and the two bytes of field sizes.
fn widths_of(version: u32, a: usize, b: usize) -> Widths
    ensures { result ≡ widths_by version a b }
{
    let id = id_width(version);
    let method = method_width(version);
    let index = index_width(version, b);
    Widths {
        id,
        method,
        offset: a / 16,
        length: a % 16,
        base: b / 16,
        index,
    }
}

// What stands before the entries, in a box of a version.
fn read_sizes(s: &[u8], version: u32, place: u64) -> Result<Sizes, Refusal>
    requires { 4 ≤ length s.now }
    ensures { SizesAre ((sizes_form version).read place (drop 4 s.now)) s.now result }
{
    if s.len() < 5 {
        return Err(Refusal { number: 8, place });
    }
    let a = fields::be8(s, 4) as usize;
    if !are_sizes(a / 16, a % 16) {
        return Err(Refusal { number: 10, place });
    }
    if s.len() < 6 {
        return Err(Refusal { number: 8, place });
    }
    let b = fields::be8(s, 5) as usize;
    let w = widths_of(version, a, b);
    if !are_sizes(w.base, w.index) {
        return Err(Refusal { number: 10, place });
    }
    read_count(s, w, place)
}

fn read_count(s: &[u8], w: Widths, place: u64) -> Result<Sizes, Refusal>
    requires { (6 ≤ length s.now) × GoodWidths w }
    ensures { SizesAre ((count_form w).read place (drop 6 s.now)) s.now result }
{
    if s.len() - 6 < w.id {
        return Err(Refusal { number: 8, place });
    }
    let n = fields::be_id(s, 6, w.id);
    if 256 < n {
        return Err(Refusal { number: 9, place });
    }
    Ok(Sizes {
        widths: w,
        count: n as usize,
    })
}

// The row of an entry's item: 10 where it has an entry already, 11 where it is not listed.
fn row_for(
    table: &[u32],
    n: usize,
    id: ItemId,
    hope: ItemRow,
    keys: &[u64; 512],
    place: u64,
) -> Result<ItemRow, Refusal>
    requires { (n ≤ 256) × (11280 ≤ length table.now) }
    ensures { RowAre table.now n id.0 place result }
{
    let Some(row) = records::row_of(table, n, id, hope, keys) else {
        return Err(Refusal { number: 11, place });
    };
    if table[Table::item(row) + 11] == 1 {
        return Err(Refusal { number: 10, place });
    }
    Ok(row)
}

// What an entry says behind its ID, up to its extents.
#[derive(Clone, Copy)]
pub struct Rest {
    pub method: u32,
    pub reference: u32,
    pub base: u64,
    pub extents: usize,
}

// at: where its extents begin
#[derive(Clone, Copy)]
pub struct RestRead {
    pub rest: Rest,
    pub at: usize,
}

// The construction method, in a field of so many bytes.
fn read_method(s: &[u8], at: usize, m: usize) -> u32
    requires { (at + m ≤ length s.now) × ((m ≡ 0) ⊎ (m ≡ 2)) }
    ensures { result ≡ be_at s.now at m % 16 }
{
    if m == 0 {
        return 0;
    }
    fields::be16(s, at) % 16
}

// Method, data reference, base offset, count of extents.
fn read_rest(s: &[u8], at: usize, w: Widths, place: u64, used: usize) -> Result<RestRead, Refusal>
    requires { (at ≤ length s.now) × GoodWidths w × (used ≤ 512) }
    ensures { RestAre w used place s.now at result }
{
    let m = w.method;
    let b = w.base;
    if s.len() - at < m + b + 4 {
        return Err(Refusal { number: 8, place });
    }
    let k = fields::be16(s, at + m + b + 2) as usize;
    if 512 < used + k {
        return Err(Refusal { number: 9, place });
    }
    Ok(RestRead {
        rest: Rest {
            method: read_method(s, at, m),
            reference: fields::be16(s, at + m),
            base: fields::be_sized(s, at + m + 2, b),
            extents: k,
        },
        at: at + m + b + 4,
    })
}

// An entry up to its extents, which begin at `at`.
#[derive(Clone, Copy)]
pub struct EntryRead {
    pub row: ItemRow,
    pub rest: Rest,
    pub at: usize,
}

fn read_entry(
    s: &[u8],
    at: usize,
    w: Widths,
    place: u64,
    table: &[u32],
    n: usize,
    hope: ItemRow,
    keys: &[u64; 512],
    used: usize,
) -> Result<EntryRead, Refusal>
    requires { (at ≤ length s.now) × GoodWidths w × (used ≤ 512) × (n ≤ 256) × (11280 ≤ length table.now) }
    ensures { EntryAre table.now n w used place s.now at result }
{
    if s.len() - at < w.id {
        return Err(Refusal { number: 8, place });
    }
    let id = fields::be_id(s, at, w.id);
    let row = row_for(table, n, ItemId(id), hope, keys, place)?;
    let x = read_rest(s, at + w.id, w, place, used)?;
    Ok(EntryRead {
        row,
        rest: x.rest,
        at: x.at,
    })
}

// a + b, or the largest 64-bit number where that is more.
fn capped_sum(a: u64, b: u64) -> u64
    ensures { result ≡ capped (a + b) }
{
    a.saturating_add(b)
}

// What the extents of an item count from: a base offset, in the file or in `idat`.
fn start_of(method: u32, base: u64, idat: u64) -> u64
    ensures { result ≡ capped (start_of idat method base) }
{
    if method == 1 {
        return capped_sum(idat, base);
    }
    base
}

fn put_extent(table: &mut [u32], number: usize, offset: u64, size: u64)
    requires { (11280 ≤ length table.old) × (number < 512) }
    ensures { table.new ≡ sets table.old (9232 + 4 * number) (high_low offset ++ high_low size) }
{
    let a = Table::extent(number);
    table[a] = (offset / 4294967296) as u32;
    table[a + 1] = (offset % 4294967296) as u32;
    table[a + 2] = (size / 4294967296) as u32;
    table[a + 3] = (size % 4294967296) as u32;
}

// How many bytes the fields of one extent have.
fn extent_size(w: Widths) -> usize
    requires { GoodWidths w }
    ensures is { result ≡ each w }
    ensures few { result ≤ 24 }
{
    w.index + w.offset + w.length
}

// k extents from a place on, all of them there, as the extents from a number on; each counts from `start`.
#[tactic(auto, using(crate::proofs::PutLaws::one_fits))]
fn put_extents(s: &[u8], at: usize, w: Widths, k: usize, start: u64, table: &mut [u32], used: usize)
    requires { (at + k * each w ≤ length s.now) × GoodWidths w × (used + k ≤ 512) × (11280 ≤ length table.old) }
    ensures { table.new ≡ sets table.old (9232 + 4 * used) (join_all (row_from start) (extents_by w s.now at k)) }
{
    let each = extent_size(w);
    for j in 0..k {
        let a = at + j * each + w.index;
        let offset = fields::be_sized(s, a, w.offset);
        let size = fields::be_sized(s, a + w.offset, w.length);
        put_extent(table, used + j, capped_sum(start, offset), size);
    }
}

// What the record in a row says of its item's place.
fn put_place(table: &mut [u32], row: ItemRow, x: Rest, used: usize)
    requires { (11280 ≤ length table.old) × (row.0 < 256) × (used ≤ 512) × (x.extents ≤ 512) }
    ensures { table.new ≡ sets table.old (16 + 16 * row.0 + 7) (place_row used x) }
{
    let a = Table::item(row) + 7;
    let k = x.extents;
    table[a] = if k == 0 { 0 } else { used as u32 };
    table[a + 1] = k as u32;
    table[a + 2] = x.method;
    table[a + 3] = x.reference;
    table[a + 4] = 1;
}

// An entry in the table: where the next one begins, how many extents it has, and the row of its item.
#[derive(Clone, Copy)]
pub struct EntryPut {
    pub end: usize,
    pub extents: usize,
    pub row: ItemRow,
}

// What stands for the index of an extent until the reference that it picks from is read: 257 more, and the same for all
// that no reference has targets enough for. A field of no bytes means the first target.
fn index_mark(s: &[u8], at: usize, w: usize) -> u32
    requires { ((w ≡ 0) ⊎ ((w ≡ 4) ⊎ (w ≡ 8))) × (at + w ≤ length s.now) }
    ensures { result ≡ mark_of (index_of w (be_at s.now at w)) }
{
    if w == 0 {
        return 258;
    }
    let index = fields::be_sized(s, at, w);
    if 65535 < index {
        return 65793;
    }
    (index as u32) + 257
}

// The marks of k extents from a place on, all of them there, as those of the extents from a number on.
#[tactic(auto, using(crate::proofs::PutLaws::one_fits))]
fn put_indices(s: &[u8], at: usize, w: Widths, k: usize, rows: &mut [u32], used: usize)
    requires { (at + k * each w ≤ length s.now) × GoodWidths w × (used + k ≤ 512) × (2816 ≤ length rows.old) }
    ensures { rows.new ≡ sets rows.old (2304 + used) (map (λ (e : Extent). mark_of e.index)
        (extents_by w s.now at k)) }
{
    let each = extent_size(w);
    for j in 0..k {
        rows[2304 + used + j] = index_mark(s, at + j * each, w.index);
    }
}

// The extents of an entry and its place; of method 2 also the marks of its indices.
#[tactic(auto, using(crate::proofs::PutLaws::sizes_most))]
fn put_rest(
    s: &[u8],
    at: usize,
    w: Widths,
    place: u64,
    table: &mut [u32],
    rows: &mut [u32],
    row: ItemRow,
    x: Rest,
    used: usize,
    idat: u64,
) -> Result<EntryPut, Refusal>
    requires { (at ≤ length s.now) × GoodWidths w × (used + x.extents ≤ 512) × (row.0 < 256) × (11280 ≤ length table.old) ×
        (2816 ≤ length rows.old) }
    ensures marked_are { MarkedAre used (eqb x.method 2) (extents_by w s.now at x.extents) rows.old rows.new result }
    ensures stored_are { StoredAre w s.now at place table.old table.new row.0 x used idat result }
{
    let k = x.extents;
    let size = k * extent_size(w);
    if s.len() - at < size {
        return Err(Refusal { number: 8, place });
    }
    let start = start_of(x.method, x.base, idat);
    if x.method == 2 {
        put_indices(s, at, w, k, rows, used);
    }
    put_extents(s, at, w, k, start, table, used);
    put_place(table, row, x, used);
    Ok(EntryPut {
        end: at + size,
        extents: k,
        row,
    })
}

// One entry, into the table and the rows.
fn put_entry(
    s: &[u8],
    at: usize,
    w: Widths,
    place: u64,
    table: &mut [u32],
    rows: &mut [u32],
    n: usize,
    hope: ItemRow,
    keys: &[u64; 512],
    used: usize,
    idat: u64,
) -> Result<EntryPut, Refusal>
    requires { (at ≤ length s.now) × GoodWidths w × (used ≤ 512) × (n ≤ 256) × (11280 ≤ length table.old) ×
        (2816 ≤ length rows.old) }
    ensures { PutAre table.old table.new rows.old rows.new n w used place
        s.now at idat result }
{
    let e = read_entry(s, at, w, place, &*table, n, hope, keys, used)?;
    put_rest(s, e.at, w, place, table, rows, e.row, e.rest, used, idat)
}

fn put_entries(
    s: &[u8],
    from: usize,
    count: usize,
    w: Widths,
    place: u64,
    table: &mut [u32],
    rows: &mut [u32],
    n: usize,
    keys: &[u64; 512],
    idat: u64,
) -> Result<usize, Refusal>
    requires { (from ≤ length s.now) × GoodWidths w × (n ≤ 256) × (11280 ≤ length table.old) × (2816 ≤ length rows.old) ×
        Unplaced table.old n }
    ensures rows_len_unchanged { length rows.new ≡ length rows.old }
    ensures named_rows { (is : List Item) (ls : List Location) → whole (many (entry_by (ids_in table.old n) w) count []) place
        (drop from s.now) ≡ ok ls → NamedRows is ls [] rows.new }
    ensures value { result ≡ told extents_in (whole (many (entry_by (ids_in table.old n) w) count []) place (drop from s.now)) }
    ensures entries_left { EntriesLeft (whole (many (entry_by (ids_in table.old n) w) count []) place
        (drop from s.now)) n idat table.old table.new }
{
    let mut at = from;
    let mut used: usize = 0;
    let mut hope: usize = 0;
    for _i in 0..count {
        let t = put_entry(
            s,
            at,
            w,
            place,
            table,
            rows,
            n,
            ItemRow(hope),
            keys,
            used,
            idat,
        )?;
        at = t.end;
        used += t.extents;
        hope = t.row.0 + 1;
    }
    if at < s.len() {
        return Err(Refusal { number: 8, place });
    }
    Ok(used)
}

// The entries of the `iloc` at a place into a table with n items, none of which has an entry yet; the content of `idat` begins at `idat`.
// From 2,304 on, `rows` has a word for each extent: of method 2 the mark of its index, of others what was there.
pub fn read_locations(
    s: &[u8],
    place: u64,
    table: &mut [u32],
    rows: &mut [u32],
    n: usize,
    keys: &[u64; 512],
    idat: u64,
) -> Result<usize, Refusal>
    requires { (11280 ≤ length table.old) × (2816 ≤ length rows.old) × (n ≤ 256) × Unplaced table.old n }
    ensures rows_len_unchanged { length rows.new ≡ length rows.old }
    ensures named_rows { (is : List Item) (ls : List Location) → whole (iloc_form (ids_in table.old n)) place s.now ≡ ok ls →
        NamedRows is ls [] rows.new }
    ensures value { result ≡ told extents_in (whole (iloc_form (ids_in table.old n)) place s.now) }
    ensures locations_left { LocationsLeft s.now place n idat table.old table.new }
{
    let h = contents::read_full(s, 0, 2, place)?;
    let z = read_sizes(s, h.version, place)?;
    let w = z.widths;
    // Behind the count, which is as wide as an ID. Two calls, so that the loop stays a function of its own (items::read_items).
    if w.id == 2 {
        return put_entries(s, 8, z.count, w, place, table, rows, n, keys, idat);
    }
    put_entries(s, 10, z.count, w, place, table, rows, n, keys, idat)
}
