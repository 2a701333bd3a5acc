// `ipma`: the associations of properties with items, into the table.
#![tactic(auto)]

ghost use Rattle.std.specs.Prelude.{◌≡◌, List, [], ◌⊎◌, ℕ, ◌+◌, ◌*◌, ◌%◌, ◌≤◌, ◌<◌, length, drop, leb, eqb};
ghost use Rattle.std.proofs.lemmas.List.Edits.{sets};
ghost use Rattle.fields.specs.Choice.{pick};
ghost use Rattle.fields.specs.Field.{be_at};
ghost use Rattle.boxes.specs.Told.{told};
ghost use Rattle.forms.specs.Form.{Form, many, whole};
ghost use Rattle.contents.specs.Full.{id_bytes};
ghost use Rattle.contents.specs.Ipma.{IpmaEntry, associations_in, mark_of, association_form, ipma_entry_form, ipma_form};
ghost use Rattle.records.specs.inner.Rows.{ids_in};
ghost use Rattle.associations.specs.inner.Told.{NamesLeft};
ghost use Rattle.associations.specs.inner.Steps.{AssociatedIs, span_words, list_form, ListedIs, Above, NamedPutIs};

use boxes::Refusal;
use table::{ItemId, ItemRow, Table};

// The essential bit of an association of w bytes.
fn mark_of(w: usize) -> u32
    ensures { result ≡ mark_of w }
{
    if w == 2 { 32768 } else { 128 }
}

// An association of w bytes as it is written.
fn word_at(s: &[u8], at: usize, w: usize) -> u32
    requires { (at + w ≤ length s.now) × ((w ≡ 1) ⊎ (w ≡ 2)) }
    ensures { result ≡ be_at s.now at w }
{
    if w == 2 {
        fields::be16(s, at)
    } else {
        fields::be8(s, at)
    }
}

// An association as the table has it: the index, and 32,768 more if essential. `mark` is the essential bit of the word a.
fn association_of(a: u32, mark: u32) -> u32
    requires { (1 ≤ mark) × (mark ≤ 32768) }
    ensures { result ≡ a % mark + pick (leb mark a) 32768 0 }
{
    if mark <= a {
        return a % mark + 32768;
    }
    a
}

// k associations of w bytes each from a place on, as the associations from a number on; `most` properties are there.
// Returns where they end.
fn put_associations(
    s: &[u8],
    from: usize,
    w: usize,
    k: usize,
    place: u64,
    table: &mut [u32],
    used: usize,
    most: u32,
) -> Result<usize, Refusal>
    requires { (from ≤ length s.now) × ((w ≡ 1) ⊎ (w ≡ 2)) × (used + k ≤ 2048) × (11280 ≤ length table.old) }
    ensures { AssociatedIs ((many (association_form w most) k []).read place (drop from s.now))
        s.now k used table.old table.new result }
{
    let mark = mark_of(w);
    let mut at = from;
    for j in 0..k {
        if s.len() - at < w {
            return Err(Refusal { number: 8, place });
        }
        let a = word_at(s, at, w);
        if most < a % mark || a == mark {
            return Err(Refusal { number: 11, place });
        }
        table[Table::ASSOCIATIONS + used + j] = association_of(a, mark);
        at += w;
    }
    Ok(at)
}

// Where the associations of a row's item begin and how many they are; with none, 0.
fn put_span(table: &mut [u32], row: ItemRow, used: usize, k: usize)
    requires { (row.0 < 256) × (used + k ≤ 2048) × (11280 ≤ length table.old) }
    ensures { table.new ≡ sets table.old (16 + 16 * row.0 + 3) (span_words used k) }
{
    let a = Table::item(row);
    table[a + 3] = first_of(used, k);
    table[a + 4] = k as u32;
}

// The first of k associations behind `used` others; of none, 0.
fn first_of(used: usize, k: usize) -> u32
    requires { used ≤ 2048 }
    ensures { result ≡ pick (eqb k 0) 0 used }
{
    if k == 0 { 0 } else { used as u32 }
}

// How the entries of an `ipma` are written: its version, the bytes of an association, and how many properties there are.
#[derive(Clone, Copy)]
pub struct Written {
    pub version: u32,
    pub word: usize,
    pub most: u32,
}

// Where a list ends and how many associations it has.
#[derive(Clone, Copy)]
pub struct Listed {
    pub end: usize,
    pub k: usize,
}

// The count of an entry and its associations, for the item in a row.
fn put_list(
    s: &[u8],
    at: usize,
    f: Written,
    place: u64,
    table: &mut [u32],
    row: ItemRow,
    used: usize,
) -> Result<Listed, Refusal>
    requires { (at ≤ length s.now) × ((f.word ≡ 1) ⊎ (f.word ≡ 2)) × (row.0 < 256) × (used ≤ 2048) × (11280 ≤ length table.old) }
    ensures { ListedIs ((list_form used f.most f.word).read place (drop at s.now))
        s.now row.0 used table.old table.new result }
{
    if s.len() - at < 1 {
        return Err(Refusal { number: 8, place });
    }
    let k = fields::be8(s, at) as usize;
    if 2048 < used + k {
        return Err(Refusal { number: 9, place });
    }
    let end = put_associations(s, at + 1, f.word, k, place, table, used, f.most)?;
    put_span(table, row, used, k);
    Ok(Listed { end, k })
}

// The bytes of an ID.
fn id_bytes(version: u32) -> usize
    ensures { result ≡ id_bytes version }
{
    if version == 0 { 2 } else { 4 }
}

// Where an entry ends, how many associations it has, its ID and the row of that.
#[derive(Clone, Copy)]
pub struct NamedPut {
    pub end: usize,
    pub k: usize,
    pub id: u32,
    pub row: ItemRow,
}

// One entry, into the table. The IDs before it are below `above`. Its row is looked for at the one hoped for, then by keys.
fn put_named(
    s: &[u8],
    at: usize,
    f: Written,
    place: u64,
    table: &mut [u32],
    n: usize,
    above: u64,
    hope: ItemRow,
    keys: &[u64; 512],
    turn: usize,
    used: usize,
) -> Result<NamedPut, Refusal>
    requires { (at ≤ length s.now) × ((f.word ≡ 1) ⊎ (f.word ≡ 2)) × (n ≤ 256) × (used ≤ 2048) × (11280 ≤ length table.old) }
    ensures { (before : List IpmaEntry) → associations_in before ≡ used → Above before above →
        NamedPutIs ((ipma_entry_form (ids_in table.old n) f.most f.version f.word before).read place
        (drop at s.now)) s.now n above used table.old table.new result }
{
    let w = id_bytes(f.version);
    if s.len() - at < w {
        return Err(Refusal { number: 8, place });
    }
    let id = fields::be_id(s, at, w);
    if (id as u64) < above {
        return Err(Refusal { number: 10, place });
    }
    let Some(row) = records::row_in_turn(&*table, n, ItemId(id), hope, keys, turn) else {
        return Err(Refusal { number: 11, place });
    };
    let p = put_list(s, at + w, f, place, table, row, used)?;
    Ok(NamedPut {
        end: p.end,
        k: p.k,
        id,
        row,
    })
}

// `count` entries from a place on, which are the rest of s.
fn put_names(
    s: &[u8],
    from: usize,
    count: usize,
    f: Written,
    place: u64,
    table: &mut [u32],
    n: usize,
    keys: &[u64; 512],
) -> Result<usize, Refusal>
    requires { (from ≤ length s.now) × ((f.word ≡ 1) ⊎ (f.word ≡ 2)) × (n ≤ 256) × (11280 ≤ length table.old) × (count < 4294967296) }
    ensures value { result ≡ told associations_in (whole (many
        (ipma_entry_form (ids_in table.old n) f.most f.version f.word) count []) place (drop from
        s.now)) }
    ensures names_left { NamesLeft (whole (many (ipma_entry_form (ids_in table.old n) f.most f.version f.word)
        count []) place (drop from s.now)) n table.old table.new }
{
    let mut at = from;
    let mut used: usize = 0;
    let mut above: u64 = 0;
    let mut hope: usize = 0;
    let first = records::first_key(keys);
    for i in 0..count {
        let t = put_named(
            s,
            at,
            f,
            place,
            table,
            n,
            above,
            ItemRow(hope),
            keys,
            first + i,
            used,
        )?;
        at = t.end;
        used += t.k;
        above = (t.id as u64) + 1;
        hope = t.row.0 + 1;
    }
    if at < s.len() {
        return Err(Refusal { number: 8, place });
    }
    Ok(used)
}

// The associations of the `ipma` at a place into a table with n items and `most` properties. Two calls of `put_names`,
// so that its loop stays a function of its own (items::read_items).
pub fn read_names(
    s: &[u8],
    place: u64,
    table: &mut [u32],
    n: usize,
    keys: &[u64; 512],
    most: u32,
) -> Result<usize, Refusal>
    requires { (n ≤ 256) × (11280 ≤ length table.old) }
    ensures value { result ≡ told associations_in (whole (ipma_form (ids_in table.old n) most) place s.now) }
    ensures names_left { NamesLeft (whole (ipma_form (ids_in table.old n) most) place s.now) n table.old table.new }
{
    let h = contents::read_full(s, 0, 1, place)?;
    if s.len() < 8 {
        return Err(Refusal { number: 8, place });
    }
    let count = fields::be32(s, 4);
    if 256 < count {
        return Err(Refusal { number: 9, place });
    }
    if h.flags % 2 == 1 {
        let f = Written {
            version: h.version,
            word: 2,
            most,
        };
        return put_names(s, 8, count as usize, f, place, table, n, keys);
    }
    let f = Written {
        version: h.version,
        word: 1,
        most,
    };
    put_names(s, 8, count as usize, f, place, table, n, keys)
}
