// `iprp`: the properties and their associations, into the table.
#![tactic(auto)]

ghost use Rattle.std.specs.Prelude.{◌≡◌, List, [], ◌∷◌, ◌++◌, ℕ, ◌+◌, ◌*◌, ◌-◌, ◌≤◌, length, take, drop};
ghost use Rattle.std.proofs.lemmas.List.Edits.{sets};
ghost use Rattle.boxes.specs.Box.{head_of, kind_of, flat};
ghost use Rattle.boxes.specs.Children.{contain};
ghost use Rattle.boxes.specs.Told.{told};
ghost use Rattle.forms.specs.Form.{whole};
ghost use Rattle.contents.specs.Ipco.{ispe_form, bytes_form, good_content, property_step};
ghost use Rattle.contents.specs.Iprp.{any_box, iprp_content};
ghost use Rattle.records.specs.inner.Rows.{ids_in};
ghost use Rattle.properties.specs.inner.Told.{shown_of, ShownLeft};
ghost use Rattle.properties.specs.inner.Steps.{
  next_property,
  AddedIs,
  PropertiesLeft,
  level_of,
  pair_shown,
  PairLeft,
};

use boxes::types::{CLAP, IMIR, IPCO, IPMA, IROT, ISPE};
use boxes::{Child, Refusal};
use table::{PropertyIndex, Table};

fn has_length(s: &[u8], n: usize, place: u64) -> Result<(), Refusal>
    ensures { result ≡ told (λ u. u) (whole (bytes_form n) place s.now) }
{
    if s.len() == n {
        Ok(())
    } else {
        Err(Refusal { number: 8, place })
    }
}

fn check_ispe(s: &[u8], place: u64) -> Result<(), Refusal>
    ensures { result ≡ told (λ u. u) (whole ispe_form place s.now) }
{
    contents::read_full(s, 0, 0, place)?;
    has_length(s, 12, place)
}

// The content of a property of a type, at a place.
fn check_property(kind: u32, s: &[u8], place: u64) -> Result<(), Refusal>
    ensures { result ≡ told (λ u. u) (good_content kind place s.now) }
{
    match kind {
        ISPE => check_ispe(s, place),
        CLAP => has_length(s, 32, place),
        IROT | IMIR => has_length(s, 1, place),
        _ => Ok(()),
    }
}

fn put_property(table: &mut [u32], index: PropertyIndex, kind: u32, offset: u32, size: u32)
    requires { (1 ≤ index.0) × (index.0 ≤ 256) × (11280 ≤ length table.old) }
    ensures { table.new ≡ sets table.old (4112 + 4 * (index.0 - 1)) (kind ∷ offset ∷ size ∷ 0 ∷ []) }
{
    let a = Table::property(index);
    table[a] = kind;
    table[a + 1] = offset;
    table[a + 2] = size;
    table[a + 3] = 0;
}

// A property of a type with the content s, whose box at a place has `size` bytes, into the table behind n others.
fn add_property(
    kind: u32,
    s: &[u8],
    place: u64,
    size: usize,
    table: &mut [u32],
    n: usize,
) -> Result<(), Refusal>
    requires { (place ≤ 65536) × (size ≤ 65536) × (n ≤ 256) × (11280 ≤ length table.old) }
    ensures { AddedIs (next_property n kind place s.now) n kind place size table.old table.new result }
{
    if n == 256 {
        return Err(Refusal { number: 9, place });
    }
    check_property(kind, s, place)?;
    put_property(
        table,
        PropertyIndex((n + 1) as u32),
        kind,
        place as u32,
        size as u32,
    );
    Ok(())
}

// The properties of the `ipco` at a place, whose content s begins at `base`: how many there are.
fn read_properties(s: &[u8], place: u64, base: u64, table: &mut [u32]) -> Result<usize, Refusal>
    requires { (11280 ≤ length table.old) × (base + length s.now ≤ 65536) }
    ensures value { result ≡ told length (contain property_step place base [] s.now) }
    ensures properties_left { PropertiesLeft s.now place base table.old table.new }
{
    let mut at: usize = 0;
    let mut n: usize = 0;
    // A loop: each box says how far the next one is, and the last ends it.
    loop {
        let here = base + (at as u64);
        match boxes::child_at(s, at) {
            Child::Whole { kind, body, end } => {
                add_property(kind, &s[body..end], here, end - at, table, n)?;
                at = end;
                n += 1;
            }
            Child::Bad => {
                return Err(Refusal {
                    number: 3,
                    place: here,
                });
            }
            Child::Spare => {
                return Err(Refusal { number: 3, place });
            }
            Child::End => {
                return Ok(n);
            }
        }
    }
}

// The children of an `iprp`: how many there are, three standing for more; the types of the first two, where each has its content and its end.
#[derive(Clone, Copy)]
pub struct Level {
    pub count: usize,
    pub kind0: u32,
    pub body0: usize,
    pub end0: usize,
    pub kind1: u32,
    pub body1: usize,
    pub end1: usize,
}

// One child more.
fn level_with(l: Level, kind: u32, body: usize, end: usize) -> Level
    ensures { (bs : List (List ℕ)) (b : List ℕ) → l ≡ level_of bs → kind_of b ≡ kind →
        length (flat bs) + head_of b ≡ body → length (flat bs) + length b ≡ end → result ≡ level_of (bs ++ (b ∷ [])) }
{
    match l.count {
        0 => Level {
            count: 1,
            kind0: kind,
            body0: body,
            end0: end,
            ..l
        },
        1 => Level {
            count: 2,
            kind1: kind,
            body1: body,
            end1: end,
            ..l
        },
        _ => Level { count: 3, ..l },
    }
}

// The children of the `iprp` at a place, whose content s begins at `base`.
fn read_level(s: &[u8], place: u64, base: u64) -> Result<Level, Refusal>
    requires { base + length s.now ≤ 65536 }
    ensures { result ≡ told level_of (contain any_box place base [] s.now) }
{
    let mut l = Level {
        count: 0,
        kind0: 0,
        body0: 0,
        end0: 0,
        kind1: 0,
        body1: 0,
        end1: 0,
    };
    let mut at: usize = 0;
    // A loop: each box says how far the next one is, and the last ends it.
    loop {
        match boxes::child_at(s, at) {
            Child::Whole { kind, body, end } => {
                l = level_with(l, kind, body, end);
                at = end;
            }
            Child::Bad => {
                return Err(Refusal {
                    number: 3,
                    place: base + (at as u64),
                });
            }
            Child::Spare => {
                return Err(Refusal { number: 3, place });
            }
            Child::End => {
                return Ok(l);
            }
        }
    }
}

// How many properties and how many associations an `iprp` has.
#[derive(Clone, Copy)]
pub struct Shown {
    pub properties: usize,
    pub associations: usize,
}

// The `iprp` at a place, whose content s begins at `base`, into a table with n items.
pub fn read_iprp_content(
    s: &[u8],
    place: u64,
    base: u64,
    table: &mut [u32],
    n: usize,
    keys: &[u64; 512],
) -> Result<Shown, Refusal>
    requires { (11280 ≤ length table.old) × (n ≤ 256) × (base + length s.now ≤ 65536) }
    ensures value { result ≡ told shown_of (iprp_content (ids_in table.old n) place base s.now) }
    ensures shown_left { ShownLeft s.now place base n table.old table.new }
{
    let l = read_level(s, place, base)?;
    if l.count == 2 && l.kind0 == IPCO && l.kind1 == IPMA {
        return read_pair(s, base, l.body0, l.end0, l.body1, l.end1, table, n, keys);
    }
    Err(Refusal { number: 7, place })
}

// An `ipco` at the front of s and the `ipma` behind it.
fn read_pair(
    s: &[u8],
    base: u64,
    b0: usize,
    e0: usize,
    b1: usize,
    e1: usize,
    table: &mut [u32],
    n: usize,
    keys: &[u64; 512],
) -> Result<Shown, Refusal>
    requires { (b0 ≤ e0) × (e0 ≤ length s.now) × (b1 ≤ e1) × (e1 ≤ length s.now) × (11280 ≤ length table.old) ×
        (n ≤ 256) × (base + length s.now ≤ 65536) }
    ensures value { result ≡ told shown_of (pair_shown (ids_in table.old n) base b0 e0
        (take (e0 - b0) (drop b0 s.now)) (take (e1 - b1) (drop b1 s.now))) }
    ensures pair_left { PairLeft (pair_shown (ids_in table.old n) base b0 e0
        (take (e0 - b0) (drop b0 s.now)) (take (e1 - b1) (drop b1 s.now))) (base + b0) n table.old table.new }
{
    let m = read_properties(&s[b0..e0], base, base + (b0 as u64), table)?;
    let k = associations::read_names(&s[b1..e1], base + (e0 as u64), table, n, keys, m as u32)?;
    Ok(Shown {
        properties: m,
        associations: k,
    })
}
