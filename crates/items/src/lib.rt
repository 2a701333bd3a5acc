// `iinf`: the items into their records.
#![tactic(auto)]

ghost use Rattle.std.specs.Prelude.{◌≡◌, ◌⊎◌, List, [], ◌∷◌, ◌++◌, ℕ, ◌+◌, ◌-◌, ◌≤◌, ◌<◌, length, take, drop, replicate, eqb};
ghost use Rattle.fields.specs.Choice.{pick};
ghost use Rattle.boxes.specs.Exactly.{exactly};
ghost use Rattle.boxes.specs.Told.{told};
ghost use Rattle.forms.specs.Form.{Form, got};
ghost use Rattle.contents.specs.Full.{Full, full, between, upto, id_bytes};
ghost use Rattle.contents.specs.Iinf.{Item, ids_of, infe_step, items};
ghost use Rattle.records.specs.inner.Keys.{key_of, no_key};
ghost use Rattle.items.specs.inner.Told.{
  ItemsLeft,
  Held,
  RoomAt,
  RoomIs,
  item_of,
  InfeIs,
  CountIs,
  NextIs,
  row_put,
  Stored,
  KeysLeft,
};

use boxes::types::INFE;
use boxes::{Child, Refusal};
use table::{ItemId, ItemRow, Table};

// What an `infe` says of an item, and where its key goes. hidden is 1 or 0.
#[derive(Clone, Copy)]
pub struct Info {
    pub id: ItemId,
    pub kind: u32,
    pub hidden: u32,
    pub protection: u32,
    pub room: usize,
}

// Where the keys of the rows that are filled begin and end.
#[derive(Clone, Copy)]
pub struct Keys {
    pub first: usize,
    pub end: usize,
}

// Where the key of an ID goes among the keys, None where one of them has it. Most writers' IDs rise, some writers' fall:
// then the last key is looked at, or the first, and no other.
fn room_for(keys: &[u64; 512], at: Keys, id: ItemId) -> Option<usize>
    requires { (ids : List ℕ) × Held ids at keys.now }
    ensures { (ids : List ℕ) → Held ids at keys.now → RoomIs ids at id.0 result }
{
    let key = records::key_of(id, ItemRow(0));
    let end = at.end;
    if keys[end - 1] < key {
        return Some(end);
    }
    let first = at.first;
    if key + 255 < keys[first] {
        return Some(first);
    }
    let k = records::last_upto(keys, key + 255);
    if keys[k] < key { Some(k + 1) } else { None }
}

// The fields of an `infe` behind its version and flags, the ID being w bytes wide.
fn read_info(
    s: &[u8],
    w: usize,
    flags: u32,
    place: u64,
    filled: Keys,
    keys: &[u64; 512],
) -> Result<Info, Refusal>
    requires { (4 ≤ length s.now) × ((w ≡ 2) ⊎ (w ≡ 4)) × ((ids : List ℕ) × Held ids filled keys.now) }
    ensures { (v : ℕ) → (full (between 2 3)).read place s.now ≡ got
        (record { version = v; flags = flags }) (drop 4 s.now) → pick (eqb v 2) 2 4 ≡ w →
        (before : List Item) → Held (ids_of before) filled keys.now →
        InfeIs before filled s.now place result }
{
    if s.len() < 4 + w {
        return Err(Refusal { number: 8, place });
    }
    let id = ItemId(fields::be_id(s, 4, w));
    let Some(room) = room_for(keys, filled, id) else {
        return Err(Refusal { number: 10, place });
    };
    if s.len() < 10 + w {
        return Err(Refusal { number: 8, place });
    }
    Ok(Info {
        id,
        kind: fields::be32(s, 6 + w),
        hidden: flags % 2,
        protection: fields::be16(s, 4 + w),
        room,
    })
}

// The content of an `infe` at a place.
fn read_infe(s: &[u8], place: u64, filled: Keys, keys: &[u64; 512]) -> Result<Info, Refusal>
    requires { (ids : List ℕ) × Held ids filled keys.now }
    ensures { (before : List Item) → Held (ids_of before) filled keys.now →
        InfeIs before filled s.now place result }
{
    let h = contents::read_full(s, 2, 3, place)?;
    if h.version == 2 {
        return read_info(s, 2, h.flags, place, filled, keys);
    }
    read_info(s, 4, h.flags, place, filled, keys)
}

// The next box of an `iinf`: its item, and where it ends.
#[derive(Clone, Copy)]
pub struct NextItem {
    pub info: Info,
    pub end: usize,
}

// What the box at a place of an `iinf` says, behind the items whose keys there are.
fn next_item(
    s: &[u8],
    at: usize,
    place: u64,
    base: u64,
    filled: Keys,
    keys: &[u64; 512],
) -> Result<NextItem, Refusal>
    requires { (base + length s.now < 18446744073709551616) × (at ≤ length s.now) × ((ids : List ℕ) × Held ids filled keys.now) }
    ensures { (before : List Item) → Held (ids_of before) filled keys.now →
        NextIs s.now at place base before filled result }
{
    let here = base + (at as u64);
    match boxes::child_at(s, at) {
        Child::Whole { kind, body, end } => {
            if kind != INFE {
                return Err(Refusal {
                    number: 10,
                    place: here,
                });
            }
            let info = read_infe(&s[body..end], here, filled, keys)?;
            Ok(NextItem { info, end })
        }
        Child::Bad => Err(Refusal {
            number: 3,
            place: here,
        }),
        Child::Spare => Err(Refusal { number: 8, place }),
        Child::End => Err(Refusal { number: 8, place }),
    }
}

// The record of an item in a row that holds nothing yet.
fn put_item(table: &mut [u32], row: ItemRow, info: Info)
    requires { (11280 ≤ length table.old) × (row.0 < 256) }
    ensures { table.new ≡ row_put table.old row.0 (item_of info) }
{
    let a = Table::item(row);
    table[a] = info.id.0;
    table[a + 1] = info.kind;
    table[a + 2] = info.hidden;
    table[a + 12] = info.protection;
}

// A key at a place among the others, which go out of its way on the side where fewer are.
fn put_key(keys: &mut [u64; 512], at: Keys, room: usize, key: u64) -> Keys
    requires { (ids : List ℕ) × (id : ℕ) × Held ids at keys.old × RoomAt ids at id room ×
        (length ids < 256) × (key ≡ key_of id (length ids)) }
    ensures { (ids : List ℕ) (id : ℕ) → Held ids at keys.old → RoomAt ids at id room →
        length ids < 256 → key ≡ key_of id (length ids) → Held (ids ++ (id ∷ [])) result keys.new }
{
    let first = at.first;
    let end = at.end;
    if end - room <= room - first {
        keys.copy_within(room..end, room + 1);
        keys[room] = key;
        return Keys {
            first,
            end: end + 1,
        };
    }
    keys.copy_within(first..room, first - 1);
    keys[room - 1] = key;
    Keys {
        first: first - 1,
        end,
    }
}

// The keys of no row: the first would be the 256th.
fn clear_keys(keys: &mut [u64; 512])
    requires { length keys.old ≡ 512 }
    ensures { keys.new ≡ take 256 keys.old ++ replicate 256 no_key }
{
    keys[256..].fill(records::NO_KEY);
}

// The count of an `iinf`, and where the first `infe` begins.
#[derive(Clone, Copy)]
pub struct Count {
    pub count: usize,
    pub at: usize,
}

// The front of an `iinf` at a place.
fn read_count(s: &[u8], place: u64) -> Result<Count, Refusal>
    ensures { CountIs s.now place result }
{
    let h = contents::read_full(s, 0, 1, place)?;
    if h.version == 0 {
        return count_of(s, 2, place);
    }
    count_of(s, 4, place)
}

// The count behind the version and flags, w bytes wide.
fn count_of(s: &[u8], w: usize, place: u64) -> Result<Count, Refusal>
    requires { (4 ≤ length s.now) × ((w ≡ 2) ⊎ (w ≡ 4)) }
    ensures { (h : Full) → (full (upto 1)).read place s.now ≡ got h (drop 4 s.now) →
        id_bytes h.version ≡ w → CountIs s.now place result }
{
    if s.len() < 4 + w {
        return Err(Refusal { number: 8, place });
    }
    let n = fields::be_id(s, 4, w);
    if 256 < n {
        return Err(Refusal { number: 9, place });
    }
    Ok(Count {
        count: n as usize,
        at: 4 + w,
    })
}

// The n items whose boxes begin at a place of s, into the first n rows, and these into the keys of their IDs.
fn fill_items(
    s: &[u8],
    from: usize,
    n: usize,
    place: u64,
    base: u64,
    table: &mut [u32],
    keys: &mut [u64; 512],
) -> Result<usize, Refusal>
    requires { (11280 ≤ length table.old) × (keys.old ≡ replicate 512 0) ×
        (base + length s.now < 18446744073709551616) × (from ≤ length s.now) × (n ≤ 256) }
    ensures value { result ≡ told length (exactly infe_step place n (base + from) [] (drop from s.now)) }
    ensures stored { Stored (exactly infe_step place n (base + from) [] (drop from s.now)) table.old table.new }
    ensures keys_left { KeysLeft (exactly infe_step place n (base + from) [] (drop from s.now)) keys.new }
{
    clear_keys(&mut *keys);
    let mut at = from;
    let mut filled = Keys {
        first: 256,
        end: 256,
    };
    for i in 0..n {
        let t = next_item(s, at, place, base, filled, &*keys)?;
        let info = t.info;
        put_item(table, ItemRow(i), info);
        filled = put_key(
            &mut *keys,
            filled,
            info.room,
            records::key_of(info.id, ItemRow(i)),
        );
        at = t.end;
    }
    if at < s.len() {
        return Err(Refusal { number: 8, place });
    }
    Ok(n)
}

// The items of the `iinf` at a place, whose content s begins at `base`, into the records of a table that is all 0,
// and their keys into words that are.
pub fn read_items(
    s: &[u8],
    place: u64,
    base: u64,
    table: &mut [u32],
    keys: &mut [u64; 512],
) -> Result<usize, Refusal>
    requires { (11280 ≤ length table.old) × (keys.old ≡ replicate 512 0) × (base + length s.now < 18446744073709551616) }
    ensures value { result ≡ told length (items place base s.now) }
    ensures items_left { ItemsLeft s.now place base table.old table.new }
    ensures keys_left { KeysLeft (items place base s.now) keys.new }
{
    let c = read_count(s, place)?;
    // Two calls, one for each width of the count: of a function with one call the compiler makes a part of its caller,
    // and reading becomes one function that keeps its counters in memory.
    if c.at == 6 {
        return fill_items(s, 6, c.count, place, base, table, keys);
    }
    fill_items(s, c.at, c.count, place, base, table, keys)
}
