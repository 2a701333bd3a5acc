// The table's records in rising ID order, and each item's place in `iinf` in its sixteenth word (document 02, Q-6). While
// a file is read, judged and asked, the record of an item stands in the row of its place: this is the last step.
#![tactic(auto)]

ghost use Rattle.std.specs.Prelude.{◌≡◌, ℕ, ◌+◌, ◌*◌, ◌≤◌, ◌<◌, length, get_or, true, List};
ghost use Rattle.boxes.specs.Answer.{ok};
ghost use Rattle.contents.specs.File.{File};
ghost use Rattle.rules.specs.Opening.{accepted, after, file_after};
ghost use Rattle.arranged.specs.inner.Order.{
  InOrder,
  PlacesPut,
  PlacesApart,
  ByPlace,
  QuartersKept,
  QuartersPut,
  Moved,
  Rising,
  row_in,
};

use table::Table;

// The place of each of n records, which is its row, in its sixteenth word.
fn put_places(table: &mut [u32], n: usize)
    requires { (n ≤ 256) × (11280 ≤ length table.old) }
    ensures { PlacesPut n table.old table.new }
{
    for k in 0..n {
        table[16 + 16 * k + 15] = k as u32;
    }
}

// Whether n rows in ID order are those in the order of `iinf`.
fn is_rising(rows: &[u32], n: usize) -> bool
    requires { (n ≤ 256) × (2304 ≤ length rows.now) }
    ensures rising { result ≡ true → Rising n rows.now }
    ensures value { Rising n rows.now → result ≡ true }
{
    let mut rising = true;
    for k in 0..n {
        if rows[2048 + k] != k as u32 {
            rising = false;
        }
    }
    rising
}

// Four words of each of n records, from word c on, one record after the other.
fn keep_quarters(table: &[u32], n: usize, c: usize, kept: &mut [u32; 1024])
    requires { (n ≤ 256) × (11280 ≤ length table.now) × (c ≤ 12) × (length kept.old ≡ 1024) }
    ensures { QuartersKept n c table.now kept.old kept.new }
{
    for k in 0..n {
        let a = 16 + 16 * k + c;
        kept[4 * k] = table[a];
        kept[4 * k + 1] = table[a + 1];
        kept[4 * k + 2] = table[a + 2];
        kept[4 * k + 3] = table[a + 3];
    }
}

// Four words of each of n records, from word c on, taken from those kept in the rows' order.
fn put_quarters(table: &mut [u32], n: usize, c: usize, kept: &[u32; 1024], rows: &[u32])
    requires { (n ≤ 256) × (11280 ≤ length table.old) × (c ≤ 12) × (2304 ≤ length rows.now) }
    ensures { QuartersPut n c kept.now rows.now table.old table.new }
{
    for k in 0..n {
        let r = (rows[2048 + k] % 256) as usize;
        let to = 16 + 16 * k + c;
        let from = 4 * r;
        table[to] = kept[from];
        table[to + 1] = kept[from + 1];
        table[to + 2] = kept[from + 2];
        table[to + 3] = kept[from + 3];
    }
}

// n records, each moved whole, into the rows' order.
fn move_records(table: &mut [u32], n: usize, rows: &[u32])
    requires { (n ≤ 256) × (11280 ≤ length table.old) × (2304 ≤ length rows.now) }
    ensures { ((k : ℕ) → k < n → row_in rows.now k < n) → Moved n (row_in rows.now) table.old table.new }
{
    let mut kept = [0u32; 1024];
    for q in 0..4 {
        keep_quarters(&*table, n, 4 * q, &mut kept);
        put_quarters(&mut *table, n, 4 * q, &kept, rows);
    }
}

// The records of an accepted file's table into rising ID order; a table without records stays.
pub fn arrange(table: &mut [u32], rows: &[u32])
    requires { 2304 ≤ length rows.now }
    ensures { (total : ℕ) (head before : List ℕ) → table.old ≡ file_after total head before →
        (11280 ≤ length before → (f : File) → accepted total head ≡ ok f → InOrder rows.now f) →
        table.new ≡ after total head before }
{
    if table.len() < Table::WORDS {
        return;
    }
    let n = table[0] as usize;
    if 256 < n {
        return;
    }
    put_places(&mut *table, n);
    if !is_rising(rows, n) {
        move_records(table, n, rows);
    }
}

// The row of each place in `iinf`, of an accepted file's table: for whoever lists the items.
pub fn rows_by_place(table: &[u32]) -> [u32; 256]
    ensures { get_or table.now 0 0 ≤ 256 → PlacesApart (get_or table.now 0 0) table.now →
        ByPlace (get_or table.now 0 0) table.now result }
{
    let mut rows = [0u32; 256];
    let n = table::word(table, 0) as usize;
    if 256 < n {
        return rows;
    }
    for k in 0..n {
        rows[(table::word(table, 16 + 16 * k + 15) % 256) as usize] = k as u32;
    }
    rows
}
