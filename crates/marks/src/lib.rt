// Rule 18 and the sources: which pictures derive from themselves and what a picture needs, by marks on rows.
// `table` and `rows` are read as in `depths`.
#![tactic(auto)]

ghost use Rattle.std.specs.Prelude.{◌≡◌, true, false, ℕ, ◌+◌, ◌≤◌, ◌<◌, length, get_or, eqb};
ghost use Rattle.pictures.specs.Scene.{Scene};
ghost use Rattle.pictures.specs.Depth.{depth, derives_itself};
ghost use Rattle.pictures.specs.Sources.{needs};
ghost use Rattle.depths.specs.inner.Inputs.{InputsAre};
ghost use Rattle.marks.specs.inner.Marks.{Marked, Bits, bare, IsInput, InputOf, Spread, Reached, Listing, Closed};
ghost use Rattle.marks.specs.inner.Grounds.{Ground};

use table::ItemRow;

// Marks a row; whether it was not yet marked. A row past the last mark is left out.
fn mark(marks: &mut [u32], x: usize) -> bool
    requires { Bits marks.old }
    ensures { Spread (λ y. x ≡ y) marks.old marks.new result }
{
    if x < marks.len() && marks[x] == 0 {
        marks[x] = 1;
        return true;
    }
    false
}

// Marks a row and lists it at the list's end, where it was not yet marked; where the list ends then.
fn list_row(marks: &mut [u32], list: &mut [u32], end: usize, x: u32) -> usize
    requires { Bits marks.old × (end + bare marks.old ≤ length list.old) }
    ensures { Reached (λ y. x ≡ y) marks.old marks.new list.old list.new end result }
{
    if mark(marks, x as usize) {
        list[end] = x;
        return end + 1;
    }
    end
}

// Marks the inputs of a row and lists those that were not yet marked; where the list ends then.
fn reach(
    table: &[u32],
    rows: &[u32],
    marks: &mut [u32],
    list: &mut [u32],
    start: usize,
    row: ItemRow,
) -> usize
    requires { (row.0 ≤ 256) × Bits marks.old × (start + bare marks.old ≤ length list.old) }
    ensures { Reached (IsInput table.now rows.now row.0) marks.old
        marks.new list.old list.new start result }
{
    let r = row.0;
    let k = table::word(table, 22 + 16 * r) as usize;
    let first = table::word(table, 21 + 16 * r) as usize;
    let mut end = start;
    for j in 0..k {
        end = list_row(marks, list, end, table::word(rows, first + j));
    }
    end
}

// Marks and lists the inputs of the row that the list has at k, if it is one of n.
fn reach_listed(
    table: &[u32],
    rows: &[u32],
    n: usize,
    marks: &mut [u32],
    list: &mut [u32],
    end: usize,
    k: usize,
) -> usize
    requires { (n ≤ 256) × Bits marks.old × (end + bare marks.old ≤ length list.old) }
    ensures { Reached (InputOf table.now rows.now n (get_or list.old k 0))
        marks.old marks.new list.old list.new end result }
{
    let r = table::word(&*list, k) as usize;
    if r < n {
        return reach(table, rows, marks, list, end, ItemRow(r));
    }
    end
}

// Marks all that the listed rows lead to. Each row is listed once, so the cost goes by the inputs that are there, in whatever order they stand.
fn reach_all(
    table: &[u32],
    rows: &[u32],
    n: usize,
    marks: &mut [u32],
    list: &mut [u32],
    start: usize,
)
    requires { (n ≤ 256) × Listing marks.old list.old start }
    ensures { Closed table.now rows.now n marks.old list.old start marks.new }
{
    let mut end = start;
    let mut k: usize = 0;
    // A while: the list grows while it is gone through.
    while k < end {
        end = reach_listed(table, rows, n, marks, list, end, k);
        k += 1;
    }
}

// Whether the picture in a row is derived from itself: what is reached from it is marked.
pub fn derives_itself(table: &[u32], rows: &[u32], n: usize, row: ItemRow) -> bool
    requires { n ≤ 256 }
    ensures { (s : Scene) → length s ≡ n → InputsAre table.now rows.now s → row.0 < n → result ≡ derives_itself s row.0 }
{
    let r = row.0;
    if n <= r {
        return false;
    }
    let mut marks = [0u32; 256];
    let mut list = [0u32; 256];
    let end = reach(table, rows, &mut marks, &mut list, 0, row);
    reach_all(table, rows, n, &mut marks, &mut list, end);
    table::word(&marks, r) == 1
}

// Marks on the rows that the picture in a row needs: itself, and what derivations lead to.
pub fn needed_of(table: &[u32], rows: &[u32], n: usize, row: ItemRow) -> [u32; 256]
    requires { n ≤ 256 }
    ensures { (s : Scene) → length s ≡ n → InputsAre table.now rows.now s →
        row.0 < n → depth s row.0 ≤ 16 → (c : ℕ) → c < n → eqb (get_or result c 0) 1 ≡ needs s row.0 c }
{
    let r = row.0;
    let mut marks = [0u32; 256];
    if n <= r {
        return marks;
    }
    let mut list = [0u32; 256];
    let end = list_row(&mut marks, &mut list, 0, r as u32);
    reach_all(table, rows, n, &mut marks, &mut list, end);
    marks
}

// Whether all inputs of a row are marked.
fn rests_on_marked(table: &[u32], rows: &[u32], marks: &[u32], row: ItemRow) -> bool
    requires { row.0 ≤ 256 }
    ensures { result ≡ true → (x : ℕ) → IsInput table.now rows.now row.0 x → Marked marks.now x }
{
    let r = row.0;
    let k = table::word(table, 22 + 16 * r) as usize;
    let first = table::word(table, 21 + 16 * r) as usize;
    for j in 0..k {
        if table::word(marks, table::word(rows, first + j) as usize) != 1 {
            return false;
        }
    }
    true
}

// Marks a row if all its inputs are marked; whether it was not yet marked.
fn ground_row(table: &[u32], rows: &[u32], marks: &mut [u32], row: ItemRow) -> bool
    requires { (row.0 ≤ 256) × Bits marks.old }
    ensures { Ground table.now rows.now marks.old marks.new result }
{
    let r = row.0;
    if table::word(&*marks, r) == 0 && rests_on_marked(table, rows, &*marks, row) {
        return mark(marks, r);
    }
    false
}

// One sweep over the n rows: marks those whose inputs are all marked. Whether a new one was marked.
fn ground(table: &[u32], rows: &[u32], n: usize, up: bool, marks: &mut [u32]) -> bool
    requires { (n ≤ 256) × Bits marks.old }
    ensures { Ground table.now rows.now marks.old marks.new result }
{
    let mut grew = false;
    for k in 0..n {
        let row = depths::row_in_sweep(n, k, up);
        if ground_row(table, rows, marks, row) {
            grew = true;
        }
    }
    grew
}

// Whether all of n rows are marked.
fn all_marked(marks: &[u32], n: usize) -> bool
    ensures { result ≡ true → (r : ℕ) → r < n → Marked marks.now r }
{
    for r in 0..n {
        if table::word(marks, r) != 1 {
            return false;
        }
    }
    true
}

// Whether every row rests on pictures without inputs alone, so that none is derived from itself: marks spread from
// inputs up, sweep by sweep, until nothing new is marked. A hint: a no promises nothing, and costs only time.
pub fn all_grounded(table: &[u32], rows: &[u32], n: usize) -> bool
    requires { n ≤ 256 }
    ensures { result ≡ true → (s : Scene) → length s ≡ n → InputsAre table.now rows.now s →
        (r : ℕ) → r < n → derives_itself s r ≡ false }
{
    let mut marks = [0u32; 256];
    let mut up = false;
    let mut more = true;
    // A while: it ends with the first sweep that marks nothing new.
    while more {
        up = !up;
        more = ground(table, rows, n, up, &mut marks);
    }
    all_marked(&marks, n)
}
