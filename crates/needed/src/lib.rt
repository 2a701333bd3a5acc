// Sources: the coded items that an item needs, each once, in table order.
#![tactic(auto)]

ghost use Rattle.std.specs.Prelude.{◌≡◌, List, ℕ, ◌<◌, ◌≤◌, ◌++◌, ◌&&◌, length, get_or, drop, eqb};
ghost use Rattle.boxes.specs.Types.{coded};
ghost use Rattle.views.specs.inner.View.{record_word};
ghost use Rattle.needed.specs.inner.Marked.{marked_of};

use table::ItemRow;

// Whether the item in a row is coded and marked.
fn is_source(table: &[u32], marks: &[u32], row: ItemRow) -> bool
    ensures { row.0 < 256 → result ≡ (eqb (get_or marks.now row.0 0) 1 && coded (record_word table.now row.0 1)) }
{
    table::word(marks, row.0) == 1 && views::is_coded(views::type_of(table, row))
}

// How many sources the marks leave.
pub fn count_sources(table: &[u32], marks: &[u32], n: usize) -> usize
    requires { n ≤ 256 }
    ensures { result ≡ length (marked_of table.now marks.now n) }
{
    let mut count: usize = 0;
    for k in 0..n {
        if is_source(table, marks, views::row_at(table, k)) {
            count += 1;
        }
    }
    count
}

// Their IDs into a list that has room for them.
pub fn put_sources(table: &[u32], marks: &[u32], n: usize, list: &mut [u32])
    requires { n ≤ 256 }
    ensures { length (marked_of table.now marks.now n) ≤ length list.old →
        list.new ≡ marked_of table.now marks.now n ++
        drop (length (marked_of table.now marks.now n)) list.old }
{
    let mut count: usize = 0;
    for k in 0..n {
        let row = views::row_at(table, k);
        if is_source(table, marks, row) {
            if count < list.len() {
                list[count] = views::id_of(table, row).0;
            }
            count += 1;
        }
    }
}
