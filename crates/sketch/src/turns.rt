// The transforms of an item, one after the other.
use canvas::put;
use pictures::Size;
use table::ItemRow;
use turned::turn_at;

// The groups of an item's transforms from association j on, the last one outermost. The picture has the size s before them.
pub fn open_turns(head: &[u8], table: &[u32], row: ItemRow, j: usize, s: Size, around: bool) {
    if declared::property_count(table, row) <= j {
        return;
    }
    let t = turn_at(head, table, row, j, s);
    open_turns(head, table, row, j + 1, pictures::size_after(t, s), around);
    canvas::open_turn(t, s, around);
}

// Their ends, the first one innermost.
pub fn close_turns(head: &[u8], table: &[u32], row: ItemRow, s: Size, around: bool) {
    let n = declared::property_count(table, row);
    let mut size = s;
    for j in 0..n {
        let t = turn_at(head, table, row, j, size);
        canvas::close_turn(t, size, around);
        size = pictures::size_after(t, size);
    }
}

// What an item's transforms do, a word each.
pub fn put_turns(head: &[u8], table: &[u32], row: ItemRow) {
    let n = declared::property_count(table, row);
    let mut size = sizing::declared_in(table, row);
    for j in 0..n {
        let t = turn_at(head, table, row, j, size);
        canvas::put_turn(t);
        size = pictures::size_after(t, size);
    }
}

// How many transforms there were, with one more property of a type; 5 stands for more than four.
fn said_after(said: u32, kind: u32) -> u32 {
    if !declared::is_transform(kind) {
        return said;
    }
    if said < 5 {
        return said + 1;
    }
    5
}

// The same in a sentence, of the first four transforms.
pub fn say_turns(head: &[u8], table: &[u32], row: ItemRow) {
    let n = declared::property_count(table, row);
    let mut size = sizing::declared_in(table, row);
    let mut said: u32 = 0;
    for j in 0..n {
        said = said_after(said, declared::kind_of(table, row, j));
        if said == 5 {
            return put(b" ..");
        }
        let t = turn_at(head, table, row, j, size);
        canvas::say_turn(t);
        size = pictures::size_after(t, size);
    }
}
