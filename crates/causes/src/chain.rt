// Refusal 30, and 14 of an item of method 2: the chain of items that an item's bytes are made of, and what is wrong with it.
use table::{ItemRow, Table};
use words::say;

// One link more than a chain may have.
const MOST_LINKS: u32 = 9;

// Told of an extent in place of a row: its item's reference has no such target. All above: there is no reference.
const NO_TARGET: u32 = 256;

// Above all of these: the item is not made of others.
const ENDED: u32 = 65794;

// How far an extent leads that names a row: furthest where it names none, then where 30 refuses that row too.
fn reach(links: &[u8], x: u32) -> u32 {
    if 255 < x {
        return 11;
    }
    linking::level_in(links, ItemRow(x as usize)) as u32 + 1
}

// What that extent of an item names which leads furthest.
fn next_of(table: &[u32], rows: &[u32], links: &[u8], row: ItemRow) -> u32 {
    if views::record_word(table, row, 9) != 2 {
        return ENDED;
    }
    let first = views::record_word(table, row, 7) as usize;
    let end = first + (views::record_word(table, row, 8) as usize);
    if 512 < end {
        return ENDED;
    }
    let mut furthest: u32 = 0;
    let mut next = ENDED;
    for e in first..end {
        let x = table::word(rows, 2304 + e);
        let far = reach(links, x);
        if furthest < far {
            furthest = far;
            next = x;
        }
    }
    next
}

// Whether one of the first n items of the chain from a row on is the one in a row.
fn is_passed(table: &[u32], rows: &[u32], links: &[u8], row: ItemRow, n: u32, sought: u32) -> bool {
    let mut at = row.0;
    for _ in 0..n {
        if at == sought as usize {
            return true;
        }
        at = next_of(table, rows, links, ItemRow(at)) as usize;
    }
    false
}

fn print_id(fd: i32, table: &[u32], row: ItemRow) {
    let id = views::id_of(table, row);
    io::print_decimal(fd, id.0 as u64);
}

// The link that is missing: an item's extent names nothing.
fn print_missing(fd: i32, table: &[u32], row: ItemRow, x: u32) {
    if x == NO_TARGET {
        say(fd, b", and an extent of item ");
        print_id(fd, table, row);
        return say(
            fd,
            b" asks for a target that its `iloc` reference does not have",
        );
    }
    say(fd, b", and item ");
    print_id(fd, table, row);
    say(fd, b" has no `iloc` reference that names them");
}

// `, 5 from 7`, then ` from 8`: the chain from a row on, to the link that is missing, to an item that it passed, or a link too far.
fn print_links(fd: i32, table: &[u32], rows: &[u32], links: &[u8], row: ItemRow) {
    let mut at = row;
    for k in 0..MOST_LINKS {
        let x = next_of(table, rows, links, at);
        if x == ENDED {
            return say(fd, b": more than 8 deep");
        }
        if 255 < x {
            return print_missing(fd, table, at, x);
        }
        if k == 0 {
            say(fd, b", ");
            print_id(fd, table, row);
        }
        say(fd, b" from ");
        at = ItemRow(x as usize);
        print_id(fd, table, at);
        if is_passed(table, rows, links, row, k + 1, x) {
            return say(fd, b": it goes round");
        }
    }
    say(fd, b": more than 8 deep");
}

// What following its links tells of each item, as far as they were read.
fn links_for(table: &[u32], rows: &[u32]) -> [u8; 256] {
    let n = views::item_count(table);
    if 256 < n || rows.len() < 2816 || table.len() < Table::WORDS {
        return [0; 256];
    }
    linking::links_of(table, rows, n)
}

// 30: `is made of other items' bytes, 5 from 7 from 8 from 7: it goes round`.
pub fn print_chain(fd: i32, table: &[u32], rows: &[u32], row: ItemRow) {
    let links = links_for(table, rows);
    say(fd, b"is made of other items' bytes");
    print_links(fd, table, rows, &links, row);
}

// 14 of method 2: an item that it names, at any depth, has no length, or one that it names is too short.
pub fn print_past(fd: i32, table: &[u32], rows: &[u32], row: ItemRow) {
    let links = links_for(table, rows);
    if linking::names_past(&links, row) {
        return say(
            fd,
            b"is made of the bytes of an item whose lengths add up to 2^64 or more",
        );
    }
    say(fd, b"has bytes past the end of an item that it is made of");
}
