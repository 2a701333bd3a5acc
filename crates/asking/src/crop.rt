// The lines of `crop`, which go through a file that 20 refuses as well: the desk wants to see the step that fails.
ghost use Rattle.std.specs.Prelude.{◌≡◌, length};

use crate::answers::print_refused;
use boxes::Refusal;
use lines::print_field;
use table::{ItemId, ItemRow};
use words::say;

fn print_off(head: &[u8], total: u64, id: u32, f: Refusal) {
    say(1, b"crop");
    print_field(id as u64);
    print_refused(head, total, f);
}

fn refusal(number: u32, id: u32) -> Refusal {
    Refusal {
        number,
        place: id as u64,
    }
}

// Of a table that was read: 21, 22, or the crops.
fn print_found(head: &[u8], total: u64, table: &[u32], id: u32) {
    let Some(row) = views::row_named(table, ItemId(id), ItemRow(0)) else {
        return print_off(head, total, id, refusal(21, id));
    };
    if views::is_image(views::type_of(table, row)) {
        return crops::print_crops(head, table, row);
    }
    print_off(head, total, id, refusal(22, id))
}

// Room for the rows that reading finds.
fn new_rows() -> [u32; 2816]
    ensures { 2816 ≡ length result }
{
    [0; 2816]
}

// Reads the file again, without judging it.
fn print_read(head: &[u8], total: u64, table: &mut [u32], id: u32) {
    let mut rows = new_rows();
    match reading::read_file(head, total, table, &mut rows) {
        Ok(_) => print_found(head, total, &*table, id),
        Err(f) => print_off(head, total, id, f),
    }
}

// `crop`, ID; a line for each side of each of its crops, or `none`.
pub fn print_crop(head: &[u8], total: u64, table: &mut [u32], id: u32) {
    if let Err(f) = still::verdict(head, total, table) {
        if f.number != 20 {
            return print_off(head, total, id, f);
        }
    }
    print_read(head, total, table, id)
}
