// The line of `body`: its length, then its bytes in hex.
ghost use Rattle.std.specs.Prelude.{◌≡◌, length};

use crate::{print_more, print_refusal};
use table::ItemId;

// A buffer in which something is left from before.
fn used_buffer() -> [u8; 20000]
    ensures { 20000 ≡ length result }
{
    [9; 20000]
}

fn print_bytes(body: &[u8]) {
    for b in body {
        io::print_hex(1, *b as u64, 2);
    }
}

fn print_joined(body: &[u8]) {
    io::print_decimal(1, body.len() as u64);
    if 0 < body.len() {
        io::write_all(1, b" ");
    }
    print_bytes(body);
    io::write_all(1, b"\n");
}

fn print_bodied(head: &[u8], total: u64, table: &mut [u32], id: u32, body: &mut [u8]) {
    match still::body(head, total, table, ItemId(id), &mut *body) {
        Ok(n) => print_joined(views::part(&*body, 0, n)),
        Err(f) => print_refusal(f),
    }
}

pub fn print_body(head: &[u8], total: u64, table: &mut [u32], id: u32, room: u32) {
    io::write_all(1, b"body\t");
    io::print_decimal(1, id as u64);
    print_more(room as u64);
    io::write_all(1, b"\t");
    let mut body = used_buffer();
    let n = room as usize;
    if n <= 20000 {
        print_bodied(head, total, table, id, &mut body[..n]);
    }
}
