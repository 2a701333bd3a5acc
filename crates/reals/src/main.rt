// Lists many files that other writers wrote: reads them from standard input and prints for each its name and what the listing program must print.
// The input: how many files (4 bytes); for each its name (length in 4 bytes, then the letters), its total (8) and its head (length in 4, then the bytes).
#![tactic(auto)]

ghost use Rattle.std.specs.Prelude.{◌≡◌, length};

// A table in which something is left from before.
fn used_table() -> [u32; 11280]
    ensures { 11280 ≡ length result }
{
    [7; 11280]
}

fn print_name(name: &[u8]) {
    io::write_all(1, b"# ");
    io::write_all(1, name);
    io::write_all(1, b"\n");
}

fn next_file(table: &mut [u32]) {
    let letters = heads::read_number();
    let mut name = heads::name_room();
    let n = heads::read_bytes(&mut name, letters);
    print_name(&name[..n]);
    let total = heads::read_long();
    let bytes = heads::read_number();
    let mut head = heads::head_room();
    let m = heads::read_bytes(&mut head, bytes);
    lines::print_listing(&head[..m], total, table);
}

fn main() {
    let count = heads::read_number();
    let mut table = used_table();
    for _ in 0..count {
        next_file(&mut table);
    }
}
