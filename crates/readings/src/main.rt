// Reads packed heads from standard input and prints, for each, what reading says of it and a sum over the table's words.
// The input: how many heads (4 bytes), then for each its length (4), the file's total (8) and its bytes.
// The table is never cleared between heads, and has 20 words more than it needs: the sum shows that nothing of an
// earlier file is left and nothing behind is written.
#![tactic(auto)]

ghost use Rattle.std.specs.Prelude.{◌<◌};

fn print_number(n: u64) {
    io::write_all(1, b"\t");
    io::print_decimal(1, n);
}

// A sum over the words that changes with each of them and with their order.
fn sum_of(table: &[u32]) -> u64
    ensures { result < 4294967296 }
{
    let mut sum: u64 = 0;
    for x in table {
        sum = heads::added(sum, *x);
    }
    sum
}

fn print_answer(head: &[u8], total: u64, table: &mut [u32]) {
    let mut rows = [0u32; 2816];
    match reading::read_file(head, total, table, &mut rows) {
        Ok(_) => {
            io::write_all(1, b"read");
        }
        Err(f) => {
            io::write_all(1, b"refused");
            print_number(u64::from(f.number));
            print_number(f.place);
        }
    }
    print_number(sum_of(table));
    io::write_all(1, b"\n");
}

// The next head of the input.
fn next_head(table: &mut [u32]) {
    let bytes = heads::read_number();
    let total = heads::read_long();
    let mut head = heads::head_room();
    let n = heads::read_bytes(&mut head, bytes);
    print_answer(&head[..n], total, table);
}

fn main() {
    let count = heads::read_number();
    let mut table = heads::used_table();
    for _ in 0..count {
        next_head(&mut table);
    }
}
