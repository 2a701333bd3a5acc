// The listing program: reads a still from standard input, keeps the first 65,536 bytes and counts all, and prints what it is.
#![tactic(auto)]

fn main(rt: HostRuntime) {
    let mut head = io::large_buffer();
    let Some(got) = input::read_input(&rt, &mut head) else {
        return input::print_failed();
    };
    let mut table = input::new_table();
    lines::print_listing(&head[..got.here], got.total, &mut table);
}
