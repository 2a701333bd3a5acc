// What the programs of the tests read from standard input: numbers, most significant byte first, and bytes that follow their length.
#![tactic(auto)]

ghost use Rattle.std.specs.Prelude.{◌≡◌, ◌≤◌, ◌<◌, ◌+◌, ◌*◌, ◌%◌, length};

// 4 bytes as a number.
pub fn read_number() -> u32 {
    let mut b = [0u8; 4];
    io::read_full(0, &mut b);
    fields::be32(&b, 0)
}

// 8 bytes as a number.
pub fn read_long() -> u64 {
    let mut b = [0u8; 8];
    io::read_full(0, &mut b);
    fields::be64(&b, 0)
}

// n bytes into the front of `room`, or none where there is no room for them; says how many.
pub fn read_bytes(room: &mut [u8], n: u32) -> usize
    ensures { result ≤ length room.old }
{
    let k = n as usize;
    if room.len() < k {
        return 0;
    }
    io::read_full(0, &mut room[..k]);
    k
}

// Room for a name and for a head. The `ensures` gives the length, which lending a part of it needs.
pub fn name_room() -> [u8; 256]
    ensures { 256 ≡ length result }
{
    [0; 256]
}

pub fn head_room() -> [u8; 70000]
    ensures { 70000 ≡ length result }
{
    [0; 70000]
}

// A table in which something is left from before, with 20 words more than it needs.
pub fn used_table() -> [u32; 11300]
    ensures { 11300 ≡ length result }
{
    [7; 11300]
}

// One step of a sum that changes with each number and with their order.
pub fn added(sum: u64, x: u32) -> u64
    requires { sum < 4294967296 }
    ensures { (result ≡ (sum * 31 + x) % 4294967296) × (result < 4294967296) }
{
    (sum * 31 + u64::from(x)) % 4294967296
}
