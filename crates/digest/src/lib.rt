// SHA-256 of a table's words, for the programs of the tests: it lets a table be compared with one that somebody else wrote.
// Nothing that is promised to users rests on it, so it promises no more than that it ends.
#![tactic(auto)]

ghost use Rattle.std.specs.Prelude.{◌≡◌, ◌<◌, length};

fn add(a: u32, b: u32) -> u32 {
    a.wrapping_add(b)
}

// The bits turned right by k.
fn turned(x: u32, k: u32) -> u32 {
    x.rotate_right(k)
}

// The bytes of a word the other way round.
fn swapped(x: u32) -> u32 {
    x.swap_bytes()
}

// The cube roots' bits.
fn root(i: usize) -> u32 {
    let k: [u32; 64] = [
        0x428a2f98, 0x71374491, 0xb5c0fbcf, 0xe9b5dba5, 0x3956c25b, 0x59f111f1, 0x923f82a4,
        0xab1c5ed5, 0xd807aa98, 0x12835b01, 0x243185be, 0x550c7dc3, 0x72be5d74, 0x80deb1fe,
        0x9bdc06a7, 0xc19bf174, 0xe49b69c1, 0xefbe4786, 0x0fc19dc6, 0x240ca1cc, 0x2de92c6f,
        0x4a7484aa, 0x5cb0a9dc, 0x76f988da, 0x983e5152, 0xa831c66d, 0xb00327c8, 0xbf597fc7,
        0xc6e00bf3, 0xd5a79147, 0x06ca6351, 0x14292967, 0x27b70a85, 0x2e1b2138, 0x4d2c6dfc,
        0x53380d13, 0x650a7354, 0x766a0abb, 0x81c2c92e, 0x92722c85, 0xa2bfe8a1, 0xa81a664b,
        0xc24b8b70, 0xc76c51a3, 0xd192e819, 0xd6990624, 0xf40e3585, 0x106aa070, 0x19a4c116,
        0x1e376c08, 0x2748774c, 0x34b0bcb5, 0x391c0cb3, 0x4ed8aa4a, 0x5b9cca4f, 0x682e6ff3,
        0x748f82ee, 0x78a5636f, 0x84c87814, 0x8cc70208, 0x90befffa, 0xa4506ceb, 0xbef9a3f7,
        0xc67178f2,
    ];
    table::word(&k, i)
}

// The 16 words of a block, with room for 64.
fn begun(b: [u32; 16]) -> [u32; 64]
    ensures { 64 ≡ length result }
{
    let mut w = [0u32; 64];
    for i in 0..16 {
        w[i] = b[i];
    }
    w
}

// The 16 words of a block drawn out to 64.
fn drawn_out(b: [u32; 16]) -> [u32; 64]
    ensures { 64 ≡ length result }
{
    let mut w = begun(b);
    for i in 16..64 {
        let x = table::word(&w, i - 15);
        let y = table::word(&w, i - 2);
        let p = turned(x, 7) ^ turned(x, 18) ^ (x >> 3);
        let q = turned(y, 17) ^ turned(y, 19) ^ (y >> 10);
        let v = add(
            add(table::word(&w, i - 16), p),
            add(table::word(&w, i - 7), q),
        );
        w[i] = v;
    }
    w
}

// One turn over the eight words.
fn turn(h: [u32; 8], w: u32, k: u32) -> [u32; 8]
    ensures { 8 ≡ length result }
{
    let a = h[0];
    let e = h[4];
    let s = turned(e, 6) ^ turned(e, 11) ^ turned(e, 25);
    let c = (e & h[5]) ^ ((e ^ 0xffffffff) & h[6]);
    let t = add(add(add(h[7], s), add(c, k)), w);
    let u = turned(a, 2) ^ turned(a, 13) ^ turned(a, 22);
    let m = (a & h[1]) ^ (a & h[2]) ^ (h[1] & h[2]);
    [
        add(t, add(u, m)),
        a,
        h[1],
        h[2],
        add(h[3], t),
        e,
        h[5],
        h[6],
    ]
}

// One block more.
fn with_block(h: [u32; 8], b: [u32; 16]) -> [u32; 8]
    ensures { 8 ≡ length result }
{
    let w = drawn_out(b);
    let mut g = h;
    for i in 0..64 {
        g = turn(g, w[i], root(i));
    }
    [
        add(h[0], g[0]),
        add(h[1], g[1]),
        add(h[2], g[2]),
        add(h[3], g[3]),
        add(h[4], g[4]),
        add(h[5], g[5]),
        add(h[6], g[6]),
        add(h[7], g[7]),
    ]
}

// The words of the block with a number from 0, each the other way round.
fn block_of(table: &[u32], number: usize) -> [u32; 16]
    requires { number < 65536 }
{
    let mut b = [0u32; 16];
    for i in 0..16 {
        b[i] = swapped(table::word(table, 16 * number + i));
    }
    b
}

// What closes 705 blocks: a bit, and how many bits came before it.
fn closing() -> [u32; 16] {
    [0x80000000, 0, 0, 0, 0, 0, 0, 0, 0, 0, 0, 0, 0, 0, 0, 360960]
}

fn opening() -> [u32; 8]
    ensures { 8 ≡ length result }
{
    [
        0x6a09e667, 0xbb67ae85, 0x3c6ef372, 0xa54ff53a, 0x510e527f, 0x9b05688c, 0x1f83d9ab,
        0x5be0cd19,
    ]
}

// The digest of the first 11,280 words, each as 4 bytes, lowest first.
pub fn of_table(table: &[u32]) -> [u32; 8]
    ensures { 8 ≡ length result }
{
    let mut h = opening();
    for k in 0..705 {
        let b = block_of(table, k);
        let g = with_block(h, b);
        h = g;
    }
    with_block(h, closing())
}
