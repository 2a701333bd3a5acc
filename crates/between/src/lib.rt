// The points of a seam between two pixels, for ./ask and ./draw: as many as the longer way has pixels, at most 512.
#![tactic(auto)]

ghost use Rattle.std.specs.Prelude.{◌≡◌, ◌≤◌, ◌<◌, ◌*◌, length};
ghost use Rattle.between.specs.inner.Seam.{apart, count_of, step_of, on_the_way};

#[derive(Clone, Copy)]
pub struct Seam {
    pub x: u32,
    pub y: u32,
    pub to_x: u32,
    pub to_y: u32,
}

// How far two numbers lie apart.
fn apart_of(a: u32, b: u32) -> u32
    ensures { result ≡ apart a b }
{
    if a < b {
        return b - a;
    }
    a - b
}

// How many points a seam has whose ends lie so far apart, across and down.
fn count_of(across: u32, down: u32) -> u32
    ensures { result ≡ count_of across down }
{
    if across < down {
        if 511 <= down {
            return 512;
        }
        return down + 1;
    }
    if 511 <= across {
        return 512;
    }
    across + 1
}

fn product(a: u32, b: u32) -> u64
    ensures { (result ≤ 18446744065119617025) × (result ≡ a * b) }
{
    a as u64 * b as u64
}

// How far point k of n lies from the first one, where the last lies `far` from it: whole, towards the first.
fn step_of(far: u32, k: u32, n: u32) -> u32
    ensures { (result ≤ far) × (k < n → result ≡ step_of far k n) }
{
    if n < 2 {
        return 0;
    }
    let step = product(far, k) / (n - 1) as u64;
    if far as u64 <= step {
        return far;
    }
    step as u32
}

// Where point k of n lies on the way from a to b.
fn on_the_way(a: u32, b: u32, k: u32, n: u32) -> u32
    ensures { k < n → result ≡ on_the_way a b k n }
{
    let step = step_of(apart_of(a, b), k, n);
    if a < b {
        return a + step;
    }
    a - step
}

// Puts the points of a seam into records of nine numbers, x and y first, then zeros, and says how many they are: none
// where there is no room for them.
pub fn lay(s: Seam, points: &mut [[u32; 9]]) -> usize
    ensures upper_bound { result ≤ length points.old }
    ensures points_len_unchanged { length points.new ≡ length points.old }
{
    let n = count_of(apart_of(s.x, s.to_x), apart_of(s.y, s.to_y));
    if points.len() < n as usize {
        return 0;
    }
    for k in 0..n {
        let x = on_the_way(s.x, s.to_x, k, n);
        let y = on_the_way(s.y, s.to_y, k, n);
        points[k as usize] = [x, y, 0, 0, 0, 0, 0, 0, 0];
    }
    n as usize
}
