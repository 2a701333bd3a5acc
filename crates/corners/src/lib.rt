// Where the inputs of a derived picture lie, and what is seen of them.
#![tactic(auto)]

ghost use Rattle.std.specs.Prelude.{◌≡◌, ◌+◌, ◌*◌, ◌-◌, ◌≤◌, ◌<◌, length};
ghost use Rattle.fields.specs.Field.{be_at};
ghost use Rattle.pictures.specs.Signed.{signed};
ghost use Rattle.corners.specs.inner.Place.{raised, tile_in, span_of, seen_in, seen_of};

use layout::{Part, ZERO, whole};
use pictures::Size;

// Where the corner of an input lies on its canvas, each number with `ZERO` added to it.
#[derive(Clone, Copy)]
pub struct Corner {
    pub x: u64,
    pub y: u64,
}

fn product(a: u32, b: u32) -> u64
    ensures { (result ≤ 18446744065119617025) × (result ≡ a * b) }
{
    a as u64 * b as u64
}

// The tile of size s with a number from 0 in a grid of so many columns, row by row from top left.
pub fn tile_in(columns: u32, k: u32, s: Size) -> Corner
    ensures { 0 < columns → result ≡ tile_in columns k s }
{
    if columns == 0 {
        return Corner { x: ZERO, y: ZERO };
    }
    Corner {
        x: ZERO + product(k % columns, s.wide),
        y: ZERO + product(k / columns, s.high),
    }
}

// The signed number of two bytes at a place, with `ZERO` added to it.
fn short_at(b: &[u8], at: usize) -> u64
    ensures { at + 2 ≤ length b.now → result ≡ raised (signed 2 (be_at b.now at 2)) }
{
    if b.len() < 2 {
        return ZERO;
    }
    if b.len() - 2 < at {
        return ZERO;
    }
    let n = fields::be16(b, at) as u64;
    if n < 32768 {
        return ZERO + n;
    }
    ZERO - 65536 + n
}

// Of four bytes.
fn long_at(b: &[u8], at: usize) -> u64
    ensures { at + 4 ≤ length b.now → result ≡ raised (signed 4 (be_at b.now at 4)) }
{
    if b.len() < 4 {
        return ZERO;
    }
    if b.len() - 4 < at {
        return ZERO;
    }
    let n = fields::be32(b, at) as u64;
    if n < ZERO {
        return ZERO + n;
    }
    n - ZERO
}

// The offset of the input with a number from 0 in an overlay's body, in numbers of so many bytes.
pub fn offset_in(b: &[u8], bytes: usize, k: u32) -> Corner
    ensures x_value { bytes ≡ 2 → 18 + 4 * k ≤ length b.now →
        (result.x ≡ raised (signed 2 (be_at b.now (14 + 4 * k) 2))) ×
        (result.y ≡ raised (signed 2 (be_at b.now (16 + 4 * k) 2))) }
    ensures x_value_2 { bytes ≡ 4 → 26 + 8 * k ≤ length b.now →
        (result.x ≡ raised (signed 4 (be_at b.now (18 + 8 * k) 4))) ×
        (result.y ≡ raised (signed 4 (be_at b.now (22 + 8 * k) 4))) }
{
    let j = k as usize;
    if bytes == 2 {
        return Corner {
            x: short_at(b, 14 + 4 * j),
            y: short_at(b, 16 + 4 * j),
        };
    }
    Corner {
        x: long_at(b, 18 + 8 * j),
        y: long_at(b, 22 + 8 * j),
    }
}

// What is seen of a side: its first and last pixel.
#[derive(Clone, Copy)]
pub struct Span {
    pub from: u32,
    pub to: u32,
}

// What is seen of an input's side, which begins at a corner, between a first and a last pixel of its canvas.
fn span_of(first: u32, last: u32, corner: u64, side: u32) -> Option<Span>
    ensures { result ≡ span_of first last corner side }
{
    if side == 0 {
        return None;
    }
    let a = ZERO + first as u64;
    let z = ZERO + last as u64;
    if z < corner {
        return None;
    }
    let end = corner + side as u64;
    if end <= a {
        return None;
    }
    Some(Span {
        from: a.saturating_sub(corner) as u32,
        to: (z - corner).min(side as u64 - 1) as u32,
    })
}

fn seen_in(part: Part, corner: Corner, s: Size) -> Option<Part>
    ensures { result ≡ seen_in part corner s }
{
    let x = span_of(part.left, part.right, corner.x, s.wide)?;
    let y = span_of(part.top, part.bottom, corner.y, s.high)?;
    Some(Part {
        left: x.from,
        top: y.from,
        right: x.to,
        bottom: y.to,
    })
}

// What is seen of an input in a part of its canvas; where that is nothing and what is cut away is drawn too, what of it lies on the canvas.
pub fn seen_of(part: Part, canvas: Size, around: bool, corner: Corner, s: Size) -> Option<Part>
    ensures { result ≡ seen_of part canvas around corner s }
{
    match seen_in(part, corner, s) {
        Some(seen) => Some(seen),
        None if around => seen_in(whole(canvas), corner, s),
        None => None,
    }
}
