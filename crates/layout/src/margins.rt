// What was cut away around a picture.
ghost use Rattle.std.specs.Prelude.{◌≡◌, ◌+◌, ◌-◌, ◌≤◌};
ghost use Rattle.pictures.specs.Turn.{Fits};
ghost use Rattle.pictures.specs.declared.Turn.TheVariants.{Crop};
ghost use Rattle.layout.specs.inner.Margins.{margins, margins_after};

use pictures::{Size, Turn};

// How much was cut away at each side of a picture.
#[derive(Clone, Copy)]
pub struct Margins {
    pub left: u32,
    pub top: u32,
    pub right: u32,
    pub bottom: u32,
}

fn margins_of(left: u32, top: u32, right: u32, bottom: u32) -> Margins
    ensures { result ≡ margins left top right bottom }
{
    Margins {
        left,
        top,
        right,
        bottom,
    }
}

// A margin to which so much is added. It wraps where no picture is.
fn wider(margin: u32, more: u32) -> u32
    ensures { margin + more ≤ 65535 → result ≡ margin + more }
{
    margin.wrapping_add(more)
}

// What of a side lies behind a part of it.
fn behind(side: u32, from: u32, part: u32) -> u32
    ensures { from + part ≤ side → result ≡ side - (from + part) }
{
    side.wrapping_sub(from).wrapping_sub(part)
}

// A picture of size s before what lies in its margins was cut away.
pub fn uncut(s: Size, m: Margins) -> Size
    ensures { m.left + s.wide + m.right ≤ 65535 → m.top + s.high + m.bottom ≤ 65535 →
        (result.wide ≡ m.left + s.wide + m.right) × (result.high ≡ m.top + s.high + m.bottom) }
{
    Size {
        wide: wider(wider(m.left, s.wide), m.right),
        high: wider(wider(m.top, s.high), m.bottom),
    }
}

// The margins of a picture of size s, which has margins m, after a crop.
fn cropped(s: Size, m: Margins, left: u32, top: u32, wide: u32, high: u32) -> Margins
    ensures { left + wide ≤ s.wide → top + high ≤ s.high → m.left + s.wide + m.right ≤ 65535 →
        m.top + s.high + m.bottom ≤ 65535 → result ≡ margins_after (Crop left top wide high) s m }
{
    Margins {
        left: wider(m.left, left),
        top: wider(m.top, top),
        right: wider(m.right, behind(s.wide, left, wide)),
        bottom: wider(m.bottom, behind(s.high, top, high)),
    }
}

// After any transform.
pub fn margins_after(t: Turn, s: Size, m: Margins) -> Margins
    ensures { Fits t s → m.left + s.wide + m.right ≤ 65535 → m.top + s.high + m.bottom ≤ 65535 → result ≡ margins_after t s m }
{
    match t {
        Turn::Stay => m,
        Turn::Left => margins_of(m.top, m.right, m.bottom, m.left),
        Turn::Half => margins_of(m.right, m.bottom, m.left, m.top),
        Turn::Right => margins_of(m.bottom, m.left, m.top, m.right),
        Turn::FlipX => margins_of(m.right, m.top, m.left, m.bottom),
        Turn::FlipY => margins_of(m.left, m.bottom, m.right, m.top),
        Turn::Crop {
            left,
            top,
            wide,
            high,
        } => cropped(s, m, left, top, wide, high),
        Turn::Misfit => m,
    }
}
