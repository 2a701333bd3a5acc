// The questions for C. `out` gets eight numbers (crate `out`).
#![tactic(auto)]

ghost use Rattle.std.specs.Prelude.{◌≡◌, List, ℕ, ◌<◌, length};
ghost use Rattle.rules.specs.Opening.{after};
ghost use Rattle.questions.specs.Questions as Q;
ghost use Rattle.asked.specs.Told.{told_asked};
ghost use Rattle.out.specs.Out.{out_part};
ghost use Rattle.still.specs.Told.{index_of};
ghost use Rattle.still_c.specs.Given.{
  VerdictGiven,
  SizeGiven,
  TraceGiven,
  PointsGiven,
  SourcesGiven,
  PropertyGiven,
  OrientationGiven,
  TransformsGiven,
  BodyGiven,
};

use boxes::Refusal;
use pictures::Point;
use table::{ItemId, PropertyIndex};

// Whether the file is accepted.
#[unsafe(no_mangle)]
pub extern "C" fn still_verdict(head: &[u8], total: u64, table: &mut [u32], out: &mut [u64; 8])
    ensures { VerdictGiven head.now total table.old out.new table.new }
{
    let v = still::verdict(head, total, table);
    *out = out::verdict_numbers(v);
}

// The sizes and the depth of an item.
#[unsafe(no_mangle)]
pub extern "C" fn still_size(
    head: &[u8],
    total: u64,
    table: &mut [u32],
    item: u32,
    out: &mut [u64; 8],
)
    ensures { SizeGiven head.now total table.old item out.new table.new }
{
    let s = still::size(head, total, table, ItemId(item));
    *out = out::sized_numbers(s);
}

// Where the output pixel (x, y) of an item comes from.
#[unsafe(no_mangle)]
pub extern "C" fn still_trace(
    head: &[u8],
    total: u64,
    table: &mut [u32],
    item: u32,
    x: u32,
    y: u32,
    out: &mut [u64; 8],
)
    ensures { TraceGiven head.now total table.old item x y out.new table.new }
{
    let t = still::trace(head, total, table, ItemId(item), Point { x, y });
    *out = out::traced_numbers(t);
}

// Where many output pixels of an item come from, each answered in its record of nine numbers.
#[unsafe(no_mangle)]
pub extern "C" fn still_points(
    head: &[u8],
    total: u64,
    table: &mut [u32],
    item: u32,
    points: &mut [[u32; 9]],
    out: &mut [u64; 8],
)
    ensures { PointsGiven head.now total table.old item points.old
        out.new points.new table.new }
{
    let f = still::point_numbers(head, total, table, ItemId(item), points);
    *out = out::points_numbers(f);
}

// The coded items that an item needs, into `list`.
#[unsafe(no_mangle)]
pub extern "C" fn still_sources(
    head: &[u8],
    total: u64,
    table: &mut [u32],
    item: u32,
    list: &mut [u32],
    out: &mut [u64; 8],
)
    ensures { SourcesGiven head.now total table.old item list.old
        out.new list.new table.new }
{
    let l = still::sources(head, total, table, ItemId(item), list);
    *out = out::listed_numbers(l);
}

// The offset and the length of the property box that was asked for, of any file.
fn property_numbers(table: &[u32], a: Result<PropertyIndex, Refusal>) -> [u64; 8]
    ensures { (total : ℕ) (head lent : List ℕ) (item k : ℕ) → total < 18446744073709551616 →
        a ≡ told_asked (index_of (length lent) total head item k) → table.now ≡ after total head lent →
        result ≡ out_part (Q.property (length lent) total head item k) }
{
    match a {
        Err(f) => out::refused_numbers(f),
        Ok(index) => out::part_numbers(table, index),
    }
}

// Where the property box k of an item lies in the head.
#[unsafe(no_mangle)]
pub extern "C" fn still_property(
    head: &[u8],
    total: u64,
    table: &mut [u32],
    item: u32,
    k: u32,
    out: &mut [u64; 8],
)
    ensures { PropertyGiven head.now total table.old item k out.new table.new }
{
    let a = still::property_asked(head, total, table, ItemId(item), k);
    *out = property_numbers(&*table, a);
}

// The orientation of an item.
#[unsafe(no_mangle)]
pub extern "C" fn still_orientation(
    head: &[u8],
    total: u64,
    table: &mut [u32],
    item: u32,
    out: &mut [u64; 8],
)
    ensures { OrientationGiven head.now total table.old item out.new table.new }
{
    let o = still::orientation(head, total, table, ItemId(item));
    *out = out::oriented_numbers(o);
}

// The transforms of an orientation.
#[unsafe(no_mangle)]
pub extern "C" fn still_transforms(orientation: u32, out: &mut [u64; 8])
    ensures { TransformsGiven orientation out.new }
{
    let l = still::transforms(orientation);
    *out = out::transforms_numbers(l);
}

// The joined body of an item, into `buffer`.
#[unsafe(no_mangle)]
pub extern "C" fn still_body(
    head: &[u8],
    total: u64,
    table: &mut [u32],
    item: u32,
    buffer: &mut [u8],
    out: &mut [u64; 8],
)
    ensures { BodyGiven head.now total table.old item buffer.old out.new
        buffer.new table.new }
{
    let b = still::body(head, total, table, ItemId(item), buffer);
    *out = out::bodied_numbers(b);
}
