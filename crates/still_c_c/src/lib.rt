// The archive for C: the questions of `still_c` under the same names. A crate is a library or a static library, and what
// others build on is the library.
#![tactic(auto)]

ghost use Rattle.still_c.specs.Given.{
  VerdictGiven,
  SizeGiven,
  TraceGiven,
  PointsGiven,
  SourcesGiven,
  PropertyGiven,
  OrientationGiven,
  TransformsGiven,
  BodyGiven,
};

// Whether the file is accepted.
#[unsafe(no_mangle)]
pub extern "C" fn still_verdict(head: &[u8], total: u64, table: &mut [u32], out: &mut [u64; 8])
    ensures { VerdictGiven head.now total table.old out.new table.new }
{
    still_c::still_verdict(head, total, table, out);
}

// The sizes and the depth of an item.
#[unsafe(no_mangle)]
pub extern "C" fn still_size(
    head: &[u8],
    total: u64,
    table: &mut [u32],
    item: u32,
    out: &mut [u64; 8],
)
    ensures { SizeGiven head.now total table.old item out.new table.new }
{
    still_c::still_size(head, total, table, item, out);
}

// Where the output pixel (x, y) of an item comes from.
#[unsafe(no_mangle)]
pub extern "C" fn still_trace(
    head: &[u8],
    total: u64,
    table: &mut [u32],
    item: u32,
    x: u32,
    y: u32,
    out: &mut [u64; 8],
)
    ensures { TraceGiven head.now total table.old item x y out.new table.new }
{
    still_c::still_trace(head, total, table, item, x, y, out);
}

// Where many output pixels of an item come from, each answered in its record of nine numbers.
#[unsafe(no_mangle)]
pub extern "C" fn still_points(
    head: &[u8],
    total: u64,
    table: &mut [u32],
    item: u32,
    points: &mut [[u32; 9]],
    out: &mut [u64; 8],
)
    ensures { PointsGiven head.now total table.old item points.old
        out.new points.new table.new }
{
    still_c::still_points(head, total, table, item, points, out);
}

// The coded items that an item needs, into `list`.
#[unsafe(no_mangle)]
pub extern "C" fn still_sources(
    head: &[u8],
    total: u64,
    table: &mut [u32],
    item: u32,
    list: &mut [u32],
    out: &mut [u64; 8],
)
    ensures { SourcesGiven head.now total table.old item list.old
        out.new list.new table.new }
{
    still_c::still_sources(head, total, table, item, list, out);
}

// Where the property box k of an item lies in the head.
#[unsafe(no_mangle)]
pub extern "C" fn still_property(
    head: &[u8],
    total: u64,
    table: &mut [u32],
    item: u32,
    k: u32,
    out: &mut [u64; 8],
)
    ensures { PropertyGiven head.now total table.old item k out.new table.new }
{
    still_c::still_property(head, total, table, item, k, out);
}

// The orientation of an item.
#[unsafe(no_mangle)]
pub extern "C" fn still_orientation(
    head: &[u8],
    total: u64,
    table: &mut [u32],
    item: u32,
    out: &mut [u64; 8],
)
    ensures { OrientationGiven head.now total table.old item out.new table.new }
{
    still_c::still_orientation(head, total, table, item, out);
}

// The transforms of an orientation.
#[unsafe(no_mangle)]
pub extern "C" fn still_transforms(orientation: u32, out: &mut [u64; 8])
    ensures { TransformsGiven orientation out.new }
{
    still_c::still_transforms(orientation, out);
}

// The joined body of an item, into `buffer`.
#[unsafe(no_mangle)]
pub extern "C" fn still_body(
    head: &[u8],
    total: u64,
    table: &mut [u32],
    item: u32,
    buffer: &mut [u8],
    out: &mut [u64; 8],
)
    ensures { BodyGiven head.now total table.old item buffer.old out.new
        buffer.new table.new }
{
    still_c::still_body(head, total, table, item, buffer, out);
}
