// The public questions. Each call reads the file afresh; a table that was lent is the file's afterwards, or all 0 where
// the file is refused. Each is thin: the file is opened (crate `opening`), then its table is asked (`asked`, `traced`,
// `seam`, `sourced`, `facing`, `bodied`).
#![tactic(auto)]

ghost use Rattle.std.specs.Prelude.{◌≡◌, ◌⊎◌, List, ℕ, ◌≤◌, ◌<◌, length};
ghost use Rattle.rules.specs.Opening.{after, file_after};
ghost use Rattle.bodied.specs.Body.{room_left};
ghost use Rattle.bodied.specs.Body as Body;
ghost use Rattle.bodied.specs.Told.{told_bodied};
ghost use Rattle.seam.specs.Points as Points;
ghost use Rattle.seam.specs.inner.Hand.{AtHand, count_of};
ghost use Rattle.still.specs.Given.{
  VerdictGiven,
  SizeGiven,
  TraceGiven,
  SourcesGiven,
  OrientationGiven,
  TransformsGiven,
  AskedGiven,
  PropertyGiven,
  PartPlaced,
  PointsGiven,
  PointNumbersGiven,
  BodyGiven,
};
ghost use Rattle.still.specs.inner.Read.{OrderGiven, AskedRead, PropertyRead};

use asked::{Sizes, Verdict};
use boxes::Refusal;
use facing::TransformList;
use pictures::Point;
use seam::PointRecord;
use table::{ItemId, PropertyIndex, Table};
use traced::Traced;

// Whether the file is accepted, with its item count and primary item ID.
pub fn verdict(head: &[u8], total: u64, table: &mut [u32]) -> Result<Verdict, Refusal>
    ensures { VerdictGiven head.now total table.old result table.new }
{
    let mut rows = [0u32; 2816];
    let o = opening::open_rows(head, total, &mut *table, &mut rows);
    let answer = match o {
        Err(f) => Err(f),
        Ok(()) => asked::verdict_in(&*table),
    };
    arranged::arrange(table, &rows);
    answer
}

// Reconstructed and output width and height, and the depth, of an item.
pub fn size(head: &[u8], total: u64, table: &mut [u32], id: ItemId) -> Result<Sizes, Refusal>
    ensures { SizeGiven head.now total table.old id.0 result table.new }
{
    let mut rows = [0u32; 2816];
    let o = opening::open_rows(head, total, &mut *table, &mut rows);
    let answer = match o {
        Err(refusal) => Err(refusal),
        Ok(()) => asked::size_in(&*table, id),
    };
    arranged::arrange(table, &rows);
    answer
}

// Pixel or fill, item ID, x and y there, and the items passed, for the output pixel p of an item.
pub fn trace(
    head: &[u8],
    total: u64,
    table: &mut [u32],
    id: ItemId,
    p: Point,
) -> Result<Traced, Refusal>
    ensures { TraceGiven head.now total table.old id.0 p result table.new }
{
    let mut rows = [0u32; 2816];
    let o = opening::open_rows(head, total, &mut *table, &mut rows);
    let answer = match o {
        Err(f) => Err(f),
        Ok(()) => traced::trace_in(head, &*table, &rows, id, p),
    };
    arranged::arrange(table, &rows);
    answer
}

// The same with records of nine numbers, as C lends them.
pub fn point_numbers(
    head: &[u8],
    total: u64,
    table: &mut [u32],
    id: ItemId,
    points: &mut [[u32; 9]],
) -> Result<u32, Refusal>
    ensures { PointNumbersGiven head.now total table.old id.0 points.old result
        points.new table.new }
{
    let mut rows = [0u32; 2816];
    let o = opening::open_rows(head, total, &mut *table, &mut rows);
    let answer = match o {
        Err(f) => Err(f),
        Ok(()) => seam::numbers_in(head, &*table, &rows, id, points),
    };
    arranged::arrange(table, &rows);
    answer
}

// The IDs of all coded items that an item needs, each once, in table order, into a lent list.
pub fn sources(
    head: &[u8],
    total: u64,
    table: &mut [u32],
    id: ItemId,
    list: &mut [u32],
) -> Result<usize, Refusal>
    ensures { SourcesGiven head.now total table.old id.0 list.old result list.new table.new }
{
    let mut rows = [0u32; 2816];
    let o = opening::open_rows(head, total, &mut *table, &mut rows);
    let answer = match o {
        Err(f) => Err(f),
        Ok(()) => sourced::sources_in(&*table, &rows, id, list),
    };
    arranged::arrange(table, &rows);
    answer
}

// The number of 1 to 8 that says what the transforms of an item do.
pub fn orientation(head: &[u8], total: u64, table: &mut [u32], id: ItemId) -> Result<u32, Refusal>
    ensures { OrientationGiven head.now total table.old id.0 result table.new }
{
    let mut rows = [0u32; 2816];
    let o = opening::open_rows(head, total, &mut *table, &mut rows);
    let answer = match o {
        Err(f) => Err(f),
        Ok(()) => facing::orientation_in(head, &*table, id),
    };
    arranged::arrange(table, &rows);
    answer
}

// The shortest list of transforms that does what an orientation says: 27 where it is none of 1 to 8. No file is read.
pub fn transforms(orientation: u32) -> Result<TransformList, Refusal>
    ensures { TransformsGiven orientation result }
{
    facing::transforms_for(orientation)
}

// Which property is asked for, the records still in the order of `iinf`.
fn index_read(
    head: &[u8],
    total: u64,
    table: &mut [u32],
    rows: &mut [u32],
    id: ItemId,
    k: u32,
) -> Result<PropertyIndex, Refusal>
    requires { 2816 ≤ length rows.old }
    ensures asked_read { AskedRead head.now total table.old id.0 k result table.new }
    ensures order_given { OrderGiven head.now total table.old rows.new }
{
    opening::open_rows(head, total, table, rows)?;
    asked::property_index(&*table, id, k)
}

// Which property is asked for, of any file.
pub fn property_asked(
    head: &[u8],
    total: u64,
    table: &mut [u32],
    id: ItemId,
    k: u32,
) -> Result<PropertyIndex, Refusal>
    ensures { AskedGiven head.now total table.old id.0 k result table.new }
{
    let mut rows = [0u32; 2816];
    let answer = index_read(head, total, &mut *table, &mut rows, id, k);
    arranged::arrange(table, &rows);
    answer
}

// The property box of an item, the records still in the order of `iinf`.
fn part_read<'a>(
    head: &'a [u8],
    total: u64,
    table: &mut [u32],
    rows: &mut [u32],
    id: ItemId,
    k: u32,
    told: &mut [u64; 2],
) -> &'a [u8]
    requires { 2816 ≤ length rows.old }
    ensures property_read { PropertyRead head.now total table.old id.0 k result.now told.new
        table.new }
    ensures part_placed { PartPlaced head.now total table.old head.entry.ref_ptr result.ref_ptr id.0 k }
    ensures order_given { OrderGiven head.now total table.old rows.new }
{
    let a = index_read(head, total, &mut *table, rows, id, k);
    match a {
        Err(f) => {
            *told = [f.number as u64, f.place];
            &head[..0]
        }
        Ok(index) => {
            *told = [0, 0];
            views::property_box(head, &*table, index)
        }
    }
}

// The property box of an item, header included, as a part of the caller's own head. `told` is left with the number and
// the place of a refusal, 0 and 0 where there is none: an empty part alone may also be the answer for index 0.
pub fn property<'a>(
    head: &'a [u8],
    total: u64,
    table: &mut [u32],
    id: ItemId,
    k: u32,
    told: &mut [u64; 2],
) -> &'a [u8]
    ensures property_given { PropertyGiven head.now total table.old id.0 k result.now told.new
        table.new }
    ensures part_placed { PartPlaced head.now total table.old head.entry.ref_ptr result.ref_ptr id.0 k }
{
    let mut rows = [0u32; 2816];
    let part = part_read(head, total, &mut *table, &mut rows, id, k, told);
    arranged::arrange(table, &rows);
    part
}

// Opens the file, and tells how many of n points are to be answered: 1 to 22, then 28.
fn ready(
    head: &[u8],
    total: u64,
    table: &mut [u32],
    rows: &mut [u32],
    id: ItemId,
    n: usize,
) -> Result<u32, Refusal>
    requires { 2816 ≤ length rows.old }
    ensures value { (result ≡ Points.told_points_filled (Points.points (length table.old) total head.now id.0 n))
        × ((table.new ≡ file_after total head.now table.old)
        × ((count_of result ≡ 0) ⊎ AtHand head.now total table.new rows.new)) }
    ensures order_given { OrderGiven head.now total table.old rows.new }
{
    opening::open_rows(head, total, table, rows)?;
    seam::points_in(&*table, id, n)
}

// Many points of an item at once, each answered in its own record as a single trace would answer it.
pub fn points(
    head: &[u8],
    total: u64,
    table: &mut [u32],
    id: ItemId,
    points: &mut [PointRecord],
) -> Result<u32, Refusal>
    ensures { PointsGiven head.now total table.old id.0 points.old result points.new table.new }
{
    let mut rows = [0u32; 2816];
    let filled = ready(head, total, &mut *table, &mut rows, id, points.len());
    let n = seam::count_of(filled);
    seam::answer_all(head, total, &*table, &rows, id, n, points);
    arranged::arrange(table, &rows);
    filled
}

// 1, or 31: a buffer that is too short for some body.
fn short_buffer(table: &mut [u32], id: ItemId) -> Result<usize, Refusal>
    ensures { (total : ℕ) (head : List ℕ) (room : ℕ) → room < 16402 →
        (result ≡ told_bodied (Body.body (length table.old) room total head id.0)) ×
        (table.new ≡ room_left after room total head table.old) }
{
    if table.len() < Table::WORDS {
        return Err(Refusal {
            number: 1,
            place: 0,
        });
    }
    table::clear(table);
    Err(asked::refusal(31, id))
}

// The joined body of an item into a lent buffer, first in it and the rest as before: its length, 0 for a coded item and `iden`.
pub fn body(
    head: &[u8],
    total: u64,
    table: &mut [u32],
    id: ItemId,
    buffer: &mut [u8],
) -> Result<usize, Refusal>
    ensures { BodyGiven head.now total table.old id.0 buffer.old result buffer.new
        table.new }
{
    if buffer.len() < bodied::LONGEST {
        return short_buffer(table, id);
    }
    let mut rows = [0u32; 2816];
    let o = opening::open_rows(head, total, &mut *table, &mut rows);
    let answer = match o {
        Err(f) => Err(f),
        Ok(()) => bodied::body_in(head, &*table, &rows, id, buffer),
    };
    arranged::arrange(table, &rows);
    answer
}
