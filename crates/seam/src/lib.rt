// Many points of one picture at once, asked of the table of an accepted file (document 02, Q-4).
#![tactic(auto)]

ghost use Rattle.std.specs.Prelude.{◌≡◌, List, ◌∷◌, map, ◌⊎◌, ℕ, ◌≤◌, length, get_or};
ghost use Rattle.boxes.specs.Answer.{Answer, ok};
ghost use Rattle.contents.specs.File.{File};
ghost use Rattle.rules.specs.Places.{Places};
ghost use Rattle.rules.specs.Derivations.{scene_of};
ghost use Rattle.rules.specs.Opening.{pictured};
ghost use Rattle.questions.specs.Questions.{trace_in};
ghost use Rattle.questions.specs.Questions as Q;
ghost use Rattle.views.specs.inner.View.{TableOf};
ghost use Rattle.tracing.specs.inner.Told.{Shown};
ghost use Rattle.traced.specs.Told.{told_traced};
ghost use Rattle.seam.specs.Points.{points_in, single_trace, answered, told_points_filled};
ghost use Rattle.seam.specs.Numbers.{found_numbers, answered_numbers, numbers_after};
ghost use Rattle.seam.specs.inner.Hand.{AtHand, count_of, answered_to, PlaceFits};

use boxes::Refusal;
use pictures::Point;
use table::{ItemId, ItemRow};
use traced::Traced;

// A point, and room for its answer.
#[derive(Clone, Copy)]
pub struct PointRecord {
    pub x: u32,
    pub y: u32,
    pub answer: Result<Traced, Refusal>,
}

// How many of n points of an item are answered, all of them: 21, 22, then 28.
pub fn points_in(table: &[u32], id: ItemId, n: usize) -> Result<u32, Refusal>
    ensures { (head : List ℕ) (pl : Places) (f : File) → TableOf table.now head pl f → result ≡ told_points_filled (points_in f id.0 n) }
{
    asked::picture_row(table, id)?;
    if 512 < n {
        return Err(asked::refusal(28, id));
    }
    Ok(n as u32)
}

// How many records are to be filled.
#[tactic(auto, unfolding(crate::specs::inner::Hand::count_of))]
pub fn count_of(f: Result<u32, Refusal>) -> usize
    ensures { result ≡ count_of f }
{
    match f {
        Ok(n) => n as usize,
        Err(_) => 0,
    }
}

// One point answered. `total` is not read: the promise speaks of it.
pub fn answer(
    head: &[u8],
    total: u64,
    table: &[u32],
    rows: &[u32],
    id: ItemId,
    r: PointRecord,
) -> PointRecord
    requires { AtHand head.now total table.now rows.now }
    ensures { result ≡ answered (single_trace (length table.now) total head.now id.0) r }
{
    let p = Point { x: r.x, y: r.y };
    PointRecord {
        x: r.x,
        y: r.y,
        answer: traced::trace_in(head, table, rows, id, p),
    }
}

// The first n points answered, in order.
pub fn answer_all(
    head: &[u8],
    total: u64,
    table: &[u32],
    rows: &[u32],
    id: ItemId,
    n: usize,
    points: &mut [PointRecord],
)
    requires { (n ≤ length points.old) × ((n ≡ 0) ⊎ AtHand head.now total table.now rows.now) }
    ensures { points.new ≡ answered_to
        (answered (single_trace (length table.now) total head.now id.0)) n points.old }
{
    for r in &mut points[..n] {
        *r = answer(head, total, table, rows, id, *r);
    }
}

// The nine numbers of a record with its answer: x and y stay. The place of a refusal is the asked ID, which has 32 bits.
fn numbers_with(r: [u32; 9], t: Result<Traced, Refusal>) -> [u32; 9]
    ensures { (m : Answer Q.Found) → t ≡ told_traced m → PlaceFits m → result ≡ get_or r 0 0 ∷ get_or r 1 0 ∷ found_numbers m }
{
    match t {
        Ok(Traced::Pixel { item, x, y, passed }) => [r[0], r[1], 0, 0, 1, item.0, x, y, passed],
        Ok(Traced::Fill { item, x, y, passed }) => [r[0], r[1], 0, 0, 2, item.0, x, y, passed],
        Err(f) => [
            r[0],
            r[1],
            f.number,
            (f.place % 4294967296) as u32,
            0,
            0,
            0,
            0,
            0,
        ],
    }
}

// The points of the picture in a row, that of the asked ID, answered in order, as records of nine numbers.
pub fn answer_numbers(
    head: &[u8],
    table: &[u32],
    rows: &[u32],
    id: ItemId,
    row: ItemRow,
    points: &mut [[u32; 9]],
)
    ensures { (total : ℕ) (f : File) → Shown table.now rows.now head.now total f →
        pictured f id.0 ≡ ok row.0 → points.new ≡
        map (answered_numbers (λ p. trace_in (scene_of total head.now f) f id.0 p)) points.old }
{
    for r in points.iter_mut() {
        let p = Point { x: r[0], y: r[1] };
        *r = numbers_with(*r, traced::trace_at(head, table, rows, id, row, p));
    }
}

// The same of an item: 21, 22, then 28; where one of them refuses, no record is touched.
pub fn numbers_in(
    head: &[u8],
    table: &[u32],
    rows: &[u32],
    id: ItemId,
    points: &mut [[u32; 9]],
) -> Result<u32, Refusal>
    ensures { (total : ℕ) (f : File) → Shown table.now rows.now head.now total f →
        (result ≡ told_points_filled (points_in f id.0 (length points.old))) × (points.new ≡
        numbers_after (points_in f id.0 (length points.old))
        (λ p. trace_in (scene_of total head.now f) f id.0 p) points.old) }
{
    let count = points.len();
    let row = asked::picture_row(table, id)?;
    if 512 < count {
        return Err(asked::refusal(28, id));
    }
    answer_numbers(head, table, rows, id, row, points);
    Ok(count as u32)
}
