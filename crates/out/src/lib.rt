// The answers as eight numbers, for C: a refusal's number and place, or 0 and 0 and then the answer's values; the rest is 0.
#![tactic(auto)]

ghost use Rattle.std.specs.Prelude.{◌≡◌, List, ◌++◌, ℕ, ◌≤◌, length};
ghost use Rattle.boxes.specs.Answer.{Answer, ok};
ghost use Rattle.contents.specs.File.{File};
ghost use Rattle.rules.specs.Places.{places_in};
ghost use Rattle.rules.specs.Words.{words_with};
ghost use Rattle.questions.specs.Questions.{part_of};
ghost use Rattle.questions.specs.Questions as Q;
ghost use Rattle.records.specs.inner.Raw.{Bounded};
ghost use Rattle.asked.specs.Told.{told_verdict, told_sized};
ghost use Rattle.traced.specs.Told.{told_traced};
ghost use Rattle.seam.specs.Points.{told_points_filled};
ghost use Rattle.sourced.specs.Told.{told_listed};
ghost use Rattle.bodied.specs.Told.{told_bodied};
ghost use Rattle.facing.specs.Orientation as Orientation;
ghost use Rattle.facing.specs.Told.{told_oriented, told_transform, told_transforms};
ghost use Rattle.out.specs.Out.{
  out_refused,
  out_verdict,
  out_sized,
  out_traced,
  out_points,
  out_listed,
  out_part,
  out_orientation,
  kind_number,
  value_in,
  out_transforms,
  out_bodied,
};

use asked::{Sizes, Verdict};
use boxes::Refusal;
use facing::{Transform, TransformList};
use table::{PropertyIndex, Table};
use traced::Traced;

// Number and place of a refusal.
pub fn refused_numbers(f: Refusal) -> [u64; 8]
    ensures { result ≡ out_refused f.number f.place }
{
    [f.number as u64, f.place, 0, 0, 0, 0, 0, 0]
}

// Item count, primary item.
pub fn verdict_numbers(v: Result<Verdict, Refusal>) -> [u64; 8]
    ensures { (m : Answer Q.Verdict) → v ≡ told_verdict m → result ≡ out_verdict m }
{
    match v {
        Err(f) => refused_numbers(f),
        Ok(a) => [0, 0, a.items as u64, a.primary.0 as u64, 0, 0, 0, 0],
    }
}

// Reconstructed width and height, output width and height, depth.
pub fn sized_numbers(s: Result<Sizes, Refusal>) -> [u64; 8]
    ensures { (m : Answer Q.Sized) → s ≡ told_sized m → result ≡ out_sized m }
{
    match s {
        Err(f) => refused_numbers(f),
        Ok(a) => [
            0,
            0,
            a.wide as u64,
            a.high as u64,
            a.output_wide as u64,
            a.output_high as u64,
            a.depth as u64,
            0,
        ],
    }
}

// 1 for a pixel or 2 for a fill, then the item, x and y there, and the items passed.
pub fn traced_numbers(t: Result<Traced, Refusal>) -> [u64; 8]
    ensures { (m : Answer Q.Found) → t ≡ told_traced m → result ≡ out_traced m }
{
    match t {
        Err(f) => refused_numbers(f),
        Ok(Traced::Pixel { item, x, y, passed }) => {
            [0, 0, 1, item.0 as u64, x as u64, y as u64, passed as u64, 0]
        }
        Ok(Traced::Fill { item, x, y, passed }) => {
            [0, 0, 2, item.0 as u64, x as u64, y as u64, passed as u64, 0]
        }
    }
}

// How many records were filled.
pub fn points_numbers(f: Result<u32, Refusal>) -> [u64; 8]
    ensures { (m : Answer ℕ) → f ≡ told_points_filled m → result ≡ out_points m }
{
    match f {
        Err(x) => refused_numbers(x),
        Ok(records) => [0, 0, records as u64, 0, 0, 0, 0, 0],
    }
}

// How many IDs were written.
pub fn listed_numbers(l: Result<usize, Refusal>) -> [u64; 8]
    ensures { (m : Answer (List ℕ)) → l ≡ told_listed m → result ≡ out_listed m }
{
    match l {
        Err(f) => refused_numbers(f),
        Ok(ids) => [0, 0, ids as u64, 0, 0, 0, 0, 0],
    }
}

// The offset and the length of a property's box, by its record in the table of an accepted file, whatever the order of the
// items' records in it; 0 and 0 for index 0.
pub fn part_numbers(table: &[u32], index: PropertyIndex) -> [u64; 8]
    ensures { (total : ℕ) (head records x : List ℕ) (f : File) →
        table.now ≡ words_with records total head f ++ x →
        length records ≤ 4096 → Bounded f → index.0 ≤ length f.properties →
        result ≡ out_part (ok (part_of (places_in total head) f index.0)) }
{
    let k = index.0;
    if k == 0 {
        return [0; 8];
    }
    let w = Table::PROPERTIES + Table::PROPERTY_WORDS * ((k - 1) as usize);
    let offset = table::word(table, w + 1);
    let size = table::word(table, w + 2);
    [0, 0, offset as u64, size as u64, 0, 0, 0, 0]
}

// The number of 1 to 8.
pub fn oriented_numbers(o: Result<u32, Refusal>) -> [u64; 8]
    ensures { (m : Answer ℕ) → o ≡ told_oriented m → result ≡ out_orientation m }
{
    match o {
        Err(f) => refused_numbers(f),
        Ok(n) => [0, 0, n as u64, 0, 0, 0, 0, 0],
    }
}

// 1 for an `irot`, 2 for an `imir`.
fn kind_number(t: Transform) -> u64
    ensures { (x : Orientation.Transform) → t ≡ told_transform x → result ≡ kind_number x }
{
    match t {
        Transform::Irot(_) => 1,
        Transform::Imir(_) => 2,
    }
}

// The value that its box holds.
fn value_in(t: Transform) -> u64
    ensures { (x : Orientation.Transform) → t ≡ told_transform x → result ≡ value_in x }
{
    match t {
        Transform::Irot(a) => a as u64,
        Transform::Imir(a) => a as u64,
    }
}

// How many, then kind and value of each.
pub fn transforms_numbers(l: Result<TransformList, Refusal>) -> [u64; 8]
    ensures { (m : Answer (List Orientation.Transform)) → l ≡ told_transforms m → result ≡ out_transforms m }
{
    match l {
        Err(f) => refused_numbers(f),
        Ok(TransformList::None) => [0; 8],
        Ok(TransformList::One(a)) => [0, 0, 1, kind_number(a), value_in(a), 0, 0, 0],
        Ok(TransformList::Two(a, b)) => {
            [
                0,
                0,
                2,
                kind_number(a),
                value_in(a),
                kind_number(b),
                value_in(b),
                0,
            ]
        }
    }
}

// The length of the body.
pub fn bodied_numbers(b: Result<usize, Refusal>) -> [u64; 8]
    ensures { (a : Answer (List ℕ)) → b ≡ told_bodied a → result ≡ out_bodied a }
{
    match b {
        Err(f) => refused_numbers(f),
        Ok(n) => [0, 0, n as u64, 0, 0, 0, 0, 0],
    }
}
