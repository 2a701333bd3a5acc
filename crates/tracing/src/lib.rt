// Traces: from an output pixel of a picture to one coded pixel or a fill.
#![tactic(auto)]

ghost use Rattle.std.specs.Prelude.{◌≡◌, ℕ, ◌+◌, ◌-◌, ◌*◌, ◌^◌, ◌<◌, ◌≤◌, true, false, ◌⊎◌, List, length, take, drop, nat_lt, slice_index};
ghost use Rattle.fields.specs.Field.{be_at};
ghost use Rattle.boxes.specs.Answer.{ok};
ghost use Rattle.boxes.specs.Types.{image, iden, grid, iovl};
ghost use Rattle.forms.specs.Form.{whole};
ghost use Rattle.contents.specs.File.{File};
ghost use Rattle.pictures.specs.Turn.{Inside, Fits, AllFit, size_after, size_through};
ghost use Rattle.pictures.specs.Turn as Turns;
ghost use Rattle.pictures.specs.Signed.{signed};
ghost use Rattle.pictures.specs.Decode.{transform, turns_of};
ghost use Rattle.pictures.specs.Recipe.{Grid, Offset, Overlay, Tiles, field_bytes, iovl_form};
ghost use Rattle.pictures.specs.Scene.{Scene, picture_at, output_of};
ghost use Rattle.pictures.specs.Trace.{on_side, along_side, source_of, layer_at, blank, traced, undo_turns};
ghost use Rattle.rules.specs.Joined.{associations_of, boxes_of, types_of, item_at};
ghost use Rattle.rules.specs.Places.{Places};
ghost use Rattle.rules.specs.Bytes.{body_of};
ghost use Rattle.rules.specs.Derivations.{scene_of};
ghost use Rattle.derived.specs.inner.Told.{Followed};
ghost use Rattle.views.specs.inner.View.{TableOf, SizesAre, id_of};
ghost use Rattle.tracing.specs.inner.Origins.{moved_by, coordinate, coordinate_at, origin, origin_at};
ghost use Rattle.tracing.specs.inner.Told.{Shown, OffsetsIn, first_transform, told_source, told_end};

use boxes::types::{GRID, IDEN, IOVL};
use pictures::{Point, Size, Turn};
use table::{ItemRow, Table};

// The first of an item's associations from j on that names a transform; how many there are where none does. No table of a
// file is shorter, and none has more associations: the tests in front spare the loop its own.
fn next_transform(table: &[u32], row: ItemRow, j: usize) -> usize
    ensures by_index { (head : List ℕ) (pl : Places) (f : File) → TableOf table.now head pl f →
        row.0 < length f.items → result ≡ j + first_transform (drop j (types_of f (id_of f row.0))) }
    ensures lower_bound { j ≤ result }
{
    if table.len() < Table::WORDS {
        return j;
    }
    let first = views::held_word(table, row, 3) as usize;
    let n = views::held_word(table, row, 4) as usize;
    if 2048 < first + n {
        return j;
    }
    for k in j..n {
        let index = (table[5136 + first + k] % 32768) as usize;
        if 1 <= index && index <= 256 && declared::is_transform(table[4108 + 4 * index]) {
            return k;
        }
    }
    j.max(n)
}

// A coordinate of the point that a pixel comes from: the pixel's x, or its y where `tall`, on from a number, or back from it.
#[derive(Clone, Copy)]
struct Coordinate {
    from: u32,
    back: bool,
    tall: bool,
}

// Where the pixels of a picture come from, both coordinates.
#[derive(Clone, Copy)]
struct Origin {
    x: Coordinate,
    y: Coordinate,
}

// A number and so far on, or back. It wraps where no pixel is.
fn moved(from: u32, back: bool, by: u32) -> u32
    ensures { result ≡ moved_by from back by }
{
    if back {
        return from.wrapping_sub(by);
    }
    from.wrapping_add(by)
}

fn coordinate_at(c: Coordinate, p: Point) -> u32
    ensures { result ≡ coordinate_at c p }
{
    if c.tall {
        return moved(c.from, c.back, p.y);
    }
    moved(c.from, c.back, p.x)
}

fn origin_at(o: Origin, p: Point) -> Point
    ensures { result ≡ origin_at o p }
{
    Point {
        x: coordinate_at(o.x, p),
        y: coordinate_at(o.y, p),
    }
}

fn on_from(from: u32, tall: bool) -> Coordinate
    ensures { result ≡ coordinate from false tall }
{
    Coordinate {
        from,
        back: false,
        tall,
    }
}

fn back_from(from: u32, tall: bool) -> Coordinate
    ensures { result ≡ coordinate from true tall }
{
    Coordinate {
        from,
        back: true,
        tall,
    }
}

fn origin_by(x: Coordinate, y: Coordinate) -> Origin
    ensures { result ≡ origin x y }
{
    Origin { x, y }
}

// Where the pixels come from that a transform has moved; the picture has the size s before it.
fn origin_of(t: Turn, s: Size) -> Origin
    ensures { (p : Point) → Fits t s → Inside (size_after t s) p → origin_at result p ≡ Turns.back t s p }
{
    let right = s.wide.wrapping_sub(1);
    let bottom = s.high.wrapping_sub(1);
    match t {
        Turn::Stay => origin_by(on_from(0, false), on_from(0, true)),
        Turn::Left => origin_by(back_from(right, true), on_from(0, false)),
        Turn::Half => origin_by(back_from(right, false), back_from(bottom, true)),
        Turn::Right => origin_by(on_from(0, true), back_from(bottom, false)),
        Turn::FlipX => origin_by(back_from(right, false), on_from(0, true)),
        Turn::FlipY => origin_by(on_from(0, false), back_from(bottom, true)),
        Turn::Crop {
            left,
            top,
            wide: _,
            high: _,
        } => origin_by(on_from(left, false), on_from(top, true)),
        Turn::Misfit => origin_by(on_from(0, false), on_from(0, true)),
    }
}

// A coordinate that goes by another one, which goes by a pixel.
fn coordinate_by(c: Coordinate, other: Coordinate) -> Coordinate
    ensures { (p : Point) → p.x < 4294967296 → p.y < 4294967296 →
        coordinate_at result p ≡ moved_by c.from c.back (coordinate_at other p) }
{
    Coordinate {
        from: moved(c.from, c.back, other.from),
        back: c.back != other.back,
        tall: other.tall,
    }
}

// A coordinate by the pixel of a picture whose pixels come from elsewhere.
fn coordinate_through(c: Coordinate, o: Origin) -> Coordinate
    ensures { (p : Point) → p.x < 4294967296 → p.y < 4294967296 → coordinate_at result p ≡ coordinate_at c (origin_at o p) }
{
    if c.tall {
        return coordinate_by(c, o.y);
    }
    coordinate_by(c, o.x)
}

// Where the pixels come from through two pictures.
fn origin_through(o: Origin, other: Origin) -> Origin
    ensures { (p : Point) → p.x < 4294967296 → p.y < 4294967296 → origin_at result p ≡ origin_at o (origin_at other p) }
{
    origin_by(
        coordinate_through(o.x, other),
        coordinate_through(o.y, other),
    )
}

// The point that p comes from through an item's transforms from association j on, which is one. The picture has the size s
// before them. Where its pixels come from is put together from the first transform on, in one loop: a call for each of them
// would take as much stack as there are.
fn undone_each(head: &[u8], table: &[u32], row: ItemRow, j: usize, s: Size, p: Point) -> Point
    ensures { (pl : Places) (f : File) → TableOf table.now head.now pl f →
        row.0 < length f.items → j < length (associations_of f (id_of f row.0)) →
        transform (slice_index (types_of f (id_of f row.0)) j) ≡ true →
        AllFit (turns_of s (drop j (boxes_of f (id_of f row.0)))) s →
        Inside (size_through (turns_of s (drop j (boxes_of f (id_of f row.0)))) s) p →
        result ≡ Turns.undone (turns_of s (drop j (boxes_of f (id_of f row.0)))) s p }
{
    let n = declared::property_count(table, row);
    let mut origin = origin_by(on_from(0, false), on_from(0, true));
    let mut size = s;
    let mut k = j;
    // A while: each step goes to the next transform.
    while k < n {
        let kind = declared::kind_of(table, row, k);
        let b = views::content_of(declared::box_of(head, table, row, k));
        let t = pictures::turn_of(size, kind, b);
        origin = origin_through(origin, origin_of(t, size));
        size = pictures::size_after(t, size);
        k = next_transform(table, row, k + 1);
    }
    origin_at(origin, p)
}

// The point that p comes from through all of an item's transforms. The picture has the size s before them. Most items have
// one transform or none.
pub fn undone(head: &[u8], table: &[u32], row: ItemRow, s: Size, p: Point) -> Point
    ensures { (pl : Places) (f : File) → TableOf table.now head.now pl f →
        row.0 < length f.items → AllFit (turns_of s (boxes_of f (id_of f row.0))) s →
        Inside (size_through (turns_of s (boxes_of f (id_of f row.0))) s) p →
        result ≡ Turns.undone (turns_of s (boxes_of f (id_of f row.0))) s p }
{
    let n = declared::property_count(table, row);
    let j = next_transform(table, row, 0);
    if n <= j {
        return p;
    }
    if next_transform(table, row, j + 1) < n {
        return undone_each(head, table, row, j, s, p);
    }
    let kind = declared::kind_of(table, row, j);
    let b = views::content_of(declared::box_of(head, table, row, j));
    pictures::back_of(pictures::turn_of(s, kind, b), s, p)
}

// What lies beneath a point of a reconstructed picture: a coded pixel, an overlay's fill, or a point of an input's output picture.
#[derive(Drop)]
pub enum Source {
    Here,
    Blank,
    Input { row: ItemRow, at: Point },
}

// `iden`.
fn copied_at(table: &[u32], rows: &[u32], row: ItemRow, p: Point) -> Source
    ensures { (total : ℕ) (head : List ℕ) (f : File) → Shown table.now rows.now head total f →
        row.0 < length f.items → (item_at f row.0).type ≡ iden →
        result ≡ told_source (source_of (scene_of total head f) row.0 p) }
{
    Source::Input {
        row: derived::input_of(table, rows, row, 0),
        at: p,
    }
}

// The tile of a grid with so many columns, row by row from top left.
fn tiled_at(table: &[u32], rows: &[u32], row: ItemRow, columns: u32, p: Point) -> Source
    ensures { (total : ℕ) (head : List ℕ) (f : File) → Shown table.now rows.now head total f →
        row.0 < length f.items → (g : Grid) → (picture_at (scene_of total head f) row.0).recipe ≡ Tiles g →
        g.columns ≡ columns → Inside (picture_at (scene_of total head f) row.0).declared p →
        result ≡ told_source (source_of (scene_of total head f) row.0 p) }
{
    let tile = sizing::output_in(table, derived::input_of(table, rows, row, 0));
    let w = tile.wide;
    let h = tile.high;
    if w == 0 || h == 0 {
        return Source::Here;
    }
    let x = p.x;
    let y = p.y;
    let j = ((y / h) as usize) * (columns as usize) + ((x / w) as usize);
    Source::Input {
        row: derived::input_of(table, rows, row, j),
        at: Point { x: x % w, y: y % h },
    }
}

// How far a coordinate lies from where a side begins, at o in two's complement; past every side where it lies before it.
fn from_edge(o: u64, half: u64, at: u64) -> u64
    requires { (o < 2 * half) × (half ≤ 2147483648) × (at < 4294967296) }
    ensures { (bytes side : ℕ) → 2 * half ≡ 256 ^ bytes → side ≤ 4294967296 →
        (on_side (signed bytes o) at side ≡ nat_lt result side) × (result < side → along_side (signed bytes o) at ≡ result) }
{
    if o < half {
        if at < o {
            return 4294967296;
        }
        return at - o;
    }
    at + (2 * half - o)
}

// The topmost of the first n of these inputs that covers p. o has their offsets, in numbers of so many bytes, which are negative from half on.
fn topmost_by(
    table: &[u32],
    inputs: &[u32],
    o: &[u8],
    bytes: usize,
    half: u64,
    n: usize,
    p: Point,
) -> Source
    requires fact { ((bytes ≡ 2) ⊎ (bytes ≡ 4)) × (n ≤ 2048) × (2 * bytes * n ≤ length o.now) }
    requires half_value { (2 * half ≡ 256 ^ bytes) × (11280 ≤ length table.now) × (n ≤ length inputs.now) }
    ensures { (s : Scene) → SizesAre table.now s →
        ((k : ℕ) → k < n → slice_index inputs.now k < length s) →
        (os : List Offset) → length os ≡ n → OffsetsIn o.now bytes os →
        result ≡ told_source (layer_at s os (take n inputs.now) p blank) }
{
    let px = p.x as u64;
    let py = p.y as u64;
    for k in (0..n).rev() {
        let input = inputs[k] as usize;
        if input < 256 {
            let at = 2 * bytes * k;
            let w = 16 * input + 28;
            let x = from_edge(fields::be_id(o, at, bytes) as u64, half, px);
            if x < table[w] as u64 {
                let y = from_edge(fields::be_id(o, at + bytes, bytes) as u64, half, py);
                if y < table[w + 1] as u64 {
                    return Source::Input {
                        row: ItemRow(input),
                        at: Point {
                            x: x as u32,
                            y: y as u32,
                        },
                    };
                }
            }
        }
    }
    Source::Blank
}

// The topmost of the n inputs whose offsets are these that covers p. Two calls: each is compiled for its own width. By itself, since
// within `source_of` there are too few registers, which costs two instructions for each input.
#[inline(never)]
fn topmost(table: &[u32], inputs: &[u32], o: &[u8], bytes: usize, n: usize, p: Point) -> Source
    requires fact { ((bytes ≡ 2) ⊎ (bytes ≡ 4)) × (n ≤ 2048) × (2 * bytes * n ≤ length o.now) }
    requires in_bounds { (11280 ≤ length table.now) × (n ≤ length inputs.now) }
    ensures { (s : Scene) → SizesAre table.now s →
        ((k : ℕ) → k < n → slice_index inputs.now k < length s) →
        (os : List Offset) → length os ≡ n → OffsetsIn o.now bytes os →
        result ≡ told_source (layer_at s os (take n inputs.now) p blank) }
{
    if bytes == 2 {
        return topmost_by(table, inputs, o, 2, 32768, n, p);
    }
    topmost_by(table, inputs, o, 4, 2147483648, n, p)
}

// `iovl` of n inputs, its body b in one piece.
fn layered_in(table: &[u32], inputs: &[u32], b: &[u8], n: usize, p: Point) -> Source
    requires { (n ≤ 2048) × (11280 ≤ length table.now) × (n ≤ length inputs.now) }
    ensures { (s : Scene) → SizesAre table.now s →
        ((k : ℕ) → k < n → slice_index inputs.now k < length s) →
        (o : Overlay) → whole (iovl_form n) 0 b.now ≡ ok o →
        result ≡ told_source (layer_at s o.offsets (take n inputs.now) p blank) }
{
    let Some(o) = pictures::read_overlay(b, n) else {
        return Source::Here;
    };
    topmost(table, inputs, &b[10 + 2 * o.bytes..], o.bytes, n, p)
}

// How many bytes of offsets are looked at at once where they do not lie in one piece: those of 64 inputs, or of 128.
const WINDOW: usize = 512;

// The topmost of the inputs from one on, before an end, of an overlay whose body is joined: their offsets are copied first.
fn topmost_between(
    head: &[u8],
    table: &[u32],
    rows: &[u32],
    row: ItemRow,
    inputs: &[u32],
    bytes: usize,
    from: usize,
    end: usize,
    p: Point,
) -> Source
    requires fact { ((bytes ≡ 2) ⊎ (bytes ≡ 4)) × (from ≤ end) × (end ≤ 2048) × (2 * bytes * end ≤ 2 * bytes * from + 512) }
    requires in_bounds { (11280 ≤ length table.now) × (end ≤ length inputs.now) }
    ensures { (total : ℕ) (f : File) → Followed table.now rows.now head.now total f →
        row.0 < length f.items → (b : List ℕ) → body_of total head.now f (id_of f row.0) ≡ ok b →
        (s : Scene) → SizesAre table.now s → ((k : ℕ) → k < end → slice_index inputs.now k < length s) → (n : ℕ) (o : Overlay) →
        end ≤ n → n ≤ 2048 → whole (iovl_form n) 0 b ≡ ok o → bytes ≡ field_bytes (be_at b 1 1) →
        result ≡ told_source (layer_at s (take (end - from) (drop from o.offsets))
        (take (end - from) (drop from inputs.now)) p blank) }
{
    let mut window = [0u8; 512];
    let at = 10 + 2 * bytes + 2 * bytes * from;
    let n = end - from;
    joining::copy_bytes(head, table, rows, row, at, 2 * bytes * n, &mut window);
    topmost(table, &inputs[from..], &window, bytes, n, p)
}

// The topmost of the n inputs of an overlay whose body is joined, window by window from the last input down.
fn topmost_joined(
    head: &[u8],
    table: &[u32],
    rows: &[u32],
    row: ItemRow,
    inputs: &[u32],
    bytes: usize,
    n: usize,
    p: Point,
) -> Source
    requires { ((bytes ≡ 2) ⊎ (bytes ≡ 4)) × (n ≤ 2048) × (11280 ≤ length table.now) × (n ≤ length inputs.now) }
    ensures { (total : ℕ) (f : File) → Followed table.now rows.now head.now total f →
        row.0 < length f.items → (b : List ℕ) → body_of total head.now f (id_of f row.0) ≡ ok b →
        (s : Scene) → SizesAre table.now s → ((k : ℕ) → k < n → slice_index inputs.now k < length s) → (o : Overlay) →
        whole (iovl_form n) 0 b ≡ ok o → bytes ≡ field_bytes (be_at b 1 1) →
        result ≡ told_source (layer_at s o.offsets (take n inputs.now) p blank) }
{
    let most = WINDOW / (2 * bytes);
    let mut end = n;
    // A while: each step goes down by a window.
    while 0 < end {
        let from = if end < most { 0 } else { end - most };
        let s = topmost_between(head, table, rows, row, inputs, bytes, from, end, p);
        match s {
            Source::Blank => {
                end = from;
            }
            _ => return s,
        }
    }
    Source::Blank
}

// `iovl` of n inputs, its body joined from several pieces.
fn layered_joined(
    head: &[u8],
    table: &[u32],
    rows: &[u32],
    row: ItemRow,
    inputs: &[u32],
    n: usize,
    p: Point,
) -> Source
    requires { (n ≤ 2048) × (11280 ≤ length table.now) × (n ≤ length inputs.now) }
    ensures { (total : ℕ) (f : File) → Followed table.now rows.now head.now total f →
        row.0 < length f.items → (b : List ℕ) → body_of total head.now f (id_of f row.0) ≡ ok b →
        (s : Scene) → SizesAre table.now s → ((k : ℕ) → k < n → slice_index inputs.now k < length s) → (o : Overlay) →
        whole (iovl_form n) 0 b ≡ ok o →
        result ≡ told_source (layer_at s o.offsets (take n inputs.now) p blank) }
{
    let Some(o) = derived::joined_overlay(head, table, rows, row, n) else {
        return Source::Here;
    };
    // Two calls, so that the window is no part of what a trace keeps for each picture that it passes.
    if o.bytes == 2 {
        return topmost_joined(head, table, rows, row, inputs, 2, n, p);
    }
    topmost_joined(head, table, rows, row, inputs, 4, n, p)
}

// `iovl`.
fn layered_at(head: &[u8], table: &[u32], rows: &[u32], row: ItemRow, p: Point) -> Source
    ensures { (total : ℕ) (f : File) → Shown table.now rows.now head.now total f →
        row.0 < length f.items → (item_at f row.0).type ≡ iovl →
        result ≡ told_source (source_of (scene_of total head.now f) row.0 p) }
{
    if table.len() < Table::WORDS || rows.len() < 2048 {
        return Source::Here;
    }
    let first = views::held_word(table, row, 5) as usize;
    let n = views::held_word(table, row, 6) as usize;
    if 2048 < first + n {
        return Source::Here;
    }
    let inputs = &rows[first..];
    if derived::is_joined(table, row) {
        return layered_joined(head, table, rows, row, inputs, n, p);
    }
    layered_in(table, inputs, derived::body_of(head, table, row), n, p)
}

// `grid`.
fn gridded_at(head: &[u8], table: &[u32], rows: &[u32], row: ItemRow, p: Point) -> Source
    ensures { (total : ℕ) (f : File) → Shown table.now rows.now head.now total f →
        row.0 < length f.items → (item_at f row.0).type ≡ grid →
        Inside (picture_at (scene_of total head.now f) row.0).declared p →
        result ≡ told_source (source_of (scene_of total head.now f) row.0 p) }
{
    let Some(g) = derived::grid_of(head, table, rows, row) else {
        return Source::Here;
    };
    tiled_at(table, rows, row, g.columns, p)
}

// What lies beneath the point p of the reconstructed picture in a row.
pub fn source_of(head: &[u8], table: &[u32], rows: &[u32], row: ItemRow, p: Point) -> Source
    ensures { (total : ℕ) (f : File) → Shown table.now rows.now head.now total f →
        row.0 < length f.items → image (item_at f row.0).type ≡ true →
        Inside (picture_at (scene_of total head.now f) row.0).declared p →
        result ≡ told_source (source_of (scene_of total head.now f) row.0 p) }
{
    match views::type_of(table, row) {
        IDEN => copied_at(table, rows, row, p),
        GRID => gridded_at(head, table, rows, row, p),
        IOVL => layered_at(head, table, rows, row, p),
        _ => Source::Here,
    }
}

// Where a trace ends: a pixel of a coded picture, or an overlay's fill; and how many pictures were passed.
#[derive(Drop)]
pub enum End {
    Pixel {
        row: ItemRow,
        at: Point,
        passed: u32,
    },
    Fill {
        row: ItemRow,
        at: Point,
        passed: u32,
    },
}

// From the output pixel p of the picture in a row, so many pictures having been passed before it, at most d derivations down.
#[cycle(trace_output_trace_reconstructed)]
pub fn trace_output(
    head: &[u8],
    table: &[u32],
    rows: &[u32],
    d: u32,
    passed: u32,
    row: ItemRow,
    p: Point,
) -> End
    requires { passed + d ≤ 16 }
    ensures { (total : ℕ) (f : File) → Shown table.now rows.now head.now total f →
        row.0 < length f.items → image (item_at f row.0).type ≡ true →
        Inside (output_of (picture_at (scene_of total head.now f) row.0)) p →
        result ≡ told_end (traced undo_turns (scene_of total head.now f) d passed row.0
        (undo_turns (picture_at (scene_of total head.now f) row.0) p)) }
{
    let q = undone(head, table, row, sizing::declared_in(table, row), p);
    trace_reconstructed(head, table, rows, d, passed, row, q)
}

// The same from the point p of the reconstructed picture.
#[cycle(trace_output_trace_reconstructed)]
pub fn trace_reconstructed(
    head: &[u8],
    table: &[u32],
    rows: &[u32],
    d: u32,
    passed: u32,
    row: ItemRow,
    p: Point,
) -> End
    requires { passed + d ≤ 16 }
    ensures { (total : ℕ) (f : File) → Shown table.now rows.now head.now total f →
        row.0 < length f.items → image (item_at f row.0).type ≡ true →
        Inside (picture_at (scene_of total head.now f) row.0).declared p →
        result ≡ told_end (traced undo_turns (scene_of total head.now f) d passed row.0 p) }
{
    let s = source_of(head, table, rows, row, p);
    match s {
        Source::Here => End::Pixel {
            row,
            at: p,
            passed: passed + 1,
        },
        Source::Blank => End::Fill {
            row,
            at: p,
            passed: passed + 1,
        },
        Source::Input { row: input, at } => {
            if d == 0 {
                return End::Fill {
                    row,
                    at: p,
                    passed: passed + 1,
                };
            }
            trace_output(head, table, rows, d - 1, passed + 1, input, at)
        }
    }
}
