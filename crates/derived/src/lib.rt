// Refusal 17: the inputs of a derived item, each target's row found once, and its body.
#![tactic(auto)]

ghost use Rattle.std.specs.Prelude.{◌≡◌, List, ℕ, ◌≤◌, ◌<◌, length, get_or, true, false};
ghost use Rattle.boxes.specs.Answer.{ok};
ghost use Rattle.forms.specs.Form.{whole};
ghost use Rattle.pictures.specs.Recipe.{grid_form, iovl_form};
ghost use Rattle.pictures.specs.inner.Told.{told_grid, told_overlay};
ghost use Rattle.boxes.specs.Types.{derived};
ghost use Rattle.contents.specs.File.{File};
ghost use Rattle.rules.specs.Places.{Places};
ghost use Rattle.rules.specs.Joined.{targets_of, location_of, row_of, item_at};
ghost use Rattle.rules.specs.Bytes.{body_of};
ghost use Rattle.rules.specs.inner.Direct.{store_of, body_in};
ghost use Rattle.rules.specs.Derivations.{all_images, copy_of, tiles_of, layers_of};
ghost use Rattle.rules.specs.Rules.{rule13-30-14, rule17};
ghost use Rattle.views.specs.inner.View.{TableOf, id_of};
ghost use Rattle.views.specs.inner.Told.{fault_of};
ghost use Rattle.derived.specs.inner.Told.{Resolved, Followed, RunsFor, is_joined, Readable, HasBody, body_or};
ghost use Rattle.derived.specs.inner.Told.{FrontIs, grid_in, OverlayIs, derivation_for, told_derivation};

use boxes::types::{GRID, IDEN};
use pictures::{Grid, Overlay};
use table::{ItemRow, Table};

// The row of the input with a number from 0.
pub fn input_of(table: &[u32], rows: &[u32], row: ItemRow, j: usize) -> ItemRow
    ensures { (head : List ℕ) (pl : Places) (f : File) → TableOf table.now head pl f →
        Resolved table.now rows.now f → row.0 < length f.items →
        j < length (targets_of f (id_of f row.0)) → result.0 ≡ row_of (get_or (targets_of f (id_of f row.0)) j 0) f.items }
{
    let first = views::record_word(table, row, 5) as usize;
    if j < 2048 {
        return ItemRow(table::word(rows, first + j) as usize);
    }
    ItemRow(0)
}

// How many inputs an item has.
pub fn input_count(table: &[u32], row: ItemRow) -> usize
    ensures { (head : List ℕ) (pl : Places) (f : File) → TableOf table.now head pl f →
        row.0 < length f.items → result ≡ length (targets_of f (id_of f row.0)) }
{
    views::record_word(table, row, 6) as usize
}

// Whether all inputs of an item are pictures. No table of a file is shorter: the one test spares each input its own.
fn all_images(table: &[u32], rows: &[u32], row: ItemRow) -> bool
    ensures { (head : List ℕ) (pl : Places) (f : File) → TableOf table.now head pl f →
        Resolved table.now rows.now f → row.0 < length f.items →
        result ≡ all_images f (targets_of f (id_of f row.0)) }
{
    if table.len() < Table::WORDS {
        return true;
    }
    let n = input_count(table, row);
    for j in 0..n {
        if !views::is_image(views::held_word(table, input_of(table, rows, row, j), 1)) {
            return false;
        }
    }
    true
}

// The body of an item that is not joined, and that 13, 30 and 14 pass: at its one extent, wholly in the head; nothing where it is not there.
pub fn body_of<'a>(head: &'a [u8], table: &[u32], row: ItemRow) -> &'a [u8]
    ensures { (total : ℕ) (pl : Places) (f : File) → TableOf table.now head.now pl f →
        row.0 < length f.items → rule13-30-14 total head.now f (item_at f row.0) ≡ ok tt →
        is_joined (location_of f (id_of f row.0)) ≡ false →
        result.now ≡ body_or (body_in (store_of total head.now f (location_of f (id_of f row.0)).method)
        (location_of f (id_of f row.0))) }
{
    if views::record_word(table, row, 8) == 1 {
        let e = views::extent_of(table, row, 0);
        return views::part(head, e.offset as usize, e.size as usize);
    }
    &head[..0]
}

// Whether the body of an item is not that of one extent of method 0 or 1.
pub fn is_joined(table: &[u32], row: ItemRow) -> bool
    ensures { (head : List ℕ) (pl : Places) (f : File) → TableOf table.now head pl f →
        row.0 < length f.items → result ≡ is_joined (location_of f (id_of f row.0)) }
{
    views::record_word(table, row, 8) != 1 || views::record_word(table, row, 9) == 2
}

// Of a joined body the first 18 bytes, or all that there are and zeros behind them, and its length.
#[derive(Drop)]
pub struct Front {
    pub bytes: [u8; 18],
    pub size: u64,
}

fn front_of(head: &[u8], table: &[u32], rows: &[u32], row: ItemRow) -> Front
    ensures by_index { (total : ℕ) (f : File) → Followed table.now rows.now head.now total f →
        row.0 < length f.items → (b : List ℕ) → body_of total head.now f (id_of f row.0) ≡ ok b →
        FrontIs b result }
    ensures bytes_len { length result.bytes ≡ 18 }
{
    let size = joining::length_of(table, row);
    let n = size.min(18) as usize;
    let mut bytes = [0u8; 18];
    joining::copy_bytes(head, table, rows, row, 0, n, &mut bytes);
    Front { bytes, size }
}

// The longest body of a `grid`, and the longest that there is: an `iovl` of 2,048 inputs with numbers of four bytes.
const LONGEST_GRID: u64 = 12;

const LONGEST: u64 = 16402;

// What the body of a `grid` says that is joined from several pieces.
fn joined_grid(head: &[u8], table: &[u32], rows: &[u32], row: ItemRow) -> Option<Grid>
    ensures { (total : ℕ) (f : File) → Followed table.now rows.now head.now total f →
        row.0 < length f.items → (b : List ℕ) → body_of total head.now f (id_of f row.0) ≡ ok b →
        result ≡ told_grid (whole grid_form 0 b) }
{
    let f = front_of(head, table, rows, row);
    if LONGEST_GRID < f.size {
        return None;
    }
    let n = f.size as usize;
    let bytes = f.bytes;
    pictures::read_grid(&bytes[..n])
}

// What the body of an `iovl` of n inputs says that is joined from several pieces.
pub fn joined_overlay(
    head: &[u8],
    table: &[u32],
    rows: &[u32],
    row: ItemRow,
    n: usize,
) -> Option<Overlay>
    requires { n ≤ 2048 }
    ensures { (total : ℕ) (f : File) → Followed table.now rows.now head.now total f →
        row.0 < length f.items → (b : List ℕ) → body_of total head.now f (id_of f row.0) ≡ ok b →
        result ≡ told_overlay b (whole (iovl_form n) 0 b) }
{
    let f = front_of(head, table, rows, row);
    if LONGEST < f.size {
        return None;
    }
    let bytes = f.bytes;
    pictures::read_front(&bytes, f.size as usize, n)
}

// What the body of a `grid` says.
pub fn grid_of(head: &[u8], table: &[u32], rows: &[u32], row: ItemRow) -> Option<Grid>
    ensures { (total : ℕ) (f : File) → Followed table.now rows.now head.now total f →
        row.0 < length f.items → Readable total head.now f (id_of f row.0) →
        result ≡ told_grid (grid_in (body_of total head.now f (id_of f row.0))) }
{
    if is_joined(table, row) {
        return joined_grid(head, table, rows, row);
    }
    pictures::read_grid(body_of(head, table, row))
}

// How the reconstructed image of a derived item comes about, whatever its inputs are.
#[derive(Clone, Copy)]
pub enum Derivation {
    Copy,
    Tiles {
        rows: u32,
        columns: u32,
        wide: u32,
        high: u32,
    },
    Layers {
        wide: u32,
        high: u32,
    },
}

// `iden`: one input, no extents.
fn copy_of(table: &[u32], row: ItemRow) -> Option<Derivation>
    ensures { (total : ℕ) (head : List ℕ) (pl : Places) (f : File) → TableOf table.now head pl f →
        row.0 < length f.items → result ≡ told_derivation (copy_of total head f (item_at f row.0)) }
{
    if input_count(table, row) == 1 && views::record_word(table, row, 8) == 0 {
        return Some(Derivation::Copy);
    }
    None
}

// `grid`: as many inputs as rows × columns.
fn tiles_of(head: &[u8], table: &[u32], rows: &[u32], row: ItemRow) -> Option<Derivation>
    ensures { (total : ℕ) (f : File) → Followed table.now rows.now head.now total f →
        row.0 < length f.items → Readable total head.now f (id_of f row.0) →
        result ≡ told_derivation (tiles_of total head.now f (item_at f row.0)) }
{
    let g = grid_of(head, table, rows, row)?;
    if input_count(table, row) as u64 == (g.rows as u64) * (g.columns as u64) {
        return Some(Derivation::Tiles {
            rows: g.rows,
            columns: g.columns,
            wide: g.wide,
            high: g.high,
        });
    }
    None
}

// What the body of an `iovl` of n inputs says, but for its offsets.
fn overlay_of(head: &[u8], table: &[u32], rows: &[u32], row: ItemRow, n: usize) -> Option<Overlay>
    requires { n ≤ 2048 }
    ensures { (total : ℕ) (f : File) → Followed table.now rows.now head.now total f →
        row.0 < length f.items → Readable total head.now f (id_of f row.0) →
        OverlayIs (body_of total head.now f (id_of f row.0)) n result }
{
    if is_joined(table, row) {
        return joined_overlay(head, table, rows, row, n);
    }
    pictures::read_overlay(body_of(head, table, row), n)
}

// `iovl`: an offset per input, at least one input.
fn layers_of(head: &[u8], table: &[u32], rows: &[u32], row: ItemRow) -> Option<Derivation>
    ensures { (total : ℕ) (f : File) → Followed table.now rows.now head.now total f →
        row.0 < length f.items → Readable total head.now f (id_of f row.0) →
        result ≡ told_derivation (layers_of total head.now f (item_at f row.0)) }
{
    let n = input_count(table, row);
    if n == 0 || 2048 < n {
        return None;
    }
    let o = overlay_of(head, table, rows, row, n)?;
    Some(Derivation::Layers {
        wide: o.wide,
        high: o.high,
    })
}

// What the body of a derived item makes. No table of a file is shorter: the one test spares the readers of its words their own.
pub fn derivation_of(head: &[u8], table: &[u32], rows: &[u32], row: ItemRow) -> Option<Derivation>
    ensures { (total : ℕ) (f : File) → Followed table.now rows.now head.now total f →
        row.0 < length f.items → Readable total head.now f (id_of f row.0) →
        derived (item_at f row.0).type ≡ true →
        result ≡ told_derivation (derivation_for total head.now f (item_at f row.0)) }
{
    if table.len() < Table::WORDS {
        return None;
    }
    let kind = views::type_of(table, row);
    if kind == IDEN {
        return copy_of(table, row);
    }
    if kind == GRID {
        return tiles_of(head, table, rows, row);
    }
    layers_of(head, table, rows, row)
}

// Whether a body can be read: where it is joined its length is one that there is, and every byte of it lies in the head.
fn has_body(head: &[u8], table: &[u32], rows: &[u32], runs: &[u16; 512], row: ItemRow) -> bool
    ensures { (total : ℕ) (f : File) → Followed table.now rows.now head.now total f →
        row.0 < length f.items → RunsFor table.now rows.now (length head.now) f runs.now →
        HasBody total head.now f (id_of f row.0) result }
{
    if !is_joined(table, row) {
        return true;
    }
    let size = joining::length_of(table, row);
    if LONGEST < size {
        return false;
    }
    joining::is_held(head.len() as u64, table, runs, row, size)
}

// 17 for the derived item in a row: its body says how it is made, and its inputs are pictures.
fn made_fault(
    head: &[u8],
    table: &[u32],
    rows: &[u32],
    runs: &[u16; 512],
    row: ItemRow,
) -> Option<u32>
    ensures { (total : ℕ) (f : File) → Followed table.now rows.now head.now total f →
        row.0 < length f.items → Resolved table.now rows.now f →
        RunsFor table.now rows.now (length head.now) f runs.now →
        derived (item_at f row.0).type ≡ true → result ≡ fault_of (rule17 total head.now f (item_at f row.0)) }
{
    if !has_body(head, table, rows, runs, row) {
        return Some(17);
    }
    match derivation_of(head, table, rows, row) {
        None => Some(17),
        Some(_) => {
            if all_images(table, rows, row) {
                return None;
            }
            Some(17)
        }
    }
}

// 17 for the item in a row, where it is given: only derived items have inputs. What is asked of these stands apart, so that most items hand nothing on.
pub fn derived_fault(
    head: &[u8],
    table: &[u32],
    rows: &[u32],
    runs: &[u16; 512],
    row: ItemRow,
) -> Option<u32>
    ensures { (total : ℕ) (f : File) → Followed table.now rows.now head.now total f →
        row.0 < length f.items → Resolved table.now rows.now f →
        RunsFor table.now rows.now (length head.now) f runs.now →
        result ≡ fault_of (rule17 total head.now f (item_at f row.0)) }
{
    if !views::is_derived(views::type_of(table, row)) {
        return if input_count(table, row) == 0 {
            None
        } else {
            Some(17)
        };
    }
    made_fault(head, table, rows, runs, row)
}
