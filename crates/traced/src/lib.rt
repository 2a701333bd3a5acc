// The trace, asked of the table of an accepted file.
#![tactic(auto)]

ghost use Rattle.std.specs.Prelude.{◌≡◌, List, ℕ, ◌<◌, length, Ok};
ghost use Rattle.boxes.specs.Answer.{ok};
ghost use Rattle.contents.specs.File.{File};
ghost use Rattle.pictures.specs.Trace as Trace;
ghost use Rattle.rules.specs.Places.{Places};
ghost use Rattle.rules.specs.Derivations.{scene_of};
ghost use Rattle.rules.specs.Opening.{pictured};
ghost use Rattle.questions.specs.Questions.{trace_in, found_by};
ghost use Rattle.views.specs.inner.View.{TableOf};
ghost use Rattle.tracing.specs.inner.Told.{Shown, told_end};
ghost use Rattle.traced.specs.Told.{end_row, told_traced};

use boxes::Refusal;
use pictures::Point;
use table::{ItemId, ItemRow};
use tracing::End;

#[derive(Clone, Copy)]
pub enum Traced {
    Pixel {
        item: ItemId,
        x: u32,
        y: u32,
        passed: u32,
    },
    Fill {
        item: ItemId,
        x: u32,
        y: u32,
        passed: u32,
    },
}

// An end by the ID of its item.
fn ended(table: &[u32], e: End) -> Traced
    ensures { (head : List ℕ) (pl : Places) (f : File) → TableOf table.now head pl f →
        (x : Trace.Traced) → e ≡ told_end x → end_row x.end < length f.items →
        Ok result ≡ told_traced (ok (found_by f x.passed x.end)) }
{
    match e {
        End::Pixel { row, at, passed } => Traced::Pixel {
            item: views::id_of(table, row),
            x: at.x,
            y: at.y,
            passed,
        },
        End::Fill { row, at, passed } => Traced::Fill {
            item: views::id_of(table, row),
            x: at.x,
            y: at.y,
            passed,
        },
    }
}

// The trace of an output pixel of the picture in a row, that of the asked ID: 23 where it lies outside.
pub fn trace_at(
    head: &[u8],
    table: &[u32],
    rows: &[u32],
    id: ItemId,
    row: ItemRow,
    p: Point,
) -> Result<Traced, Refusal>
    ensures { (total : ℕ) (f : File) →
        Shown table.now rows.now head.now total f → pictured f id.0 ≡ ok row.0 →
        result ≡ told_traced (trace_in (scene_of total head.now f) f id.0 p) }
{
    let s = sizing::output_in(table, row);
    if s.wide <= p.x || s.high <= p.y {
        return Err(asked::refusal(23, id));
    }
    Ok(ended(
        table,
        tracing::trace_output(head, table, rows, 16, 0, row, p),
    ))
}

// The trace of an output pixel of an item of an accepted file's table: 21, 22, then 23.
pub fn trace_in(
    head: &[u8],
    table: &[u32],
    rows: &[u32],
    id: ItemId,
    p: Point,
) -> Result<Traced, Refusal>
    ensures { (total : ℕ) (f : File) → Shown table.now rows.now head.now total f →
        result ≡ told_traced (trace_in (scene_of total head.now f) f id.0 p) }
{
    let row = asked::picture_row(table, id)?;
    trace_at(head, table, rows, id, row, p)
}
