// The sources, asked of the table of an accepted file.
#![tactic(auto)]

ghost use Rattle.std.specs.Prelude.{◌≡◌, List, ℕ, length};
ghost use Rattle.contents.specs.File.{File};
ghost use Rattle.rules.specs.Derivations.{scene_of};
ghost use Rattle.questions.specs.Questions.{sources_in, list_after};
ghost use Rattle.tracing.specs.inner.Told.{Shown};
ghost use Rattle.sourced.specs.Told.{told_listed};

use boxes::Refusal;
use table::ItemId;

// The sources of an item of an accepted file's table, whose targets name `rows`, into a lent list, and how many IDs were
// written: 21, 22, then 24.
pub fn sources_in(
    table: &[u32],
    rows: &[u32],
    id: ItemId,
    list: &mut [u32],
) -> Result<usize, Refusal>
    ensures { (total : ℕ) (head : List ℕ) (f : File) → Shown table.now rows.now head total f →
        (result ≡ told_listed (sources_in (scene_of total head f) f id.0 (length list.old))) ×
        (list.new ≡ list_after (sources_in (scene_of total head f) f id.0 (length list.old))
        list.old) }
{
    let row = asked::picture_row(table, id)?;
    let n = views::item_count(table);
    if 256 < n {
        return Ok(0);
    }
    let marks = marks::needed_of(table, rows, n, row);
    let count = needed::count_sources(table, &marks, n);
    if list.len() < count {
        return Err(asked::refusal(24, id));
    }
    needed::put_sources(table, &marks, n, list);
    Ok(count)
}
