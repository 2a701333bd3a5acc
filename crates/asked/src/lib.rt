// What is asked of the table of an accepted file: the row of a picture, and the questions that the table alone answers.
#![tactic(auto)]

ghost use Rattle.std.specs.Prelude.{◌≡◌, List, ℕ};
ghost use Rattle.contents.specs.File.{File};
ghost use Rattle.rules.specs.Places.{Places};
ghost use Rattle.rules.specs.Derivations.{scene_of};
ghost use Rattle.rules.specs.Opening.{listed, pictured};
ghost use Rattle.questions.specs.Questions.{verdict_in, size_in};
ghost use Rattle.views.specs.inner.View.{TableOf, SizesAre};
ghost use Rattle.asked.specs.Told.{told_verdict, told_sized, index_in, told_asked};
ghost use Rattle.boxes.specs.Told.{told};
ghost use Rattle.asked.specs.inner.Told.{row_at};

use boxes::Refusal;
use table::{ItemId, ItemRow, PropertyIndex};

#[derive(Clone, Copy)]
pub struct Verdict {
    pub items: u32,
    pub primary: ItemId,
}

// Item count and primary item ID of an accepted file's table.
pub fn verdict_in(table: &[u32]) -> Result<Verdict, Refusal>
    ensures { (head : List ℕ) (pl : Places) (f : File) → TableOf table.now head pl f →
        result ≡ told_verdict (verdict_in f) }
{
    Ok(Verdict {
        items: table::word(table, 0),
        primary: ItemId(table::word(table, 5)),
    })
}

// A refusal whose place is the asked ID.
pub fn refusal(number: u32, id: ItemId) -> Refusal
    ensures { (result.number ≡ number) × (result.place ≡ id.0) }
{
    Refusal {
        number,
        place: id.0 as u64,
    }
}

// The row of an item that is asked for: 21.
fn listed_row(table: &[u32], id: ItemId) -> Result<ItemRow, Refusal>
    ensures { (head : List ℕ) (pl : Places) (f : File) → TableOf table.now head pl f → result ≡ told row_at (listed f id.0) }
{
    views::row_named(table, id, ItemRow(0)).ok_or(refusal(21, id))
}

// The row of a picture that is asked for: 21, then 22.
pub fn picture_row(table: &[u32], id: ItemId) -> Result<ItemRow, Refusal>
    ensures { (head : List ℕ) (pl : Places) (f : File) → TableOf table.now head pl f → result ≡ told row_at (pictured f id.0) }
{
    let row = listed_row(table, id)?;
    if views::is_image(views::type_of(table, row)) {
        return Ok(row);
    }
    Err(refusal(22, id))
}

#[derive(Clone, Copy)]
pub struct Sizes {
    pub wide: u32,
    pub high: u32,
    pub output_wide: u32,
    pub output_high: u32,
    pub depth: u32,
}

// The sizes and depth of an item of an accepted file's table.
pub fn size_in(table: &[u32], id: ItemId) -> Result<Sizes, Refusal>
    ensures { (total : ℕ) (head : List ℕ) (pl : Places) (f : File) → TableOf table.now head pl f →
        SizesAre table.now (scene_of total head f) → result ≡ told_sized (size_in (scene_of total head f) f id.0) }
{
    let row = picture_row(table, id)?;
    Ok(Sizes {
        wide: views::record_word(table, row, 10),
        high: views::record_word(table, row, 11),
        output_wide: views::record_word(table, row, 12),
        output_high: views::record_word(table, row, 13),
        depth: views::record_word(table, row, 14),
    })
}

// Which property an item's association k, from 1, names: 21, then 25.
pub fn property_index(table: &[u32], id: ItemId, k: u32) -> Result<PropertyIndex, Refusal>
    ensures { (head : List ℕ) (pl : Places) (f : File) → TableOf table.now head pl f → result ≡ told_asked (index_in f id.0 k) }
{
    let row = listed_row(table, id)?;
    if k < 1 || views::record_word(table, row, 4) < k {
        return Err(refusal(25, id));
    }
    Ok(views::index_of(views::association_of(table, row, (k - 1) as usize)))
}
