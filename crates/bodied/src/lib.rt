// The body of a picture, asked of the table of an accepted file (document 02, Q-7).
#![tactic(auto)]

ghost use Rattle.std.specs.Prelude.{◌≡◌, true, [], ℕ, ◌≤◌, ◌<◌, length, Ok};
ghost use Rattle.fields.specs.Choice.{pick};
ghost use Rattle.boxes.specs.Types.{image};
ghost use Rattle.boxes.specs.Answer.{ok};
ghost use Rattle.contents.specs.File.{File};
ghost use Rattle.rules.specs.Joined.{item_at};
ghost use Rattle.rules.specs.Bytes.{body_of};
ghost use Rattle.views.specs.inner.View.{AllFed};
ghost use Rattle.derived.specs.inner.Told.{Followed};
ghost use Rattle.bodied.specs.Body.{has_body, body_in, buffer_after};
ghost use Rattle.bodied.specs.Told.{told_bodied};

use boxes::Refusal;
use boxes::types::{GRID, IOVL};
use table::{ItemId, ItemRow};

// The shortest buffer: no body is longer.
pub const LONGEST: usize = 16402;

// Whether a picture of this type has a body: coded ones and `iden` have none.
fn has_body(kind: u32) -> bool
    ensures { result ≡ has_body kind }
{
    kind == GRID || kind == IOVL
}

// The body of the picture in a row, to the front of a buffer that is long enough for every body: its length. None is longer in an
// accepted file: the test keeps the copying within the buffer.
fn put_body(head: &[u8], table: &[u32], rows: &[u32], row: ItemRow, buffer: &mut [u8]) -> usize
    ensures { (total : ℕ) (f : File) → Followed table.now rows.now head.now total f →
        AllFed total head.now f → 16402 ≤ length buffer.old → row.0 < length f.items → image (item_at f row.0).type ≡ true →
        (Ok result ≡ told_bodied (pick (has_body (item_at f row.0).type) (body_of total head.now f (item_at f row.0).id) (ok []))) ×
        (buffer.new ≡ buffer_after (pick (has_body (item_at f row.0).type)
        (body_of total head.now f (item_at f row.0).id) (ok [])) buffer.old) }
{
    if !has_body(views::type_of(table, row)) {
        return 0;
    }
    let n = joining::length_of(table, row);
    if (buffer.len() as u64) < n {
        return 0;
    }
    joining::copy_bytes(head, table, rows, row, 0, n as usize, buffer);
    n as usize
}

// The body of an item of an accepted file's table, to the front of a buffer, and its length: 21, then 22.
pub fn body_in(
    head: &[u8],
    table: &[u32],
    rows: &[u32],
    id: ItemId,
    buffer: &mut [u8],
) -> Result<usize, Refusal>
    ensures { (total : ℕ) (f : File) → Followed table.now rows.now head.now total f →
        AllFed total head.now f → 16402 ≤ length buffer.old →
        (result ≡ told_bodied (body_in total head.now f id.0)) ×
        (buffer.new ≡ buffer_after (body_in total head.now f id.0) buffer.old) }
{
    let row = asked::picture_row(table, id)?;
    Ok(put_body(head, table, rows, row, buffer))
}
