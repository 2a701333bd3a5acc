// A file is opened: read, judged, and its table filled. The questions (crates above) go on from there.
#![tactic(auto)]

ghost use Rattle.std.specs.Prelude.{◌≡◌, ◌≤◌, length, OnOk};
ghost use Rattle.boxes.specs.Answer.{ok};
ghost use Rattle.contents.specs.File.{File, read_file};
ghost use Rattle.records.specs.inner.Named.{NamedIn};
ghost use Rattle.arranged.specs.inner.Order.{InOrder};
ghost use Rattle.derived.specs.inner.Told.{Resolved};
ghost use Rattle.opening.specs.Told.{OpenedGiven};

use boxes::Refusal;
use placed::Ends;

// Reading and judging: 1 to 20. The records are in the order of `iinf`. Where the file is accepted, `rows` has for each
// target the row that it names, from 2,048 on the rows in rising ID order, and from 2,304 on for each extent of a method 2 item
// the row that it names; elsewhere nothing is said of it.
pub fn open_rows(
    head: &[u8],
    total: u64,
    table: &mut [u32],
    rows: &mut [u32],
) -> Result<(), Refusal>
    requires { 2816 ≤ length rows.old }
    ensures opened_given { OpenedGiven head.now total table.old result table.new }
    ensures resolved { (f : File) → read_file total head.now ≡ ok f →
        OnOk result ((Resolved table.new rows.new f × NamedIn f rows.new) × InOrder rows.new f) }
{
    let d = reading::read_file(head, total, table, rows)?;
    let ends = Ends {
        total,
        idat: d.idat_end,
    };
    if let Err(f) = judging::judge(head, ends, table, &*rows) {
        table::clear(table);
        return Err(f);
    }
    Ok(())
}
