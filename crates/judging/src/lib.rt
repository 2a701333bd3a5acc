// Judging: refusals 12 to 20, 29 and 30 in the order of document 01, and the sizes into the table.
#![tactic(auto)]

ghost use Rattle.std.specs.Prelude.{◌≡◌, List, ◌&&◌, not, ℕ, ◌≤◌, ◌<◌, length, drop};
ghost use Rattle.contents.specs.File.{File};
ghost use Rattle.rules.specs.Joined.{item_at};
ghost use Rattle.rules.specs.Derivations.{scene_of};
ghost use Rattle.boxes.specs.Types.{image};
ghost use Rattle.pictures.specs.Scene.{picture_at, good_sizes};
ghost use Rattle.rules.specs.Rules.{in_order, rule18, rule19, by_depth};
ghost use Rattle.records.specs.inner.Rows.{TargetsRowed};
ghost use Rattle.records.specs.inner.Named.{NamedIn};
ghost use Rattle.views.specs.inner.Told.{fault_of};
ghost use Rattle.linking.specs.inner.Bytes.{LinksAre};
ghost use Rattle.derived.specs.inner.Told.{Resolved, Followed, RunsFor};
ghost use Rattle.sizing.specs.inner.Drawn.{Drawn};
ghost use Rattle.judging.specs.inner.Order.{rule_by, places_judged, pictures_judged, Early, Ready, NoneDeeper, told_judged};
ghost use Rattle.judging.specs.inner.Order.{Read, RestBy, PlacesBy, JudgedBy};

use boxes::Refusal;
use placed::Ends;
use table::{ItemRow, Table};

// A rule that is asked of each item in table order.
#[derive(Clone, Copy)]
pub enum Rule {
    // 13 before 14; 30 stands for every item that is made of others.
    Placed,
    // 17, 18, 19. 15, 29 and 16 are asked where the sizes are filled in.
    Derived,
    Itself,
    Deep,
}

// 18 for the item in a row. No picture that is at most 16 deep is derived from itself.
fn itself_fault(table: &[u32], rows: &[u32], row: ItemRow) -> Option<u32>
    ensures { (total : ℕ) (head : List ℕ) (f : File) →
        Drawn table.now rows.now head total f → row.0 < length f.items →
        result ≡ fault_of (rule18 (scene_of total head f) row.0 (item_at f row.0)) }
{
    if views::record_word(table, row, 14) <= 16 {
        return None;
    }
    let n = views::item_count(table);
    if 256 < n {
        return None;
    }
    if marks::derives_itself(table, rows, n, row) {
        return Some(18);
    }
    None
}

// 19 for the item in a row.
fn deep_fault(table: &[u32], row: ItemRow) -> Option<u32>
    ensures { (total : ℕ) (head rows : List ℕ) (f : File) → Drawn table.now rows head total f →
        row.0 < length f.items → result ≡ fault_of (rule19 (scene_of total head f) row.0 (item_at f row.0)) }
{
    if 16 < views::record_word(table, row, 14) {
        return Some(19);
    }
    None
}

// Whether 20 refuses the item in a row: it is a picture, and its sizes are wrong.
fn is_misfit(head: &[u8], table: &[u32], rows: &[u32], row: ItemRow) -> bool
    ensures { (total : ℕ) (f : File) →
        Drawn table.now rows.now head.now total f → row.0 < length f.items →
        result ≡ (image (item_at f row.0).type &&
        not (good_sizes (scene_of total head.now f)
        (picture_at (scene_of total head.now f) row.0))) }
{
    views::is_image(views::type_of(table, row)) && !sizing::good_sizes(head, table, rows, row)
}

// The number that a rule refuses the item in a row by, if it does.
fn fault_of(
    head: &[u8],
    ends: Ends,
    table: &[u32],
    rows: &[u32],
    runs: &[u16; 512],
    rule: Rule,
    row: ItemRow,
) -> Option<u32>
    ensures { (f : File) →
        Ready rule table.now rows.now runs.now head.now ends.total ends.idat f →
        row.0 < length f.items → result ≡ fault_of
        (rule_by rule ends.total head.now f row.0 (item_at f row.0)) }
{
    match rule {
        Rule::Placed => placed::place_fault(table, row, ends),
        Rule::Derived => derived::derived_fault(head, table, rows, runs, row),
        Rule::Itself => itself_fault(table, rows, row),
        Rule::Deep => deep_fault(table, row),
    }
}

// The first item in table order that a rule refuses. No table of a file is shorter or has more items: the two tests
// spare every reader of a record its own.
fn first_fault(
    head: &[u8],
    ends: Ends,
    table: &[u32],
    rows: &[u32],
    runs: &[u16; 512],
    rule: Rule,
) -> Result<(), Refusal>
    ensures { (f : File) →
        Ready rule table.now rows.now runs.now head.now ends.total ends.idat f →
        result ≡ told_judged (in_order (rule_by rule ends.total head.now f) 0 f.items) }
{
    if table.len() < Table::WORDS {
        return Ok(());
    }
    let n = views::item_count(table);
    if 256 < n {
        return Ok(());
    }
    for k in 0..n {
        let row = views::row_at(table, k);
        if let Some(number) = fault_of(head, ends, table, rows, runs, rule, row) {
            return Err(Refusal {
                number,
                place: views::id_of(table, row).0 as u64,
            });
        }
    }
    Ok(())
}

// The largest depth that the table has.
fn deepest_of(table: &[u32]) -> u32
    ensures { NoneDeeper table.now result }
{
    let n = views::item_count(table);
    let mut deepest: u32 = 0;
    for r in 0..n {
        deepest = deepest.max(views::record_word(table, ItemRow(r), 14));
    }
    deepest
}

// 20, by rising depth: of the pictures that break it, the first one of the least depth. No table of a file is shorter or has more items, as above.
fn judge_sizes(head: &[u8], table: &[u32], rows: &[u32]) -> Result<(), Refusal>
    ensures { (total : ℕ) (f : File) →
        Drawn table.now rows.now head.now total f →
        result ≡ told_judged (by_depth (scene_of total head.now f) f.items 17 0) }
{
    if table.len() < Table::WORDS {
        return Ok(());
    }
    let n = views::item_count(table);
    if 256 < n {
        return Ok(());
    }
    // The depth and the row of the one to name; 17 while there is none.
    let mut depth: u32 = 17;
    let mut named: usize = 0;
    for k in 0..n {
        let d = views::record_word(table, ItemRow(k), 14);
        if d < depth && is_misfit(head, table, rows, ItemRow(k)) {
            depth = d;
            named = k;
        }
    }
    if depth == 17 {
        return Ok(());
    }
    Err(Refusal {
        number: 20,
        place: views::id_of(table, ItemRow(named)).0 as u64,
    })
}

// 18 for every item. Where all rest on pictures without inputs no item is asked.
fn judge_itself(
    head: &[u8],
    ends: Ends,
    table: &[u32],
    rows: &[u32],
    runs: &[u16; 512],
) -> Result<(), Refusal>
    ensures { (f : File) → Drawn table.now rows.now head.now ends.total f →
        result ≡ told_judged (in_order (rule_by Rule.Itself ends.total head.now f) 0 f.items) }
{
    let n = views::item_count(table);
    if n <= 256 && marks::all_grounded(table, rows, n) {
        return Ok(());
    }
    first_fault(head, ends, table, rows, runs, Rule::Itself)
}

// 18 to 20, on the table with sizes and depths. Where nothing lies over 16 deep, 18 and 19 refuse nothing.
fn judge_pictures(
    head: &[u8],
    ends: Ends,
    table: &[u32],
    rows: &[u32],
    runs: &[u16; 512],
) -> Result<(), Refusal>
    ensures { (f : File) → Drawn table.now rows.now head.now ends.total f →
        result ≡ told_judged (pictures_judged ends.total head.now f) }
{
    let deepest = deepest_of(table);
    if deepest <= 16 {
        return judge_sizes(head, table, rows);
    }
    judge_itself(head, ends, table, rows, runs)?;
    first_fault(head, ends, table, rows, runs, Rule::Deep)?;
    judge_sizes(head, table, rows)
}

// 15 to 20, for a file that keeps 12 to 14. 15, 29 and 16 are judged where sizes and depths are filled in, and depths
// are right only where 17 is kept: so 17 is asked first, on the table as it was read, and what it says waits. Two calls
// of `fill_sizes`, so that its loop stays a function of its own (items::read_items).
fn judge_placed(
    head: &[u8],
    ends: Ends,
    table: &mut [u32],
    rows: &[u32],
    runs: &[u16; 512],
) -> Result<(), Refusal>
    requires { (f : File) × (x : List ℕ) × Read table.old head.now ends.total ends.idat f x }
    ensures rest_by { (f : File) (x : List ℕ) →
        Read table.old head.now ends.total ends.idat f x →
        Followed table.old rows.now head.now ends.total f →
        Resolved table.old rows.now f →
        RunsFor table.old rows.now (length head.now) f runs.now →
        RestBy head.now ends.total f x result table.new }
    ensures table_unchanged { drop 11280 table.new ≡ drop 11280 table.old }
{
    let d = first_fault(head, ends, &*table, rows, runs, Rule::Derived);
    let n = views::item_count(&*table);
    let depths = depths::depths_of(&*table, rows, n);
    match d {
        Err(f) => sizing::fill_sizes(head, table, &depths).and(Err(f)),
        Ok(()) => {
            sizing::fill_sizes(head, table, &depths)?;
            judge_pictures(head, ends, &*table, rows, runs)
        }
    }
}

// The first item in table order that 13, 30 or 14 refuses, by the levels of all rows.
fn first_unplaced(
    ends: Ends,
    table: &[u32],
    rows: &[u32],
    links: &[u8; 256],
    n: usize,
) -> Result<(), Refusal>
    requires { (n ≤ 256) × (11280 ≤ length table.now) }
    ensures { (head : List ℕ) (f : File) → Early table.now head ends.total ends.idat f →
        NamedIn f rows.now → LinksAre table.now rows.now n links.now →
        n ≡ length f.items → result ≡ told_judged (places_judged ends.total head f) }
{
    let sums = linking::sums_of(table, n);
    for k in 0..n {
        if let Some(number) = placed::linked_fault(table, rows, links, &sums, ItemRow(k), ends) {
            return Err(Refusal {
                number,
                place: views::id_of(table, ItemRow(k)).0 as u64,
            });
        }
    }
    Ok(())
}

// 13 to 20 of a file in which some item is made of others: all items are asked again, with their levels, and where each item's
// bytes lie is looked for from the bottom up, for 17.
fn judge_linked(head: &[u8], ends: Ends, table: &mut [u32], rows: &[u32]) -> Result<(), Refusal>
    requires { ((f : File) × (x : List ℕ) × Read table.old head.now ends.total ends.idat f x) ×
        (2816 ≤ length rows.now) }
    ensures places_by { (f : File) (x : List ℕ) →
        Read table.old head.now ends.total ends.idat f x →
        NamedIn f rows.now → Resolved table.old rows.now f →
        PlacesBy head.now ends.total f x result table.new }
    ensures table_unchanged { drop 11280 table.new ≡ drop 11280 table.old }
{
    if table.len() < Table::WORDS {
        return Ok(());
    }
    let n = views::item_count(&*table);
    if 256 < n {
        return Ok(());
    }
    let links = linking::links_of(&*table, rows, n);
    first_unplaced(ends, &*table, rows, &links, n)?;
    let runs = joining::runs_of(head.len() as u64, &*table, rows, &links, n);
    judge_placed(head, ends, table, rows, &runs)
}

// The table of a file that was read becomes that of the accepted file, or the first fault of 12 to 20 and 29 is given.
pub fn judge(head: &[u8], ends: Ends, table: &mut [u32], rows: &[u32]) -> Result<(), Refusal>
    requires { ((f : File) × (x : List ℕ) × Read table.old head.now ends.total ends.idat f x) ×
        TargetsRowed table.old rows.now × (2816 ≤ length rows.now) }
    ensures judged_by { (f : File) (x : List ℕ) →
        Read table.old head.now ends.total ends.idat f x → NamedIn f rows.now →
        JudgedBy head.now ends.total f x result table.new }
    ensures table_unchanged { drop 11280 table.new ≡ drop 11280 table.old }
{
    if !placed::good_primary(&*table) {
        return Err(Refusal {
            number: 12,
            place: table::word(&*table, 5) as u64,
        });
    }
    // Where no item is made of others nothing is asked of the runs.
    let none = [0u16; 512];
    match first_fault(head, ends, &*table, rows, &none, Rule::Placed) {
        Ok(()) => judge_placed(head, ends, table, rows, &none),
        Err(f) => {
            if f.number == 30 {
                return judge_linked(head, ends, table, rows);
            }
            Err(f)
        }
    }
}
