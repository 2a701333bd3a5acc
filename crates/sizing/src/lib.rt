// Sizes and depth into the table, and refusal 20 over them.
#![tactic(auto)]

ghost use Rattle.std.specs.Prelude.{◌≡◌, List, [], ◌∷◌, ◌++◌, ℕ, ◌+◌, ◌*◌, ◌≤◌, ◌<◌, true, ◌&&◌, length, get_or, drop, leb, Ok, None};
ghost use Rattle.std.proofs.lemmas.List.Edits.{sets};
ghost use Rattle.boxes.specs.Answer.{ok};
ghost use Rattle.boxes.specs.Types.{image, derived};
ghost use Rattle.contents.specs.Iinf.{Item};
ghost use Rattle.contents.specs.File.{File, read_file};
ghost use Rattle.pictures.specs.Scene.{Scene, picture_at, output_of, same_size, good_side, good_size, first_input, all_size, covered, made_up, good_sizes};
ghost use Rattle.pictures.specs.Turn as Turns;
ghost use Rattle.pictures.specs.Recipe.{Grid};
ghost use Rattle.pictures.specs.Depth.{depth};
ghost use Rattle.rules.specs.Joined.{item_at};
ghost use Rattle.rules.specs.Places.{Places, places_in};
ghost use Rattle.rules.specs.Derivations.{scene_of};
ghost use Rattle.rules.specs.Rules.{in_order, rule15-29-16};
ghost use Rattle.rules.specs.Words.{head_words, file_words};
ghost use Rattle.records.specs.inner.Raw.{raw_of};
ghost use Rattle.views.specs.inner.View.{TableOf, SizesAre, AllPlaced, record_word, id_of};
ghost use Rattle.views.specs.inner.Told.{fault_of};
ghost use Rattle.sizing.specs.inner.Drawn.{sizes_for, sizes_in, told_properties, ToldBefore, Drawn, tiles_fit};
ghost use Rattle.boxes.specs.Told.{told};

use boxes::Refusal;
use declared::Sizes;
use derived::Derivation;
use pictures::Size;
use table::{ItemRow, Table};

// The five words of a record that say its sizes and its depth.
fn put_sizes(table: &mut [u32], row: ItemRow, s: Size, o: Size, depth: u32)
    requires { (11280 ≤ length table.old) × (row.0 < 256) }
    ensures { table.new ≡ sets table.old (26 + 16 * row.0) (sizes_for s o depth) }
{
    let at = Table::item(row) + 10;
    table[at] = s.wide;
    table[at + 1] = s.high;
    table[at + 2] = o.wide;
    table[at + 3] = o.high;
    table[at + 4] = depth;
}

// The sizes of the picture in a row, where those of the rows before it stand in their records. A camera gives the tiles
// of a grid the same properties: the row before is looked at first, and what it has kept is kept here where the type is
// the same too. Its width is 0 where it is opaque.
fn sizes_of(head: &[u8], table: &[u32], row: ItemRow) -> Option<Sizes>
    ensures { (pl : Places) (f : File) → TableOf table.now head.now pl f →
        row.0 < length f.items → ToldBefore table.now f row.0 → result ≡ told_properties f row.0 }
{
    let r = row.0;
    if 0 < r {
        let last = ItemRow(r - 1);
        let wide = views::record_word(table, last, 10);
        if wide != 0 && declared::is_alike(table, row, last) {
            return Some(Sizes {
                declared: Size {
                    wide,
                    high: views::record_word(table, last, 11),
                },
                output: Size {
                    wide: views::record_word(table, last, 12),
                    high: views::record_word(table, last, 13),
                },
            });
        }
    }
    if declared::is_configured(table, row) {
        return declared::read_sizes(head, table, row);
    }
    None
}

// The sizes and depth of the item in a row into its record; an opaque one has none. Where 15, 29 or 16 refuses it, the number.
fn fill_row(head: &[u8], table: &mut [u32], row: ItemRow, depth: u32) -> Option<u32>
    requires { (11280 ≤ length table.old) × (row.0 < 256) }
    ensures value { (pl : Places) (f : File) → TableOf table.old head.now pl f →
        row.0 < length f.items → record_word table.old row.0 12 ≡ (item_at f row.0).protection →
        ToldBefore table.old f row.0 → result ≡ fault_of (rule15-29-16 f (item_at f row.0)) }
    ensures table_after { (pl : Places) (f : File) → TableOf table.old head.now pl f →
        row.0 < length f.items → ToldBefore table.old f row.0 → result ≡ None →
        table.new ≡ sets table.old (26 + 16 * row.0) (sizes_in f row.0 depth) }
    ensures table_unchanged { (result ≡ None → ⊥) → table.new ≡ table.old }
    ensures table_unchanged_2 { drop 11280 table.new ≡ drop 11280 table.old }
{
    if !views::is_image(views::type_of(&*table, row)) {
        let none = Size { wide: 0, high: 0 };
        put_sizes(table, row, none, none, 0);
        return None;
    }
    if views::record_word(&*table, row, 12) != 0 {
        return Some(15);
    }
    let Some(s) = sizes_of(head, &*table, row) else {
        return Some(declared::properties_fault(&*table, row));
    };
    put_sizes(table, row, s.declared, s.output, depth);
    None
}

// The sizes and depths of all items, or the first that 15, 29 or 16 refuses.
pub fn fill_sizes(head: &[u8], table: &mut [u32], depths: &[u32]) -> Result<(), Refusal>
    ensures by_index { (total : ℕ) (f : File) (x : List ℕ) → total < 18446744073709551616 →
        read_file total head.now ≡ ok f → table.old ≡ raw_of (head_words total f)
        (places_in total head.now) f ++ x → result ≡ told (λ u. u)
        (in_order (λ (k : ℕ) (i : Item). rule15-29-16 f i) 0 f.items) }
    ensures table_filled { (total : ℕ) (f : File) (x : List ℕ) → total < 18446744073709551616 →
        read_file total head.now ≡ ok f → AllPlaced total head.now f →
        table.old ≡ raw_of (head_words total f) (places_in total head.now) f ++ x →
        ((r : ℕ) → r < length f.items → get_or depths.now r 0 ≡ depth (scene_of total head.now f)
        r) → result ≡ Ok tt → table.new ≡ file_words total head.now f ++ x }
    ensures table_unchanged { drop 11280 table.new ≡ drop 11280 table.old }
{
    if table.len() < Table::WORDS {
        return Ok(());
    }
    let n = views::item_count(&*table);
    if 256 < n {
        return Ok(());
    }
    for k in 0..n {
        let fault = fill_row(head, table, ItemRow(k), table::word(depths, k));
        if let Some(number) = fault {
            return Err(Refusal {
                number,
                place: views::id_of(&*table, ItemRow(k)).0 as u64,
            });
        }
    }
    Ok(())
}

// The size that an item declares, once the table has it.
pub fn declared_in(table: &[u32], row: ItemRow) -> Size
    ensures { (s : Scene) → SizesAre table.now s → row.0 < length s → result ≡ (picture_at s row.0).declared }
{
    Size {
        wide: views::record_word(table, row, 10),
        high: views::record_word(table, row, 11),
    }
}

// Its output size.
pub fn output_in(table: &[u32], row: ItemRow) -> Size
    ensures { (s : Scene) → SizesAre table.now s → row.0 < length s → result ≡ output_of (picture_at s row.0) }
{
    Size {
        wide: views::record_word(table, row, 12),
        high: views::record_word(table, row, 13),
    }
}

// A width or height of 1 to 65,535.
fn is_good_side(n: u32) -> bool
    ensures { result ≡ good_side n }
{
    1 <= n && n <= 65535
}

fn is_good_size(s: Size) -> bool
    ensures { result ≡ good_size s }
{
    is_good_side(s.wide) && is_good_side(s.high)
}

// The output size of an item of a table that is known to be as long as a file's.
fn held_output(table: &[u32], row: ItemRow) -> Size
    requires { 11280 ≤ length table.now }
    ensures { (s : Scene) → SizesAre table.now s → row.0 < length s → result ≡ output_of (picture_at s row.0) }
{
    Size {
        wide: views::held_word(table, row, 12),
        high: views::held_word(table, row, 13),
    }
}

// Whether all inputs of an item have the output size z. No table of a file is shorter: the one test spares each input its own.
fn all_size(table: &[u32], rows: &[u32], row: ItemRow, z: Size) -> bool
    ensures { (total : ℕ) (head : List ℕ) (f : File) →
        Drawn table.now rows.now head total f → row.0 < length f.items →
        image (item_at f row.0).type ≡ true → result ≡ all_size (scene_of total head f) z
        (picture_at (scene_of total head f) row.0).inputs }
{
    if table.len() < Table::WORDS {
        return true;
    }
    let n = derived::input_count(table, row);
    for j in 0..n {
        if held_output(table, derived::input_of(table, rows, row, j)) != z {
            return false;
        }
    }
    true
}

// Whether so many tiles of a side reach over the canvas's.
fn is_covered(canvas: u32, tile: u32, count: u32) -> bool
    ensures { result ≡ leb canvas (tile * count) }
{
    canvas as u64 <= (tile as u64) * (count as u64)
}

// Whether tiles of one size reach over a canvas of the declared size.
fn tiles_fit(
    table: &[u32],
    rows: &[u32],
    row: ItemRow,
    down: u32,
    across: u32,
    canvas: Size,
) -> bool
    ensures { (total : ℕ) (head : List ℕ) (f : File) →
        Drawn table.now rows.now head total f → row.0 < length f.items →
        image (item_at f row.0).type ≡ true → 0 < length (picture_at (scene_of total head f) row.0).inputs →
        result ≡ tiles_fit (scene_of total head f) (picture_at (scene_of total head f) row.0)
        (record { rows = down; columns = across; wide = canvas.wide; high = canvas.high }) }
{
    let tile = output_in(table, derived::input_of(table, rows, row, 0));
    all_size(table, rows, row, tile)
        && is_covered(canvas.wide, tile.wide, across)
        && is_covered(canvas.high, tile.high, down)
        && declared_in(table, row) == canvas
}

// Whether the declared size of a derived item is what its body or its input makes of it.
fn is_as_derived(head: &[u8], table: &[u32], rows: &[u32], row: ItemRow) -> bool
    ensures { (total : ℕ) (f : File) →
        Drawn table.now rows.now head.now total f → row.0 < length f.items →
        image (item_at f row.0).type ≡ true → derived (item_at f row.0).type ≡ true →
        result ≡ made_up (scene_of total head.now f) (picture_at (scene_of total head.now f) row.0)
        (picture_at (scene_of total head.now f) row.0).recipe }
{
    match derived::derivation_of(head, table, rows, row) {
        None => true,
        Some(Derivation::Copy) => {
            declared_in(table, row) == output_in(table, derived::input_of(table, rows, row, 0))
        }
        Some(
            Derivation::Tiles {
                rows: down,
                columns,
                wide,
                high,
            },
        ) => tiles_fit(table, rows, row, down, columns, Size { wide, high }),
        Some(Derivation::Layers { wide, high }) => declared_in(table, row) == Size { wide, high },
    }
}

// Whether the declared size is what the item's body or its input makes of it; a coded item has neither, and hands nothing on.
fn is_made_up(head: &[u8], table: &[u32], rows: &[u32], row: ItemRow) -> bool
    ensures { (total : ℕ) (f : File) →
        Drawn table.now rows.now head.now total f → row.0 < length f.items →
        image (item_at f row.0).type ≡ true → result ≡ made_up (scene_of total head.now f)
        (picture_at (scene_of total head.now f) row.0)
        (picture_at (scene_of total head.now f) row.0).recipe }
{
    !views::is_derived(views::type_of(table, row)) || is_as_derived(head, table, rows, row)
}

// Rule 20 for the picture in a row.
pub fn good_sizes(head: &[u8], table: &[u32], rows: &[u32], row: ItemRow) -> bool
    ensures { (total : ℕ) (f : File) →
        Drawn table.now rows.now head.now total f → row.0 < length f.items →
        image (item_at f row.0).type ≡ true → result ≡ good_sizes (scene_of total head.now f)
        (picture_at (scene_of total head.now f) row.0) }
{
    is_made_up(head, table, rows, row)
        && is_good_size(declared_in(table, row))
        && is_good_size(output_in(table, row))
}
