// The picture of a picture: how an item of an accepted file is put together, from its output image down to the coded items; and the picture of a refusal.
#![tactic(auto)]

mod stroke;
mod turns;

ghost use Rattle.std.specs.Prelude.{◌≡◌, ◌-◌, ◌≤◌};

use boxes::Refusal;
use boxes::types::{GRID, IDEN, IOVL};
use canvas::{put, put_number, put_with};
use corners::Corner;
use layout::{Margins, Part, Pose, ZERO};
use pictures::Size;
use table::ItemRow;
use words::PlaceKind;

// How a picture lies: what is seen of it, its pose, whether what is cut away is drawn around it, of how many pictures that lie
// just so it is the copy, and how many millionths of a pixel a step on the screen is, which is the same for all.
#[derive(Clone, Copy)]
struct Lying {
    part: Part,
    pose: Pose,
    around: bool,
    copies: u32,
    scale: u32,
}

// How far drawing may go on: so many derivations down, and with so many inputs.
#[derive(Drop)]
struct Limit {
    down: u32,
    left: u32,
}

fn no_margins() -> Margins {
    Margins {
        left: 0,
        top: 0,
        right: 0,
        bottom: 0,
    }
}

// A tile of a grid.
fn tile_corner(head: &[u8], table: &[u32], rows: &[u32], row: ItemRow, k: u32, s: Size) -> Corner {
    match derived::grid_of(head, table, rows, row) {
        Some(g) => corners::tile_in(g.columns, k, s),
        None => Corner { x: ZERO, y: ZERO },
    }
}

// An input of an overlay of n inputs, its body b in one piece.
fn corner_in(b: &[u8], n: usize, k: u32) -> Corner
    requires { n ≤ 2048 }
{
    match pictures::read_overlay(b, n) {
        Some(o) => corners::offset_in(b, o.bytes, k),
        None => Corner { x: ZERO, y: ZERO },
    }
}

// The same of a body that is joined, in numbers of so many bytes. The body is copied from the length of k offsets on: the offset
// stands there where that of the first input stands in the body.
fn copied_corner(
    head: &[u8],
    table: &[u32],
    rows: &[u32],
    row: ItemRow,
    bytes: usize,
    k: u32,
) -> Corner
    requires { bytes ≤ 4 }
{
    let mut b = [0u8; 26];
    let from = 2 * bytes * (k as usize);
    joining::copy_bytes(head, table, rows, row, from, 10 + 4 * bytes, &mut b);
    corners::offset_in(&b, bytes, 0)
}

fn joined_corner(head: &[u8], table: &[u32], rows: &[u32], row: ItemRow, n: usize, k: u32) -> Corner
    requires { n ≤ 2048 }
{
    let Some(o) = derived::joined_overlay(head, table, rows, row, n) else {
        return Corner { x: ZERO, y: ZERO };
    };
    if o.bytes == 2 {
        return copied_corner(head, table, rows, row, 2, k);
    }
    copied_corner(head, table, rows, row, 4, k)
}

// An input of an overlay.
fn layer_corner(head: &[u8], table: &[u32], rows: &[u32], row: ItemRow, k: u32) -> Corner {
    let n = derived::input_count(table, row);
    if 2048 < n {
        return Corner { x: ZERO, y: ZERO };
    }
    if derived::is_joined(table, row) {
        return joined_corner(head, table, rows, row, n, k);
    }
    corner_in(derived::body_of(head, table, row), n, k)
}

// Where the input with a number from 0 lies, which has the output size s.
fn corner_of(head: &[u8], table: &[u32], rows: &[u32], row: ItemRow, k: u32, s: Size) -> Corner {
    match views::type_of(table, row) {
        GRID => tile_corner(head, table, rows, row, k, s),
        IOVL => layer_corner(head, table, rows, row, k),
        _ => Corner { x: ZERO, y: ZERO },
    }
}

// How much is cut away around an item's output image, by itself and by the pictures that it is a copy of.
fn margins_of(head: &[u8], table: &[u32], rows: &[u32], d: u32, row: ItemRow) -> Margins {
    if views::type_of(table, row) == IDEN {
        if 0 < d {
            let input = derived::input_of(table, rows, row, 0);
            let m = margins_of(head, table, rows, d - 1, input);
            return turned::margins_through(head, table, row, sizing::declared_in(table, row), m);
        }
    }
    turned::margins_through(
        head,
        table,
        row,
        sizing::declared_in(table, row),
        no_margins(),
    )
}

fn is_cut(m: Margins) -> bool {
    0 < m.left || 0 < m.top || 0 < m.right || 0 < m.bottom
}

// The ID and type of an item, and what its transforms do.
fn put_tag(head: &[u8], table: &[u32], row: ItemRow, lying: Lying) {
    let id = views::id_of(table, row).0;
    let kind = views::type_of(table, row);
    let part = lying.part;
    let pose = lying.pose;
    if views::is_derived(kind) {
        canvas::open_derived_tag(part, pose, id, kind, lying.scale, lying.copies);
    } else {
        canvas::open_coded_tag(part, pose, id, kind, lying.scale);
    }
    turns::put_turns(head, table, row);
    canvas::close_tag();
}

// What is drawn before an item's inputs.
fn open_item(table: &[u32], row: ItemRow, pose: Pose) {
    let s = sizing::declared_in(table, row);
    let id = views::id_of(table, row).0;
    let kind = views::type_of(table, row);
    match kind {
        IDEN => canvas::open_group(),
        GRID => canvas::open_canvas(s),
        IOVL => {
            canvas::open_canvas(s);
            canvas::put_fill(id, s, pose);
        }
        _ => canvas::put_coded(id, kind, s),
    }
}

// What is drawn after them.
fn close_item(head: &[u8], table: &[u32], rows: &[u32], row: ItemRow, lying: Lying) {
    let part = lying.part;
    let pose = lying.pose;
    match views::type_of(table, row) {
        IDEN => canvas::close_group(),
        GRID => canvas::close_canvas(),
        IOVL => {
            tag_layers(head, table, rows, row, lying);
            canvas::close_canvas();
        }
        _ => canvas::put_arrow(part, pose, lying.scale),
    }
    put_tag(head, table, row, lying);
}

// How an input lies of which a part is seen.
fn lying_in(lying: Lying, part: Part, copied: bool) -> Lying {
    let pose = lying.pose;
    if !copied {
        return Lying {
            part,
            pose,
            around: false,
            copies: 1,
            scale: lying.scale,
        };
    }
    Lying {
        part,
        pose,
        around: lying.around,
        copies: lying.copies.wrapping_add(1),
        scale: lying.scale,
    }
}

// Where an input lies on its canvas, and what is seen of it.
fn seen_at(
    head: &[u8],
    table: &[u32],
    rows: &[u32],
    row: ItemRow,
    k: u32,
    lying: Lying,
    s: Size,
) -> Option<Part> {
    let part = lying.part;
    let corner = corner_of(head, table, rows, row, k, s);
    corners::seen_of(
        part,
        sizing::declared_in(table, row),
        lying.around,
        corner,
        s,
    )
}

fn open_input(head: &[u8], table: &[u32], rows: &[u32], row: ItemRow, k: u32, s: Size) {
    let corner = corner_of(head, table, rows, row, k, s);
    canvas::open_input(corner.x, corner.y);
}

// What crops kept of an input.
fn put_kept(head: &[u8], table: &[u32], rows: &[u32], input: ItemRow, lying: Lying) {
    let m = margins_of(head, table, rows, 16, input);
    if is_cut(m) {
        let part = lying.part;
        let pose = lying.pose;
        let s = sizing::output_in(table, input);
        let up = views::is_coded(views::type_of(table, input));
        canvas::put_kept(part, pose, s, m, lying.scale, up);
    }
}

// What tells of an overlay's input again, above those that lie on it.
fn tag_layer(head: &[u8], table: &[u32], rows: &[u32], row: ItemRow, k: u32, lying: Lying) {
    let input = derived::input_of(table, rows, row, k as usize);
    let s = sizing::output_in(table, input);
    let Some(part) = seen_at(head, table, rows, row, k, lying, s) else {
        return;
    };
    open_input(head, table, rows, row, k, s);
    let within = lying_in(lying, part, false);
    canvas::put_under(s);
    put_kept(head, table, rows, input, within);
    put_tag(head, table, input, within);
    canvas::close_group();
}

// How many inputs an item has, at most 2,048.
fn input_count(table: &[u32], row: ItemRow) -> u32
    ensures { result ≤ 2048 }
{
    derived::input_count(table, row).min(2048) as u32
}

fn tag_layers(head: &[u8], table: &[u32], rows: &[u32], row: ItemRow, lying: Lying) {
    for k in 0..input_count(table, row) {
        tag_layer(head, table, rows, row, k, lying);
    }
}

// What is drawn after an input: if it is no copy, its edge and what its crops kept.
fn close_input(
    head: &[u8],
    table: &[u32],
    rows: &[u32],
    input: ItemRow,
    lying: Lying,
    copied: bool,
) {
    if !copied {
        canvas::put_edge(sizing::output_in(table, input));
        put_kept(head, table, rows, input, lying);
    }
    canvas::close_group();
}

// Draws the output image of an item as far as a limit, and answers how many more inputs may be drawn.
#[cycle(draw_input_draw_output_draw_reconstructed)]
fn draw_output(
    head: &[u8],
    table: &[u32],
    rows: &[u32],
    limit: Limit,
    row: ItemRow,
    lying: Lying,
) -> u32
    ensures { result ≤ limit.left }
{
    let s = sizing::declared_in(table, row);
    let part = lying.part;
    let pose = lying.pose;
    let around = lying.around;
    turns::open_turns(head, table, row, 0, s, around);
    let seen = turned::part_within(head, table, row, s, part);
    let posed = turned::pose_within(head, table, row, s, pose);
    let within = Lying {
        part: seen,
        pose: posed,
        around,
        copies: lying.copies,
        scale: lying.scale,
    };
    let rest = draw_reconstructed(head, table, rows, limit, row, within);
    turns::close_turns(head, table, row, s, around);
    rest
}

#[cycle(draw_input_draw_output_draw_reconstructed)]
fn draw_reconstructed(
    head: &[u8],
    table: &[u32],
    rows: &[u32],
    limit: Limit,
    row: ItemRow,
    lying: Lying,
) -> u32
    ensures { result ≤ limit.left }
{
    let pose = lying.pose;
    open_item(table, row, pose);
    let mut rest = limit.left;
    for k in 0..input_count(table, row) {
        let further = Limit {
            down: limit.down,
            left: rest,
        };
        rest = draw_input(head, table, rows, further, row, k, lying);
    }
    close_item(head, table, rows, row, lying);
    rest
}

// The input with a number from 0. One that is not seen counts too, so that no file takes for ever.
#[cycle(draw_input_draw_output_draw_reconstructed)]
fn draw_input(
    head: &[u8],
    table: &[u32],
    rows: &[u32],
    limit: Limit,
    row: ItemRow,
    k: u32,
    lying: Lying,
) -> u32
    ensures { result ≤ limit.left - 1 }
{
    let copied = views::type_of(table, row) == IDEN;
    let input = derived::input_of(table, rows, row, k as usize);
    let s = sizing::output_in(table, input);
    let Some(part) = seen_at(head, table, rows, row, k, lying, s) else {
        return limit.left.saturating_sub(1);
    };
    open_input(head, table, rows, row, k, s);
    if limit.down == 0 || limit.left == 0 {
        return shut(table, input, s);
    }
    let within = lying_in(lying, part, copied);
    let further = Limit {
        down: limit.down - 1,
        left: limit.left - 1,
    };
    let rest = draw_output(head, table, rows, further, input, within);
    close_input(head, table, rows, input, within, copied);
    rest
}

// A picture that is not gone into.
fn shut(table: &[u32], input: ItemRow, s: Size) -> u32
    ensures { result ≡ 0 }
{
    canvas::put_shut(
        views::id_of(table, input).0,
        views::type_of(table, input),
        s,
    );
    canvas::close_group();
    0
}

// The orientation that says an item's transforms, if one does: none says a crop.
fn put_orientation(head: &[u8], table: &[u32], row: ItemRow) {
    if let Some(n) = facing::orientation_of(head, table, row) {
        put_with(b", orientation ", n);
    }
}

// Item 2 (iden): 480 x 640 pixels, orientation 8; of which file it is; and what is done to it.
fn put_title(head: &[u8], table: &[u32], row: ItemRow) {
    let s = sizing::declared_in(table, row);
    let o = sizing::output_in(table, row);
    put_with(
        b"<text class='title' x='30' y='38'>Item ",
        views::id_of(table, row).0,
    );
    put(b" (");
    canvas::put_kind(views::type_of(table, row));
    put(b"): ");
    canvas::put_times(o.wide, o.high);
    put(b" pixels");
    put_orientation(head, table, row);
    put_with(
        b"</text>\n<text x='1170' y='38' text-anchor='end'>items: ",
        table::word(table, 0),
    );
    put_with(b", primary item: ", table::word(table, 5));
    put(b"</text>\n<text x='30' y='66'>made as ");
    canvas::put_times(s.wide, s.high);
    turns::say_turns(head, table, row);
    put(b"</text>\n");
}

// The picture of the picture in a row of an accepted file's table, opened with its rows, and over it a seam through these points, if there are any.
pub fn draw_item(head: &[u8], table: &[u32], rows: &[u32], row: ItemRow, points: &[[u32; 9]]) {
    let s = sizing::output_in(table, row);
    let m = margins_of(head, table, rows, 16, row);
    let scale = canvas::scale_of(layout::uncut(s, m));
    canvas::open_page(1000);
    put_title(head, table, row);
    canvas::open_picture(s, m, scale);
    let lying = Lying {
        part: layout::whole(s),
        pose: Pose(0),
        around: true,
        copies: 0,
        scale,
    };
    let limit = Limit {
        down: 16,
        left: 4096,
    };
    let left = draw_output(head, table, rows, limit, row, lying);
    stroke::put_seam(points, scale);
    canvas::close_picture(s, scale);
    stroke::put_names(points);
    canvas::close_page(0 < left);
}

// The type of the box at a place of the head.
fn put_box(head: &[u8], at: usize) {
    if head.len() < 8 {
        return put(b"a box");
    }
    if head.len() - 8 < at {
        return put(b"a box");
    }
    put(b"`");
    canvas::put_kind(fields::be32(head, at + 4));
    put(b"`");
}

// Whom the words of a refusal are about, where its place tells that.
fn put_subject(head: &[u8], f: Refusal) {
    let kind = words::place_kind(f.number);
    match kind {
        PlaceKind::Nothing => {}
        PlaceKind::Box => put_box(head, f.place as usize),
        PlaceKind::Item | PlaceKind::Asked => {
            put(b"item ");
            put_number(f.place);
        }
    }
    put(b" ");
}

// A refusal as a picture: its number, its place, and its words.
pub fn draw_refusal(head: &[u8], f: Refusal) {
    canvas::open_page(200);
    put_with(
        b"<text class='title warn' x='30' y='60'>Refused: ",
        f.number,
    );
    put(b" at ");
    put_number(f.place);
    put(b"</text>\n<text x='30' y='100'>");
    put_subject(head, f);
    words::print_words(1, f.number);
    put(b".</text>\n<text x='30' y='130'>So there is nothing to draw.</text>\n</svg>\n");
}
