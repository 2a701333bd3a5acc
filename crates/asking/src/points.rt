// The lines of `points`: the seam between two points of a picture, a line for each point along it.
ghost use Rattle.std.specs.Prelude.{◌≡◌, length};

use crate::answers::{print_end, print_refused};
use between::Seam;
use boxes::Refusal;
use lines::print_field;
use table::ItemId;
use words::say;

// Room for the points of a seam.
fn new_points() -> [[u32; 9]; 512]
    ensures { 512 ≡ length result }
{
    [[0; 9]; 512]
}

// `points`, ID, x, y.
fn open_point(id: u32, x: u32, y: u32) {
    say(1, b"points");
    print_field(id as u64);
    print_field(x as u64);
    print_field(y as u64);
}

// A point outside the picture: `outside`, number, place and sentence. `refused` is said of a whole call only.
fn print_outside(head: &[u8], f: Refusal) {
    say(1, b"\toutside");
    print_field(f.number as u64);
    print_field(f.place);
    say(1, b"\t");
    words::print_subject(1, head, f);
    words::print_words(1, f.number);
    say(1, b"\n");
}

// A record that was filled: the fields of `trace`, or what stands for them outside.
fn print_point(head: &[u8], id: u32, r: [u32; 9]) {
    open_point(id, r[0], r[1]);
    if r[2] != 0 {
        let f = Refusal {
            number: r[2],
            place: r[3] as u64,
        };
        return print_outside(head, f);
    }
    if r[4] == 1 {
        return print_end(b"\tpixel", ItemId(r[5]), r[6], r[7], r[8]);
    }
    print_end(b"\tfill", ItemId(r[5]), r[6], r[7], r[8]);
}

fn print_all(head: &[u8], id: u32, points: &[[u32; 9]]) {
    for r in points {
        print_point(head, id, *r);
    }
}

// The question as asked, refused as a whole.
fn print_off(head: &[u8], total: u64, id: u32, s: Seam, f: Refusal) {
    open_point(id, s.x, s.y);
    print_field(s.to_x as u64);
    print_field(s.to_y as u64);
    print_refused(head, total, f);
}

// The points that were laid, answered in their own records.
fn print_filled(
    head: &[u8],
    total: u64,
    table: &mut [u32],
    id: u32,
    s: Seam,
    points: &mut [[u32; 9]],
) {
    match still::point_numbers(head, total, table, ItemId(id), &mut *points) {
        Ok(_) => print_all(head, id, &*points),
        Err(f) => print_off(head, total, id, s, f),
    }
}

// `points`, ID, x, y of each point of a seam, and its answer.
pub fn print_points(head: &[u8], total: u64, table: &mut [u32], id: u32, s: Seam) {
    let mut points = new_points();
    let n = between::lay(s, &mut points);
    print_filled(head, total, table, id, s, &mut points[..n]);
}
