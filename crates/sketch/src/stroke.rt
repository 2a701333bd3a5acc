// A seam over a drawing: a line for each run of points that end in the same picture, and which pictures those are. A point
// is a record of nine numbers as `still::point_numbers` fills it.
use canvas::{put, put_fraction, put_with};

// The record of a point, zeros where there is none.
fn record_at(points: &[[u32; 9]], i: usize) -> [u32; 9] {
    if points.len() <= i {
        return [0; 9];
    }
    points[i]
}

// Whether two points end in the same coded picture or in the same fill, or lie both outside.
fn is_alike(r: [u32; 9], t: [u32; 9]) -> bool {
    r[4] == t[4] && r[5] == t[5]
}

// Whether a point ends otherwise than the one before it.
fn begins(points: &[[u32; 9]], i: usize) -> bool {
    if i == 0 {
        return true;
    }
    !is_alike(record_at(points, i - 1), record_at(points, i))
}

// The colours of lines and of names: an item has one of six, as its picture has; fill has one; outside there is no line.
fn put_style() {
    put(
        b"<style>.s0{stroke:#1f5fa8}.s1{stroke:#2f8a1e}.s2{stroke:#c77700}.s3{stroke:#7b2fa8}.s4{stroke:#c22f28}.s5{stroke:#0f8f86}
.t0{fill:#1f5fa8}.t1{fill:#2f8a1e}.t2{fill:#c77700}.t3{fill:#7b2fa8}.t4{fill:#c22f28}.t5{fill:#0f8f86}
.sf{stroke:#6b5d00}.tf{fill:#6b5d00}.so{stroke:none}.halo{stroke:#fff}</style>
",
    );
}

// The class of a run by its first point, after a letter for what it is.
fn put_class(letter: &[u8], r: [u32; 9]) {
    put(letter);
    match r[4] {
        1 => put_with(b"", r[5] % 6),
        2 => put(b"f"),
        _ => put(b"o"),
    }
}

// The middle of a point's pixel.
fn put_middle(r: [u32; 9]) {
    put_with(b"", r[0]);
    put_with(b".5,", r[1]);
    put(b".5 ");
}

// Begins the line of a run; its first point twice, so that a run of one point is seen.
fn open_run(r: [u32; 9], halo: bool) {
    put(b"<polyline class='");
    if halo {
        if r[4] != 0 {
            put(b"halo");
        }
    } else {
        put_class(b"s", r);
    }
    put(b"' points='");
    put_middle(r);
}

// A point, which ends the line of the run before it where it begins one.
fn put_point(points: &[[u32; 9]], i: usize, halo: bool) {
    let r = record_at(points, i);
    if begins(points, i) {
        if 0 < i {
            put_middle(r);
            put(b"'/>\n");
        }
        open_run(r, halo);
    }
    put_middle(r);
}

fn put_runs(points: &[[u32; 9]], halo: bool) {
    for i in 0..points.len() {
        put_point(points, i, halo);
    }
    put(b"'/>\n");
}

// The seam, in the pixels of the output picture, over a light edge.
pub fn put_seam(points: &[[u32; 9]], scale: u32) {
    if points.len() == 0 {
        return;
    }
    put_style();
    put_fraction(
        b"<g id='seam' fill='none' stroke-linecap='round' stroke-linejoin='round'><g stroke-width='",
        scale as u64 * 9,
    );
    put(b"'>\n");
    put_runs(points, true);
    put_fraction(b"</g><g stroke-width='", scale as u64 * 5);
    put(b"'>\n");
    put_runs(points, false);
    put(b"</g></g>\n");
}

// Whether no point before it ends where a point does.
fn is_new(points: &[[u32; 9]], i: usize) -> bool {
    let r = record_at(points, i);
    for j in 0..i {
        if is_alike(record_at(points, j), r) {
            return false;
        }
    }
    true
}

// The name of where a point ends: item 3, or fill of 9.
fn put_name(r: [u32; 9]) {
    put(b" <tspan class='");
    put_class(b"t", r);
    match r[4] {
        1 => put_with(b"'>item ", r[5]),
        2 => put_with(b"'>fill of ", r[5]),
        _ => put(b"'>outside"),
    }
    put(b"</tspan>");
}

// The name of where a point ends, if it is new and there is room for so many; or what stands for those without room. Answers
// how many more there is room for.
fn named(points: &[[u32; 9]], i: usize, left: u32) -> u32 {
    if left == 0 {
        return 0;
    }
    if !is_new(points, i) {
        return left;
    }
    if left == 1 {
        put(b" ...");
        return 0;
    }
    put_name(record_at(points, i));
    left - 1
}

// What the seam goes through, in the legend: at most seven names, then dots.
pub fn put_names(points: &[[u32; 9]]) {
    let n = points.len();
    if n == 0 {
        return;
    }
    put(b"<text x='500' y='955' font-weight='bold'>along the seam:");
    let mut left: u32 = 8;
    for i in 0..n {
        left = named(points, i, left);
    }
    put(b"</text>\n");
}
