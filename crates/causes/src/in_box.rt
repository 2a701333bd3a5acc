// Refusals 3 and 6 to 11: what the box at the place says itself, and where it lies.
use boxes::types::{ILOC, INFE};
use boxes::{Child, Refusal, Spot};
use words::say;

// Where a place lies in the file.
#[derive(Drop)]
enum Region {
    // Outside `meta`, or `meta` is not to be found.
    Outside,
    // `meta` itself, without a box that it must have: that one's number among `hdlr`, `pitm`, `iinf`, `iloc`, `iprp`; 5 where none lacks.
    Meta(usize),
    Hdlr,
    Iinf,
    InIinf,
    Iloc,
    Iprp,
    InIpco,
    Ipma,
    InIref,
    // Elsewhere in `meta`, or the children of `meta` are refused themselves.
    Inside,
}

fn is_nowhere(spot: Spot) -> bool {
    spot.end == 0
}

fn is_at(spot: Spot, at: usize) -> bool {
    !is_nowhere(spot) && spot.start == at
}

fn is_within(spot: Spot, at: usize) -> bool {
    spot.start < at && at < spot.end
}

// Where the first box of a part of s ends, 0 where it has none.
fn first_end(s: &[u8], body: usize, end: usize) -> usize {
    if end < body {
        return 0;
    }
    match boxes::child_at(views::part(s, body, end - body), 0) {
        Child::Whole { end, .. } => end,
        _ => 0,
    }
}

// Of `iprp`: its second box is `ipma`, and what lies in the first is a property.
fn region_in_iprp(s: &[u8], spot: Spot, at: usize) -> Region {
    let body = spot.body;
    if at < body {
        return Region::Inside;
    }
    if at - body == first_end(s, body, spot.end) {
        return Region::Ipma;
    }
    Region::InIpco
}

fn region_among(s: &[u8], spots: [Spot; 7], at: usize) -> Region {
    if is_at(spots[0], at) {
        return Region::Hdlr;
    }
    if is_at(spots[2], at) {
        return Region::Iinf;
    }
    if is_within(spots[2], at) {
        return Region::InIinf;
    }
    if is_at(spots[3], at) {
        return Region::Iloc;
    }
    if is_at(spots[4], at) {
        return Region::Iprp;
    }
    if is_within(spots[4], at) {
        return region_in_iprp(s, spots[4], at);
    }
    if is_within(spots[5], at) {
        return Region::InIref;
    }
    Region::Inside
}

// The number of the first of five boxes that is not there, or 5.
fn lacking(spots: [Spot; 7]) -> usize {
    spots[..5].iter().position(|s| is_nowhere(*s)).unwrap_or(5)
}

// The region of a place in the boxes s of `meta`, which begin at `base` of the head.
fn region_inside(s: &[u8], start: usize, base: usize, place: usize) -> Region {
    if 65536 < s.len() {
        return Region::Inside;
    }
    if 65536 < base {
        return Region::Inside;
    }
    // Where the children are refused themselves, none is known.
    let nowhere = Spot {
        start: 0,
        body: 0,
        end: 0,
    };
    let spots = boxes::walk_children(s, start, base).unwrap_or([nowhere; 7]);
    if place == start {
        return Region::Meta(lacking(spots));
    }
    if place < base {
        return Region::Inside;
    }
    region_among(s, spots, place - base)
}

fn region_of(head: &[u8], total: u64, place: usize) -> Region {
    let Ok(meta) = boxes::find_meta(head, total) else {
        return Region::Outside;
    };
    let body = meta.body;
    let end = meta.end;
    // Its version and flags come first.
    if 65536 < body {
        return Region::Inside;
    }
    let base = body + 4;
    if end < base {
        return Region::Inside;
    }
    region_inside(views::part(head, base, end - base), meta.start, base, place)
}

// Where `meta` ends, 0 where there is none.
fn meta_end(head: &[u8], total: u64) -> usize {
    match boxes::find_meta(head, total) {
        Ok(meta) => meta.end,
        Err(_) => 0,
    }
}

// 3: a size that no box has.
fn print_impossible(fd: i32, size: u64) {
    if size == 0 {
        return say(
            fd,
            b"has size 0, to the end of the file, as only a box outside all others may",
        );
    }
    say(fd, b"has size ");
    io::print_decimal(fd, size);
    say(fd, b", less than its own header");
}

// 3: a size that is too large for what the box lies in, or bytes left over in it.
fn print_long(fd: i32, head: &[u8], total: u64, place: u64, size: u64) {
    let r = region_of(head, total, place as usize);
    match r {
        Region::Outside => {
            say(fd, b"reaches past the end of the file, which has ");
            io::print_decimal(fd, total);
            return say(fd, b" bytes");
        }
        Region::Meta(_) => return say(fd, b"ends with bytes too few for a box"),
        _ => {}
    }
    let end = meta_end(head, total) as u64;
    if place <= end {
        if end - place < size {
            return say(fd, b"reaches past the end of `meta`");
        }
    }
    say(
        fd,
        b"reaches past what it lies in, or ends with bytes too few for a box",
    );
}

// The length of the header of the box at a place, 0 where it is not whole.
fn header_length(head: &[u8], at: usize) -> usize {
    match boxes::header_at(head, at) {
        Some(h) => h.head,
        None => 0,
    }
}

// 3 of a 64-bit size. In a box too short for it, what was read as the size is not its own: there nothing is said of it.
fn print_wide(fd: i32, head: &[u8], total: u64, place: u64, size: u64) {
    let r = region_of(head, total, place as usize);
    match r {
        Region::Outside => {
            if size < 16 {
                return print_impossible(fd, size);
            }
            print_long(fd, head, total, place, size)
        }
        _ => words::print_words(fd, 3),
    }
}

fn print_size(fd: i32, head: &[u8], total: u64, place: u64) {
    let Some(h) = boxes::header_at(head, place as usize) else {
        return words::print_words(fd, 3);
    };
    if h.head == 16 {
        return print_wide(fd, head, total, place, h.size);
    }
    if h.size < h.head as u64 {
        return print_impossible(fd, h.size);
    }
    print_long(fd, head, total, place, h.size)
}

// The content of the box at a place, as far as the head goes.
fn content_at(head: &[u8], at: usize) -> &[u8] {
    let n = header_length(head, at);
    if head.len() < at {
        return &head[..0];
    }
    if head.len() - at < n {
        return &head[..0];
    }
    let from = at + n;
    &head[from..]
}

// 6.
fn print_version(fd: i32, head: &[u8], at: usize) {
    let s = content_at(head, at);
    if s.len() == 0 {
        return words::print_words(fd, 6);
    }
    say(fd, b"has version ");
    io::print_decimal(fd, fields::be8(s, 0) as u64);
    say(fd, b", which this reader does not know");
}

fn print_lacking(fd: i32, k: usize) {
    match k {
        0 => say(fd, b"lacks `hdlr`"),
        1 => say(fd, b"lacks `pitm`"),
        2 => say(fd, b"lacks `iinf`"),
        3 => say(fd, b"lacks `iloc`"),
        4 => say(fd, b"lacks `iprp`"),
        _ => words::print_words(fd, 7),
    }
}

// 7.
fn print_number(fd: i32, r: Region) {
    match r {
        Region::Meta(k) => print_lacking(fd, k),
        Region::Iprp => say(fd, b"does not hold an `ipco`, an `ipma` and nothing else"),
        _ => say(fd, b"is there a second time"),
    }
}

// How many entries the `iloc` with the content s says that it has.
fn location_count(s: &[u8]) -> u32 {
    if s.len() < 10 {
        return 0;
    }
    if s[0] == 2 {
        return fields::be32(s, 6);
    }
    fields::be16(s, 6) as u32
}

// How many entries the `ipma` with the content s says that it has.
fn named_count(s: &[u8]) -> u32 {
    if s.len() < 8 {
        return 0;
    }
    fields::be32(s, 4)
}

// Too many entries, or else too many of what they hold.
fn print_entries(fd: i32, n: u32, held: &[u8]) {
    if 256 < n {
        say(fd, b"has more than 256 entries");
    } else {
        say(fd, b"brings the file to more than ");
        say(fd, held);
    }
}

// 9.
fn print_limit(fd: i32, head: &[u8], at: usize, r: Region) {
    match r {
        Region::Iinf => say(fd, b"lists more than 256 items"),
        Region::Iloc => print_entries(fd, location_count(content_at(head, at)), b"512 extents"),
        Region::InIpco => say(fd, b"is the 257th property, and 256 are the limit"),
        Region::Ipma => print_entries(fd, named_count(content_at(head, at)), b"2,048 associations"),
        Region::InIref => say(fd, b"brings the file to more than 2,048 targets"),
        _ => words::print_words(fd, 9),
    }
}

fn print_handler(fd: i32, head: &[u8], at: usize) {
    let s = content_at(head, at);
    if s.len() < 12 {
        return words::print_words(fd, 10);
    }
    say(fd, b"has the handler ");
    words::print_kind(fd, fields::be32(s, 8));
    say(fd, b", and a still has pict");
}

// The type of the box at a place, 0 where it is not there.
fn kind_at(head: &[u8], at: usize) -> u32 {
    if head.len() < 8 {
        return 0;
    }
    if head.len() - 8 < at {
        return 0;
    }
    fields::be32(head, at + 4)
}

// An ID twice, or a box of another type in a row of `infe`.
fn print_entry(fd: i32, head: &[u8], at: usize) {
    if kind_at(head, at) == INFE {
        return say(fd, b"has an ID that an item before it has");
    }
    say(fd, b"stands where an `infe` must");
}

fn is_width(n: u8) -> bool {
    matches!(n, 0 | 4 | 8)
}

// Whether an `iloc` has field sizes that there are: that of the index counts from version 1 on.
fn has_widths(version: u8, first: u8, second: u8) -> bool {
    is_width(first / 16)
        && is_width(first % 16)
        && is_width(second / 16)
        && (version == 0 || is_width(second % 16))
}

// A field size that there is not, or else an ID twice.
fn print_location(fd: i32, head: &[u8], at: usize) {
    let s = content_at(head, at);
    if s.len() < 6 {
        return words::print_words(fd, 10);
    }
    if has_widths(s[0], s[4], s[5]) {
        return say(fd, b"has an ID twice");
    }
    say(fd, b"has a field size that is not 0, 4 or 8");
}

// 10 of a reference: `dimg` names targets, and an item has one `dimg` and one `iloc` reference at most.
fn print_reference(fd: i32, head: &[u8], at: usize) {
    if kind_at(head, at) == ILOC {
        return say(fd, b"is the second `iloc` reference of its item");
    }
    say(fd, b"names no targets, or is the second `dimg` of its item");
}

// 10.
fn print_forbidden(fd: i32, head: &[u8], at: usize, r: Region) {
    match r {
        Region::Hdlr => print_handler(fd, head, at),
        Region::InIinf => print_entry(fd, head, at),
        Region::Iloc => print_location(fd, head, at),
        Region::Ipma => say(fd, b"has IDs that do not rise"),
        Region::InIref => print_reference(fd, head, at),
        _ => words::print_words(fd, 10),
    }
}

// 11.
fn print_unlisted(fd: i32, r: Region) {
    match r {
        Region::Iloc | Region::InIref => say(fd, b"names an item that is not listed"),
        _ => words::print_words(fd, 11),
    }
}

// What follows the box's name.
pub fn print_cause(fd: i32, head: &[u8], total: u64, f: Refusal) {
    let at = f.place as usize;
    let number = f.number;
    match number {
        3 => print_size(fd, head, total, f.place),
        6 => print_version(fd, head, at),
        7 => print_number(fd, region_of(head, total, at)),
        9 => print_limit(fd, head, at, region_of(head, total, at)),
        10 => print_forbidden(fd, head, at, region_of(head, total, at)),
        11 => print_unlisted(fd, region_of(head, total, at)),
        _ => words::print_words(fd, number),
    }
}
