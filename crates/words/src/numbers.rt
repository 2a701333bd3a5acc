// The words of every number. Where the place tells a box or an item, that is their subject.

pub fn say(fd: i32, text: &[u8]) {
    io::write_all(fd, text);
}

// 1, 2, 4, 5 and 27: whole sentences.
pub fn print_other_words(fd: i32, number: u32) {
    match number {
        1 => say(fd, b"the table that was lent has fewer than 11,280 words"),
        2 => say(
            fd,
            b"more than 65,536 bytes were lent, or more than the file is said to have",
        ),
        4 => say(
            fd,
            b"the file does not begin with an `ftyp` that names the brand `mif1`",
        ),
        5 => say(fd, b"there is no `meta` wholly in the first 65,536 bytes"),
        27 => say(fd, b"an orientation is one of 1 to 8"),
        _ => {}
    }
}

// 3 and 6 to 11: of a box.
pub fn print_box_words(fd: i32, number: u32) {
    match number {
        3 => say(
            fd,
            b"has an impossible size, reaches past what it lies in, or ends with bytes too few for a box",
        ),
        6 => say(fd, b"has a version that this reader does not know"),
        7 => say(
            fd,
            b"lacks a box that it must have, has one too many, or is there a second time",
        ),
        8 => say(fd, b"ends inside one of its fields, or has bytes left over"),
        9 => say(
            fd,
            b"goes past a limit: 256 items, 256 properties, 2,048 associations, 2,048 targets, 512 extents",
        ),
        10 => say(
            fd,
            b"is or holds what is forbidden there: an ID twice or out of order, a wrong handler, box type or field size, no targets",
        ),
        11 => say(fd, b"names an item or a property that is not listed"),
        _ => {}
    }
}

// 12 to 20, 29 and 30: of an item.
pub fn print_item_words(fd: i32, number: u32) {
    match number {
        12 => say(
            fd,
            b"is named as the primary one, but is not listed, is no picture, or is hidden",
        ),
        13 => say(
            fd,
            b"has its bytes where this reader does not go: another method, another file, or an extent of length 0",
        ),
        14 => say(
            fd,
            b"has bytes past the end of their source, or is a coded picture that has none",
        ),
        15 => say(
            fd,
            b"is protected, or needs a property that this reader does not know",
        ),
        16 => say(
            fd,
            b"does not say its size exactly once, before its turns and crops",
        ),
        17 => say(fd, b"has wrong inputs or a damaged body"),
        18 => say(fd, b"is made from itself"),
        19 => say(fd, b"is nested more than 16 deep"),
        20 => say(fd, b"has sizes that do not fit together"),
        29 => say(
            fd,
            b"is of type `hvc1` and does not have exactly one `hvcC`, marked essential",
        ),
        30 => say(
            fd,
            b"is made of other items' bytes by a chain that goes round, is more than 8 deep, or lacks a reference",
        ),
        _ => {}
    }
}

// 21 to 26, 28 and 31: of the item that was asked for.
pub fn print_asked_words(fd: i32, number: u32) {
    match number {
        21 => say(fd, b"is not listed"),
        22 => say(fd, b"is no picture"),
        23 => say(fd, b"has no pixel there"),
        24 => say(
            fd,
            b"needs more sources than the list that was lent has room for",
        ),
        25 => say(fd, b"has no property with that number"),
        26 => say(fd, b"has a crop, and an orientation cannot say one"),
        28 => say(fd, b"has more than 512 points asked of it at once"),
        31 => say(
            fd,
            b"may have a longer body than the buffer that was lent, which must have 16,402 bytes",
        ),
        _ => {}
    }
}
