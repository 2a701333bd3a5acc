// What an orientation asks of a viewer, in words: one step, and for 5 and 7 a second one.
use crate::numbers::say;

pub fn print_first_step(fd: i32, orientation: u32) {
    match orientation {
        1 => say(fd, b"nothing to do"),
        2 => say(fd, b"exchange left and right"),
        3 => say(fd, b"turn by half"),
        4 => say(fd, b"exchange top and bottom"),
        5 | 6 => say(fd, b"turn a quarter to the right"),
        7 | 8 => say(fd, b"turn a quarter to the left"),
        _ => {}
    }
}

pub fn has_second_step(orientation: u32) -> bool {
    matches!(orientation, 5 | 7)
}

pub fn print_second_step(fd: i32, orientation: u32) {
    if has_second_step(orientation) {
        say(fd, b"then exchange left and right");
    }
}

// Both steps in one sentence; nothing for what is no orientation.
pub fn print_orientation(fd: i32, orientation: u32) {
    print_first_step(fd, orientation);
    if has_second_step(orientation) {
        say(fd, b", ");
        print_second_step(fd, orientation);
    }
}
