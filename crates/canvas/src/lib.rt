// The marks of an SVG picture, written to standard output. What they tell of a file is for crate `sketch` to know.
#![tactic(auto)]

mod mark;
mod number;
mod page;
mod pose;
mod tag;
mod turn;

pub use mark::{
    close_canvas, close_group, open_canvas, open_group, open_input, put_arrow, put_coded, put_edge,
    put_fill, put_kept, put_shut, put_under,
};
pub use number::{put, put_fraction, put_kind, put_number, put_times, put_with};
pub use page::{close_page, close_picture, open_page, open_picture, scale_of};
pub use tag::{close_tag, open_coded_tag, open_derived_tag, put_turn, say_turn};
pub use turn::{close_turn, open_turn};
