// The lines that a job prints.
#![tactic(auto)]

mod text;

pub use text::{blank, least_line, most_line, refused_line};

// The first len bytes are the line, its end of line with it; a line of no bytes is none. An array with a length beside it, and no
// Vec: no line is on the heap.
#[derive(Clone, Copy)]
pub struct Line {
    pub len: usize,
    pub bytes: [u8; Line::ROOM],
}

// The longest line is a most line, a word of four letters and eleven fields; the array has room to spare.
impl Line {
    pub const MOST_DIGITS: usize = 20;

    pub const LONGEST: usize = 4 + 11 * (1 + Line::MOST_DIGITS) + 1;

    pub const ROOM: usize = 256;
}
