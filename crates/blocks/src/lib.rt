// Blocks, the rectangles of centres that a search works on: their cells and their words.
#![tactic(auto)]

mod cells;
mod word;

pub use cells::{area, by_probe, is_cell, middle, probe, same_shape};
use grid::{Col, Row};
pub use word::words_by_probe;

// All cells from row north to row south and from column first to column last. A block never goes across the seam, though the circles around
// its cells do: so its columns are the numbers from first to last, there is one block only for the same cells, and the last tile of a row
// is short instead.
#[derive(Clone, Copy)]
pub struct Block {
    pub north: Row,
    pub south: Row,
    pub first: Col,
    pub last: Col,
}
