// The largest grid that a job takes, the indices that are on a grid, and the places that its map takes in arrays of fixed length.
#![tactic(auto)]

mod arrays;
mod indices;

pub use arrays::{angle_place, count_place, places_of};
use grid::Row;
pub use indices::{angle_on, cell_on, size_taken};

// The largest grid that a job takes, and what its map has: cells, angles, and words of its sums.
pub const COLUMNS: usize = 24;

pub const ROWS: usize = 12;

pub const CELLS: usize = COLUMNS * ROWS;

pub const ANGLES: usize = ROWS * ROWS * (COLUMNS / 2 + 1);

pub const SUMS: usize = (COLUMNS + 1) * (ROWS + 1);

// How many places of each array a map takes.
#[derive(Clone, Copy)]
pub struct Places {
    pub counts: usize,
    pub angles: usize,
    pub cosines: usize,
}

// A's rows and offset, that are on a grid.
#[derive(Clone, Copy)]
pub struct AngleIndices {
    pub centre: Row,
    pub row: Row,
    pub offset: u32,
}
