// Kernels of circles: sets of cells, built for a row and a radius.
#![tactic(auto)]

mod band;
mod runs;

pub use band::build;
use grid::Row;

// The rows that a kernel has a place for: as many as a grid may have.
pub const ROWS: usize = grid::MOST_ROWS;

// The circles of a radius around the cells of a row: in each row from north up to end, how many columns from the centre's one on either
// side are within, the centre's own included, and where the rows of the same reach that follow it end. Two arrays by row
// and no pairs: the walks that fill reach are lent it whole, and know of no runs.
#[derive(Clone, Copy)]
pub struct Kernel {
    pub row: Row,
    pub km: f64,
    pub north: Row,
    pub end: u32,
    pub reach: [u8; ROWS],
    pub run: [u8; ROWS],
}
