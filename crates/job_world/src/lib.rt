// The world under way in a job: a map in arrays of fixed length, and its ledger.
#![tactic(auto)]

mod state;

use grid::Grid;
use ledger::Ledger;
pub use state::{put, start, with_angle, with_cosine, with_count, with_grid, with_ledger};

// The map under way and its ledger. Of the arrays the map takes as many places as its grid has; before G it takes none.
// `begun` says whether G was read: an Option round the grid and the arrays would be no plainer, since they stand in the state, filled with
// what is not set, before G too.
#[derive(Clone, Copy)]
pub struct JobState {
    pub begun: bool,
    pub grid: Grid,
    pub counts: [u32; job_sizes::CELLS],
    pub angles: [f64; job_sizes::ANGLES],
    pub cosines: [f64; job_sizes::ROWS],
    pub ledger: Ledger,
}
