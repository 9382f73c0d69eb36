// Where a level is cut into chunks, and a chunk at work: what it holds, counts and keeps at hand, block by block.
#![tactic(auto)]

mod cut;
mod kept;
mod work;

use candidates::Candidate;
pub use cut::{chunk_end, chunk_size};
use grid::Row;
pub use kept::{no_shape, odd_columns};
use tally::Tally;
pub use work::{asks, examined, survives};

// A chunk at work: what it holds, its counts, the row and radius of the wide kernel before and the row of the exact one.
#[derive(Clone, Copy)]
pub struct ChunkWork {
    pub held: Option<Candidate>,
    pub tally: Tally,
    pub wide_row: Row,
    pub wide_km: f64,
    pub exact_row: Row,
}
