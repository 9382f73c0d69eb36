// One level of a search: its definitions and their laws, the map that it reads, and what a chunk and a level come to. Crate `sweep` goes
// through the blocks.
#![tactic(auto)]

ghost use Rattle.levels.specs.Requires.{Ready};

use candidates::Candidate;
use grid::Globe;
use tally::Tally;

// What a search reads, lent: the sheet of a map that has passed its questions, and the sums of its counts.
#[derive(Clone, Copy)]
pub struct SummedMap<'a> {
    pub globe: Globe<'a>,
    pub sums: &'a [u64],
    pub ghost ready: { Ready globe.grid globe.angles.now globe.cosines.now sums.now },
}

// What a chunk or a level came to, and the place after the children that it wrote.
#[derive(Clone, Copy)]
pub struct ChunkResult {
    pub held: Option<Candidate>,
    pub tally: Tally,
    pub live: usize,
}
