// One block of a chunk: pruned by its bound, or its probe evaluated.
ghost use Rattle.std.specs.Prelude.{◌≡◌, cond, not, ◌&&◌, []};
ghost use Rattle.std.specs.Float.Ieee.{eq};
ghost use Rattle.lists.specs.Counted.{one};
ghost use Rattle.blocks.specs.Block.{is_cell};
ghost use Rattle.candidates.specs.Candidate.{prunes};
ghost use Rattle.chunk_work.specs.Work.{wide_built, exact_built};
ghost use Rattle.chunk_work.specs.State.{work_of, pruned_work, evaluated_work};
ghost use Rattle.chunk_work.specs.Requires.{CanCount};

use crate::{ChunkWork, kept};
use blocks::Block;
use candidates::Candidate;
use tally::{SearchStats, Tally};

// A single cell that is evaluated is settled.
#[tactic(auto, unfolding(lists::specs::Counted::one))]
fn settled(block: Block) -> u64
    ensures { result ≡ one (is_cell block) }
{
    u64::from(blocks::is_cell(block))
}

// Whether the block's wide kernel counts as built.
#[tactic(auto, unfolding(lists::specs::Counted::one, crate::specs::Work::wide_built))]
fn wide_built(work: ChunkWork, block: Block, wide: f64) -> u64
    ensures { result ≡ wide_built (work_of work []) block wide }
{
    let row = blocks::probe(block).row;
    u64::from(!kept::same_kernel(work.wide_row, work.wide_km, row, wide))
}

// Whether its exact one does.
#[tactic(auto, unfolding(lists::specs::Counted::one, crate::specs::Work::exact_built))]
fn exact_built(work: ChunkWork, block: Block) -> u64
    ensures { result ≡ exact_built (work_of work []) block }
{
    let row = blocks::probe(block).row;
    u64::from(work.exact_row != row)
}

// A pruned block asks for no exact kernel: the population of its probe's circle is at most its bound, which is below that of the circle
// held.
fn pruned(work: ChunkWork, block: Block, wide: f64) -> ChunkWork
    requires { CanCount work block }
    ensures { result ≡ pruned_work work block wide }
{
    let stats = SearchStats::of(0, 1, 1, 0, wide_built(work, block, wide));
    let more = Tally::of(stats, blocks::area(block), 0);
    let tally = work.tally + more;
    let wide_row = blocks::probe(block).row;
    ChunkWork {
        tally,
        wide_row,
        wide_km: wide,
        ..work
    }
}

// Otherwise its probe, with the population of its circle, is the best so far or not.
fn evaluated(work: ChunkWork, block: Block, wide: f64, population: u64) -> ChunkWork
    requires { CanCount work block }
    ensures { result ≡ evaluated_work work block wide population }
{
    let before = work.held;
    let probe = blocks::probe(block);
    let row = probe.row;
    let held = candidates::better_held(before, Some(Candidate::at(probe, population)));
    let kernels = wide_built(work, block, wide) + exact_built(work, block);
    let stats = SearchStats::of(0, 1, 0, 1, kernels);
    let more = Tally::of(stats, 0, settled(block));
    let tally = work.tally + more;
    ChunkWork {
        held,
        tally,
        wide_row: row,
        wide_km: wide,
        exact_row: row,
    }
}

// A chunk after a block of this wide radius: a survivor's probe has this population. A flag beside it and no Option: of a block that is pruned the
// population is its bound, which the caller has at hand and nobody reads.
pub fn examined(
    work: ChunkWork,
    block: Block,
    wide: f64,
    survives: bool,
    population: u64,
) -> ChunkWork
    requires { CanCount work block }
    ensures { result ≡ cond survives (evaluated_work work block wide population) (pruned_work work block wide) }
{
    if survives {
        return evaluated(work, block, wide, population);
    }
    pruned(work, block, wide)
}

// A block survives where its bound does not prune it.
pub fn survives(work: ChunkWork, bound: u64) -> bool
    ensures { result ≡ not (prunes bound work.held) }
{
    !candidates::prunes(bound, work.held)
}

// A survivor asks for the population of its probe's circle, but where the wide circle has the plain radius, as that of a single cell has.
pub fn asks(survives: bool, wide: f64, km: f64) -> bool
    ensures { result ≡ (survives && not (eq wide km)) }
{
    survives && wide != km
}
