// A chunk of a level: its blocks examined in turn, the survivors' children written into the other buffer.
ghost use Rattle.std.specs.Prelude.{◌≡◌, cond, []};
ghost use Rattle.lists.specs.Lists.{each};
ghost use Rattle.blocks.specs.Block.{split};
ghost use Rattle.blocks.specs.State.{word_of, blocks_of, Written};
ghost use Rattle.pieces.specs.Requires.{CanSplit};
ghost use Rattle.levels.specs.Level.{chunk};
ghost use Rattle.levels.specs.State.{summed_lent, started_work, Swept};
ghost use Rattle.levels.specs.Requires.{CanSweep};

use crate::kept::Kept;
use blocks::Block;
use candidates::Candidate;
use chunk_work::ChunkWork;
use grid::{Grid, Row};
use kernel_sums::circle_population;
use levels::{ChunkResult, SummedMap};
use table::SummedTable;
use tally::{SearchStats, Tally};

// A chunk begins with what was held when its level began, and with two kernels that count as built: of the middle row and the plain radius.
#[tactic(auto, unfolding(levels::specs::State::started_work))]
fn started(grid: Grid, km: f64, best: Option<Candidate>) -> ChunkWork
    ensures { result ≡ started_work grid km best }
{
    let middle = Row(grid.height / 2);
    let stats = SearchStats::of(0, 0, 0, 0, 2);
    let tally = Tally::of(stats, 0, 0);
    ChunkWork {
        held: best,
        tally,
        wide_row: middle,
        wide_km: km,
        exact_row: middle,
    }
}

// A survivor's children, from place at on; the place after them.
fn write_children(survives: bool, block: Block, following: &mut [u64], at: usize) -> usize
    requires { CanSplit block following.old at }
    ensures { Written following.old at (each word_of (cond survives (split block) [])) following.new result }
{
    if survives {
        return pieces::split(block, following, at);
    }
    at
}

// What a chunk came to, once its blocks are examined.
fn result_of(work: ChunkWork, live: usize) -> ChunkResult
    ensures { result ≡ record { held = work.held; tally = work.tally; live = live } }
{
    ChunkResult {
        held: work.held,
        tally: work.tally,
        live,
    }
}

// The blocks of the words, examined in turn. Three kernels stay in place from block to block, two wide ones and an exact one, and are
// built anew only where a block needs another: a wide one where the block has another shape, the exact one where its probe stands on
// another row.
pub(crate) fn chunk(
    map: &SummedMap<'_>,
    words: &[u64],
    km: f64,
    best: Option<Candidate>,
    following: &mut [u64],
    live: usize,
) -> ChunkResult
    requires { CanSweep map.now.globe.grid (blocks_of words.now) following.old live }
    ensures { Swept
        (chunk (summed_lent map.now) km best (blocks_of words.now))
        following.old live following.new result }
{
    let grid = map.globe.grid;
    let table = table::table_of(grid, map.sums);
    let summed = SummedTable { table };
    let mut exact = kernel::build(&map.globe, Row(grid.height / 2), km);
    let mut one = Kept::of_no_shape(exact);
    let mut two = one;
    let mut work = started(grid, km, best);
    let mut at = live;
    for word in words {
        let block = Block::from(*word);
        let p = blocks::probe(block);
        // Each branch asks for itself: where the kernel is chosen first and asked once, a search takes 1 to 3 in 100 more instructions.
        let (wide, bound) = if chunk_work::odd_columns(block) {
            one.serve(map, km, block);
            (one.kernel.km, circle_population(summed, &one.kernel, p.col))
        } else {
            two.serve(map, km, block);
            (two.kernel.km, circle_population(summed, &two.kernel, p.col))
        };
        let survives = chunk_work::survives(work, bound);
        let mut population = bound;
        if chunk_work::asks(survives, wide, km) {
            if exact.row != p.row {
                exact = kernel::build(&map.globe, p.row, km);
            }
            population = circle_population(summed, &exact, p.col);
        }
        work = chunk_work::examined(work, block, wide, survives, population);
        at = write_children(survives, block, following, at);
    }
    result_of(work, at)
}
