// A level: its words in chunks for four workers, and the chunks' results joined in order.
ghost use Rattle.std.specs.Prelude.{◌≡◌, ◌+◌, ◌≤◌, ◌^◌};
ghost use Rattle.blocks.specs.State.{blocks_of};
ghost use Rattle.levels.specs.Level.{level_in_order};
ghost use Rattle.tally.specs.Counts.{stats, tally};
ghost use Rattle.levels.specs.State.{summed_lent, joined_results, Swept};
ghost use Rattle.tally.specs.State.{weight};
ghost use Rattle.levels.specs.Requires.{CanSweep};

use crate::sweep;
use candidates::Candidate;
use levels::{ChunkResult, SummedMap};
use tally::{SearchStats, Tally};

// A level before its first chunk.
fn begun(best: Option<Candidate>) -> ChunkResult
    ensures { result ≡ record { held = best; tally = tally (stats 1 0 0 0 0) 0 0; live = 0 } }
{
    let stats = SearchStats::of(1, 0, 0, 0, 0);
    let tally = Tally::of(stats, 0, 0);
    ChunkResult {
        held: best,
        tally,
        live: 0,
    }
}

// The better of what two hold, their counts added, and the place after the second's children.
#[tactic(auto, unfolding(levels::specs::State::joined_results))]
fn joined(a: ChunkResult, b: ChunkResult) -> ChunkResult
    requires { weight a.tally + weight b.tally ≤ 2 ^ 31 }
    ensures { result ≡ joined_results a b }
{
    ChunkResult {
        held: candidates::better_held(a.held, b.held),
        tally: a.tally + b.tally,
        live: b.live,
    }
}

// A level's blocks, their words in probe order, chunk by chunk; their children are left at the front of following. Each chunk starts from
// what was held when the level began, never from what the chunk before it found: chunks side by side do not know of each other, and a
// better circle from there would prune blocks that the original evaluates.
pub fn level(
    map: &SummedMap<'_>,
    words: &[u64],
    km: f64,
    best: Option<Candidate>,
    following: &mut [u64],
) -> ChunkResult
    requires { CanSweep map.now.globe.grid (blocks_of words.now) following.old 0 }
    ensures { Swept
        (level_in_order (summed_lent map.now) km best (blocks_of words.now))
        following.old 0 following.new result }
{
    let n = words.len();
    let size = chunk_work::chunk_size(n);
    let mut done = begun(best);
    // No blocks have chunks of no size, which nothing can step by.
    for start in (0..n).step_by(size.max(1)) {
        let end = chunk_work::chunk_end(start, size, n);
        let live = done.live;
        let part = sweep::chunk(map, &words[start..end], km, best, following, live);
        done = joined(done, part);
    }
    done
}
