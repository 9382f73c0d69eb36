// Levels until no block is left: each level's children come back to the first buffer in probe order.
ghost use Rattle.std.specs.Prelude.{◌≡◌};
ghost use Rattle.levels.specs.State.{summed_lent};
ghost use Rattle.search_rules.specs.Search.{searched};
ghost use Rattle.search_rules.specs.Requires.{TwoBuffers};
ghost use Rattle.search_rules.specs.State.{FirstLevel};

use grid::Grid;
use levels::SummedMap;
use search_rules::SearchResult;

// The grid's first blocks in probe order, and how many they are. Here and in `searched` the buffers are lent as two slices: by LevelBuffers
// it is no plainer. One is read while the other is written, so each function would first take both out of the struct (`&mut *`), and lend
// each once more whole (`&*`) before it reads a part of it; without that the prover loses the length of the buffer that was read.
fn first_level(grid: Grid, spacing: u32, current: &mut [u64], following: &mut [u64]) -> usize
    requires { TwoBuffers grid current.old following.old }
    ensures { FirstLevel grid spacing current.new result }
{
    let n = pieces::tile(grid, spacing, following);
    probe_order::insert_from(&following[..n], current);
    n
}

// Level after level, the survivors split into their children, until no block is left. Every cell is pruned with its block or evaluated as
// a block by itself: so, where bounds hold, the spacing changes the counts and never the answer.
pub(crate) fn searched(
    map: &SummedMap<'_>,
    km: f64,
    spacing: u32,
    current: &mut [u64],
    following: &mut [u64],
) -> SearchResult
    requires { TwoBuffers map.now.globe.grid current.old following.old }
    ensures { result ≡ searched (summed_lent map.now) km spacing }
{
    let mut live = first_level(map.globe.grid, spacing, current, following);
    let mut found = search_rules::nothing();
    // A level is known only from the one before it, and the last has no block: there is nothing to count by.
    while 0 < live {
        let best = found.held;
        let level = sweep::level(map, &current[..live], km, best, following);
        found = search_rules::with_level(found, level);
        live = level.live;
        probe_order::insert_from(&following[..live], current);
    }
    found
}
