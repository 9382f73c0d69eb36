// The counts of a search: made here, and added here.
ghost use Rattle.std.specs.Prelude.{◌≡◌, ◌+◌, ◌≤◌, ◌^◌};
ghost use Rattle.tally.specs.Counts.{stats, tally, plus_stats, plus};
ghost use Rattle.tally.specs.State.{stats_weight, weight};

use crate::{SearchStats, Tally};
use std::ops::Add;

impl SearchStats {
    // The counts of the original, in its order: the one place where they are made.
    pub fn of(levels: u32, examined: u64, pruned: u64, evaluated: u64, kernels: u64) -> SearchStats
        ensures { result ≡ stats levels examined pruned evaluated kernels }
    {
        SearchStats {
            levels,
            blocks_examined: examined,
            blocks_pruned: pruned,
            circles_evaluated: evaluated,
            kernels_built: kernels,
        }
    }
}

impl Tally {
    // The counts of the original with the cells pruned and settled: the one place where a tally is made.
    pub fn of(stats: SearchStats, pruned: u64, settled: u64) -> Tally
        ensures { result ≡ tally stats pruned settled }
    {
        Tally {
            stats,
            cells_pruned: pruned,
            cells_settled: settled,
        }
    }
}

// Each count of two searches added.
impl Add for SearchStats {
    type Output = SearchStats;

    ghost can_add = { λ s t. stats_weight s + stats_weight t ≤ 2 ^ 31 };

    ghost add_gives = { λ s t r. r ≡ plus_stats s t };

    #[tactic(auto, unfolding(crate::specs::Counts::plus_stats, crate::specs::State::stats_weight))]
    fn add(self, more: SearchStats) -> SearchStats {
        SearchStats::of(
            self.levels + more.levels,
            self.blocks_examined + more.blocks_examined,
            self.blocks_pruned + more.blocks_pruned,
            self.circles_evaluated + more.circles_evaluated,
            self.kernels_built + more.kernels_built,
        )
    }
}

// The same with the cells pruned and settled.
impl Add for Tally {
    type Output = Tally;

    ghost can_add = { λ s t. weight s + weight t ≤ 2 ^ 31 };

    ghost add_gives = { λ s t r. r ≡ plus s t };

    #[tactic(auto, unfolding(crate::specs::Counts::plus, crate::specs::State::weight))]
    fn add(self, more: Tally) -> Tally {
        Tally::of(
            self.stats + more.stats,
            self.cells_pruned + more.cells_pruned,
            self.cells_settled + more.cells_settled,
        )
    }
}
