// The counts of a search: how they are made and added.
#![tactic(auto)]

mod add;

// The counts of the original.
#[derive(Clone, Copy)]
pub struct SearchStats {
    pub levels: u32,
    pub blocks_examined: u64,
    pub blocks_pruned: u64,
    pub circles_evaluated: u64,
    pub kernels_built: u64,
}

// The counts of a search: those of the original, and the cells of pruned blocks and of single-cell blocks evaluated.
#[derive(Clone, Copy)]
pub struct Tally {
    pub stats: SearchStats,
    pub cells_pruned: u64,
    pub cells_settled: u64,
}
