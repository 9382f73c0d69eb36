// Filling the prefix sums of crate `sums`: whether a lent buffer has room for them, and the words of a map's counts at its front.
#![tactic(auto)]

ghost use Rattle.std.specs.Prelude.{◌≡◌, ℕ, ◌+◌, ◌≤◌, ◌<◌, ◌^◌, length, get_or};
ghost use Rattle.lists.specs.Front.{over};
ghost use Rattle.sums.specs.Sums.{sums_word, sums_fit, filled_sums};
ghost use Rattle.sums.specs.State.{counts_map};
ghost use Rattle.sums_fill.specs.State.{words_through};
ghost use Rattle.sums_fill.specs.Requires.{Fillable, RowReady};

use grid::Grid;

// Question 7, for the sums buffer. Rows and the last row apart, so that no product wraps.
pub fn sums_fit(grid: Grid, sums: &[u64]) -> bool
    ensures { result ≡ sums_fit grid sums.now }
{
    let stride = grid.columns() + 1;
    let rows = grid.rows() * stride;
    rows <= sums.len() && stride <= sums.len() - rows
}

// The words of row 0: no cell lies above them.
fn zero_row(sums: &mut [u64], stride: usize)
    requires { stride ≤ length sums.old }
    ensures { sums.new ≡ over (λ i. 0) stride sums.old }
{
    sums[..stride].fill(0);
}

// The words of row `row + 1`: each is the word above it and the row's counts so far.
fn fill_row(grid: Grid, row: usize, counts: &[u32], sums: &mut [u64])
    requires { RowReady grid row counts.now sums.old }
    ensures { sums.new
        ≡ over (sums_word (counts_map grid counts.now)) (words_through grid row + (grid.width + 1)) sums.old }
{
    let width = grid.columns();
    let above = row * (width + 1);
    let base = above + (width + 1);
    let from = row * width;
    sums[base] = 0;
    let mut run: u64 = 0;
    for col in 0..width {
        run += u64::from(counts[from + col]);
        sums[base + 1 + col] = sums[above + 1 + col] + run;
    }
}

// The prefix sums of the counts at the front of `sums`, whose tail is kept. That each count has 32 bits is known of a slice, and no longer
// of one in a struct: so it is said here, to those who go on from the words.
pub fn fill_sums(grid: Grid, counts: &[u32], sums: &mut [u64])
    requires { Fillable grid counts.now sums.old }
    ensures small { (i : ℕ) → get_or counts.now i 0 < 2 ^ 32 }
    ensures filled { sums.new ≡ filled_sums (counts_map grid counts.now) sums.old }
{
    zero_row(sums, grid.columns() + 1);
    for row in 0..grid.rows() {
        fill_row(grid, row, counts, sums);
    }
}
