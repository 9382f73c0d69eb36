// Whether a kernel is the whole grid.
ghost use Rattle.std.specs.Prelude.{◌≡◌, true};
ghost use Rattle.grid.specs.Questions.{sizes_in_range};
ghost use Rattle.kernel.specs.Kernel.{kernel_covers};

use grid::Grid;
use kernel::Kernel;

// Whether the circles of a kernel are the whole grid: every row is a full turn. No column is farther around the ring than half the width,
// and of an even width the column so far east is the one so far west. A row that reaches it is therefore the full turn, each column once,
// and not two sides that meet in a column counted twice.
#[tactic(auto, using(grid::proofs::Sizes::grid_sizes))]
pub fn covers(grid: Grid, kernel: &Kernel) -> bool
    requires { sizes_in_range grid ≡ true }
    ensures { result ≡ kernel_covers grid kernel.now }
{
    let closing = grid::closing(grid);
    let rows = &kernel.reach[..grid.rows()];
    rows.iter().all(|reach| closing < u32::from(*reach))
}
