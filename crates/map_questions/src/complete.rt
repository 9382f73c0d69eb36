// Questions 4 and 5: how many counts, angles and cosines, each on any input.
ghost use Rattle.std.specs.Prelude.{◌≡◌, ◌*◌, [], eqb};
ghost use Rattle.grid.specs.Map.{globe_lent, lent_map};
ghost use Rattle.grid.specs.Questions.{counts_complete, sheet_complete};

use grid::{Globe, Grid};

// Question 4: a count for every cell. Lent a grid and counts and no map, since a caller may have no sheet.
#[tactic(auto, unfolding(grid::specs::Questions::counts_complete))]
pub fn counts_complete(grid: Grid, counts: &[u32]) -> bool
    ensures { result ≡ counts_complete (lent_map grid counts.now [] []) }
{
    counts.len() == grid::cells(grid)
}

// Whether n is a × b, which may be no usize.
fn is_product(n: usize, a: usize, b: usize) -> bool
    ensures { result ≡ eqb n (a * b) }
{
    a.checked_mul(b) == Some(n)
}

// Question 5: an angle for every centre row, row and column distance, and a cosine for every row.
#[tactic(auto, using(lists::proofs::Sums::times_le), unfolding(grid::specs::Questions::sheet_complete))]
pub fn sheet_complete(globe: &Globe<'_>) -> bool
    ensures { result ≡ sheet_complete (globe_lent globe.now) }
{
    let rows = globe.grid.rows();
    is_product(globe.angles.len(), rows * rows, globe.grid.offsets()) && globe.cosines.len() == rows
}
