// Questions 1 to 3, each of any grid, and the first refusal of a grid. They are defined beside the map's, in `grid/specs/Questions.antt`.
#![tactic(auto)]

ghost use Rattle.std.specs.Prelude.{◌≡◌};
ghost use Rattle.grid.specs.Answer.{first_no, decide};
ghost use Rattle.grid.specs.Refusal.{answer_of};
ghost use Rattle.grid.specs.Questions.{sizes_in_range, latitude_in_range, latitudes_in_range, columns_close, grid_questions};

use grid::{Grid, Refusal};

// What edges and turns may be off by, in degrees. A step is a rounded decimal, so that rows that end at a pole may end a little past it,
// and columns that make a turn may miss 360 by a little; being wrong by a cell is far more than this.
const ROUNDING: f64 = 1e-9;

// Question 1: the sizes. The limits bound every index, sum and buffer below.
#[tactic(auto, unfolding(grid::specs::Questions::sizes_in_range))]
pub fn sizes_in_range(grid: Grid) -> bool
    ensures { result ≡ sizes_in_range grid }
{
    (1..=grid::MOST_COLUMNS).contains(&grid.columns())
        && (1..=grid::MOST_ROWS).contains(&grid.rows())
}

// Within 90 degrees of the equator.
#[tactic(auto, using(crate::proofs::Literals::literal_90), unfolding(grid::specs::Questions::latitude_in_range))]
fn latitude_in_range(x: f64) -> bool
    ensures { result ≡ latitude_in_range x }
{
    floats::abs(x) <= 90.0 + ROUNDING
}

// Question 2: numbers that are finite, rows that differ, and both edges on the globe.
#[tactic(auto, using(crate::proofs::Literals::not_zero), unfolding(grid::specs::Questions::latitudes_in_range))]
pub fn latitudes_in_range(grid: Grid) -> bool
    ensures { result ≡ latitudes_in_range grid }
{
    floats::is_finite(grid.origin_lat)
        && floats::is_finite(grid.lon_step)
        && floats::is_finite(grid.lat_step)
        && grid.lat_step != 0.0
        && latitude_in_range(grid.origin_lat)
        && latitude_in_range(grid.origin_lat + f64::from(grid.height) * grid.lat_step)
}

// Question 3: the columns make one turn, so that the last one is the first one's neighbour.
#[tactic(auto, using(crate::proofs::Literals::literal_360), unfolding(grid::specs::Questions::columns_close))]
pub fn columns_close(grid: Grid) -> bool
    ensures { result ≡ columns_close grid }
{
    floats::abs(f64::from(grid.width) * floats::abs(grid.lon_step) - 360.0) <= ROUNDING
}

// The first of the questions 1 to 3 that is answered no.
#[tactic(auto, unfolding(grid::specs::Questions::grid_questions, grid::specs::Answer::first_no, grid::specs::Answer::decide))]
pub fn grid_asked(grid: Grid) -> Result<(), Refusal>
    ensures { answer_of result ≡ decide (first_no (grid_questions grid)) tt }
{
    if !sizes_in_range(grid) {
        return Err(Refusal::Sizes);
    }
    if !latitudes_in_range(grid) {
        return Err(Refusal::Latitudes);
    }
    if !columns_close(grid) {
        return Err(Refusal::Columns);
    }
    Ok(())
}
