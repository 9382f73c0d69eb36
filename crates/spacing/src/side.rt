// The side of the first level's blocks: given, or the widest whose slack leaves the wide circles below half the globe.
ghost use Rattle.std.specs.Prelude.{◌≡◌};
ghost use Rattle.spacing.specs.Spacing.{latitude_extent, longitude_extent, extent_fits, side_fits, widest_side};
ghost use Rattle.spacing.specs.Spacing.{initial_spacing, spacing_of, spacing_given};

use crate::Spacing;
use grid::Grid;

// Degrees that so many rows may span, rounded outward. Eight ε of the latitudes' size cover the roundings of two row centres and their
// difference, also where the step is lost beside the origin; the next values up cover steps too small for a relative bound.
fn latitude_extent(grid: Grid, rows: u32) -> f64
    ensures { result ≡ latitude_extent grid rows }
{
    if rows == 0 {
        return 0.0;
    }
    let step = floats::abs(grid.lat_step);
    let height = floats::next_up(f64::from(grid.height) * step);
    let scale = floats::next_up(floats::abs(grid.origin_lat) + height);
    let headroom = floats::next_up(8.0 * floats::EPSILON * scale);
    let span = floats::next_up(f64::from(rows) * step);
    floats::next_up(span + headroom)
}

// Degrees that so many columns may span, rounded outward.
fn longitude_extent(grid: Grid, cols: u32) -> f64
    ensures { result ≡ longitude_extent grid cols }
{
    if cols == 0 {
        return 0.0;
    }
    floats::next_up(f64::from(cols) * floats::abs(grid.lon_step))
}

// Whether the radius widened by those extents stays below half the circumference. No cosine is taken, as if all lay on the equator, so
// that the side is one for every latitude.
fn extent_fits(grid: Grid, km: f64, rows: u32, cols: u32) -> bool
    ensures { result ≡ extent_fits grid km rows cols }
{
    let latitude = floats::next_up(latitude_extent(grid, rows) * bounds::RADIAN);
    let longitude = floats::next_up(longitude_extent(grid, cols) * bounds::RADIAN);
    let angle = floats::next_up(latitude + longitude);
    let arc = floats::next_up(grid::arc_km(grid, angle));
    let slack = floats::next_up(arc * bounds::slack_margin());
    floats::next_up(bounds::widened_by(km, slack)) < grid::arc_km(grid, grid::HALF_TURN)
}

// Whether blocks of a side fit.
fn side_fits(grid: Grid, km: f64, side: u32) -> bool
    ensures { result ≡ side_fits grid km side }
{
    let rows = side.min(grid.height) / 2;
    let cols = side.min(grid.width) / 2;
    rows == 0 && cols == 0 || extent_fits(grid, km, rows, cols)
}

// The side that is found by halves from 1 to the longest, as its definition is: no slice holds the sides, so `partition_point` has
// nothing to ask.
#[tactic(auto, using(crate::proofs::Sides::halving))]
fn widest_side(grid: Grid, km: f64, longest: u32) -> u32
    ensures { result ≡ widest_side longest grid km 1 longest }
{
    let mut low: u32 = 1;
    let mut high = longest;
    while low < high {
        let distance = high - low;
        let mid = low + distance / 2 + distance % 2;
        if side_fits(grid, km, mid) {
            low = mid;
        } else {
            high = mid - 1;
        }
    }
    low
}

// The automatic spacing. From half the circumference on every wide circle is the whole grid and nothing is pruned: one block is enough.
pub fn initial_spacing(grid: Grid, km: f64) -> u32
    ensures { result ≡ initial_spacing grid km }
{
    let side = grid.width.max(grid.height);
    if grid::arc_km(grid, grid::HALF_TURN) <= km {
        return side;
    }
    widest_side(grid, km, side)
}

// The side of the first level's blocks at a radius.
pub fn spacing_of(grid: Grid, km: f64, spacing: Spacing) -> u32
    ensures { result ≡ spacing_of grid km spacing }
{
    match spacing {
        Spacing::Automatic => initial_spacing(grid, km),
        Spacing::Cells(n) => n,
    }
}

// Question 10: a spacing of no cells would make no blocks.
pub fn spacing_given(spacing: Spacing) -> bool
    ensures { result ≡ spacing_given spacing }
{
    match spacing {
        Spacing::Automatic => true,
        Spacing::Cells(n) => 1 <= n,
    }
}
