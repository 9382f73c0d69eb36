// The single-circle call.
ghost use Rattle.std.specs.Prelude.{◌≡◌};
ghost use Rattle.grid.specs.Grid.{cell};
ghost use Rattle.grid.specs.Map.{lent_map};
ghost use Rattle.crossings.specs.Crossing.{grid_from};
ghost use Rattle.crossings.specs.Calls.{circle_returned, circle_crossing};

use grid::{Cell, Col, Globe, Grid, Map, Row};

// Exported to C by crates/jadurphen_c: the population of a circle.
pub fn jadurphen_circle(
    width: u32,
    height: u32,
    origin_lat: f64,
    lon_step: f64,
    lat_step: f64,
    counts: &[u32],
    angles: &[f64],
    cosines: &[f64],
    sums: &mut [u64],
    km: u32,
    row: u32,
    col: u32,
    population: &mut u64,
) -> u32
    ensures { circle_returned result population.new sums.new
        ≡ circle_crossing
        (lent_map (grid_from width height origin_lat lon_step lat_step) counts.now angles.now cosines.now)
        sums.old km (cell row col) population.old }
{
    let grid = Grid {
        width,
        height,
        origin_lat,
        lon_step,
        lat_step,
    };
    let globe = Globe {
        grid,
        angles,
        cosines,
    };
    let map = Map { globe, counts };
    let centre = Cell {
        row: Row(row),
        col: Col(col),
    };
    match circle::circle(&map, sums, km, centre) {
        Ok(people) => {
            *population = people;
            0
        }
        Err(refusal) => refusal.number(),
    }
}
