// The search call.
ghost use Rattle.std.specs.Prelude.{◌≡◌};
ghost use Rattle.grid.specs.Map.{lent_map};
ghost use Rattle.most_populous.specs.Call.{buffers};
ghost use Rattle.crossings.specs.Crossing.{grid_from, spacing_from};
ghost use Rattle.crossings.specs.Calls.{search_returned, search_crossing};

use grid::{Globe, Grid, Map};

// Exported to C by crates/jadurphen_c: the most populous circle of a radius, as words, and the tolerance in persons.
pub fn jadurphen_search(
    width: u32,
    height: u32,
    origin_lat: f64,
    lon_step: f64,
    lat_step: f64,
    counts: &[u32],
    angles: &[f64],
    cosines: &[f64],
    km: u32,
    automatic: bool,
    spacing: u32,
    sums: &mut [u64],
    current: &mut [u64],
    following: &mut [u64],
    words: &mut [u64; 10],
    tolerance: &mut f64,
) -> u32
    ensures { search_returned result words.new tolerance.new sums.new current.new following.new
        ≡ search_crossing
        (lent_map (grid_from width height origin_lat lon_step lat_step) counts.now angles.now cosines.now)
        (spacing_from automatic spacing) km (buffers sums.old current.old following.old)
        words.old tolerance.old }
{
    let grid = Grid {
        width,
        height,
        origin_lat,
        lon_step,
        lat_step,
    };
    let globe = Globe {
        grid,
        angles,
        cosines,
    };
    let map = Map { globe, counts };
    let side = crossings::spacing_from(automatic, spacing);
    match most_populous::most_populous(&map, km, side, sums, current, following) {
        Ok(found) => {
            *words = crossings::search_words(found);
            *tolerance = found.tolerance_persons;
            0
        }
        Err(refusal) => refusal.number(),
    }
}
