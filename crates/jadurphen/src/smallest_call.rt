// The smallest-radius call over a ledger of words.
ghost use Rattle.std.specs.Prelude.{◌≡◌};
ghost use Rattle.grid.specs.Map.{lent_map};
ghost use Rattle.most_populous.specs.Call.{buffers};
ghost use Rattle.crossings.specs.Crossing.{grid_from, spacing_from};
ghost use Rattle.crossings.specs.Smallest.{smallest_returned, smallest_crossing};

use grid::{Globe, Grid, Map};

// Exported to C by crates/jadurphen_c: the smallest whole-kilometre radius whose best circle holds the share, as words and
// floats, and the ledger after it.
pub fn jadurphen_smallest(
    width: u32,
    height: u32,
    origin_lat: f64,
    lon_step: f64,
    lat_step: f64,
    counts: &[u32],
    angles: &[f64],
    cosines: &[f64],
    share: f64,
    automatic: bool,
    spacing: u32,
    ledger: &mut [u64],
    sums: &mut [u64],
    current: &mut [u64],
    following: &mut [u64],
    words: &mut [u64; 19],
    floats: &mut [f64; 6],
) -> u32
    ensures { smallest_returned result ledger.new words.new floats.new
        sums.new current.new following.new
        ≡ smallest_crossing
        (lent_map (grid_from width height origin_lat lon_step lat_step) counts.now angles.now cosines.now)
        (spacing_from automatic spacing) share ledger.old
        (buffers sums.old current.old following.old)
        words.old floats.old }
{
    let grid = Grid {
        width,
        height,
        origin_lat,
        lon_step,
        lat_step,
    };
    let globe = Globe {
        grid,
        angles,
        cosines,
    };
    let map = Map { globe, counts };
    let side = crossings::spacing_from(automatic, spacing);
    let mut held = words::ledger_of(ledger);
    match smallest::smallest_radius(&map, share, side, &mut held, sums, current, following) {
        Ok(found) => {
            words::write_ledger(&held, ledger);
            *words = crossings::smallest_words(found);
            *floats = crossings::smallest_floats(found);
            0
        }
        Err(refusal) => refusal.number(),
    }
}
