// The C interface: each call of `jadurphen` under the same name and with the same clauses. A second crate, since one is a library or a
// static library and not both.
// A slice crosses as two arguments, its pointer and its length; `include/jadurphen.h` declares the functions.
#![tactic(auto)]

ghost use Rattle.std.specs.Prelude.{◌≡◌};
ghost use Rattle.grid.specs.Grid.{cell};
ghost use Rattle.grid.specs.Map.{lent_map};
ghost use Rattle.candidates.specs.Candidate.{candidate_of};
ghost use Rattle.ledger.specs.Ledger.{entry};
ghost use Rattle.most_populous.specs.Call.{buffers};
ghost use Rattle.crossings.specs.Crossing.{grid_from, spacing_from};
ghost use Rattle.crossings.specs.Calls.{circle_returned, circle_crossing, search_returned, search_crossing, put_returned, put_crossing};
ghost use Rattle.crossings.specs.Smallest.{smallest_returned, smallest_crossing};

// The population of a circle.
#[unsafe(no_mangle)]
pub extern "C" fn jadurphen_circle(
    width: u32,
    height: u32,
    origin_lat: f64,
    lon_step: f64,
    lat_step: f64,
    counts: &[u32],
    angles: &[f64],
    cosines: &[f64],
    sums: &mut [u64],
    km: u32,
    row: u32,
    col: u32,
    population: &mut u64,
) -> u32
    ensures { circle_returned result population.new sums.new
        ≡ circle_crossing
        (lent_map (grid_from width height origin_lat lon_step lat_step) counts.now angles.now cosines.now)
        sums.old km (cell row col) population.old }
{
    jadurphen::jadurphen_circle(
        width, height, origin_lat, lon_step, lat_step, counts, angles, cosines, sums, km, row, col,
        population,
    )
}

// The most populous circle of a radius, as words, and the tolerance in persons.
#[unsafe(no_mangle)]
pub extern "C" fn jadurphen_search(
    width: u32,
    height: u32,
    origin_lat: f64,
    lon_step: f64,
    lat_step: f64,
    counts: &[u32],
    angles: &[f64],
    cosines: &[f64],
    km: u32,
    automatic: bool,
    spacing: u32,
    sums: &mut [u64],
    current: &mut [u64],
    following: &mut [u64],
    words: &mut [u64; 10],
    tolerance: &mut f64,
) -> u32
    ensures { search_returned result words.new tolerance.new sums.new current.new following.new
        ≡ search_crossing
        (lent_map (grid_from width height origin_lat lon_step lat_step) counts.now angles.now cosines.now)
        (spacing_from automatic spacing) km (buffers sums.old current.old following.old)
        words.old tolerance.old }
{
    jadurphen::jadurphen_search(
        width, height, origin_lat, lon_step, lat_step, counts, angles, cosines, km, automatic,
        spacing, sums, current, following, words, tolerance,
    )
}

// The smallest whole-kilometre radius whose best circle holds the share, as words and floats, and the ledger after it.
#[unsafe(no_mangle)]
pub extern "C" fn jadurphen_smallest(
    width: u32,
    height: u32,
    origin_lat: f64,
    lon_step: f64,
    lat_step: f64,
    counts: &[u32],
    angles: &[f64],
    cosines: &[f64],
    share: f64,
    automatic: bool,
    spacing: u32,
    ledger: &mut [u64],
    sums: &mut [u64],
    current: &mut [u64],
    following: &mut [u64],
    words: &mut [u64; 19],
    floats: &mut [f64; 6],
) -> u32
    ensures { smallest_returned result ledger.new words.new floats.new
        sums.new current.new following.new
        ≡ smallest_crossing
        (lent_map (grid_from width height origin_lat lon_step lat_step) counts.now angles.now cosines.now)
        (spacing_from automatic spacing) share ledger.old
        (buffers sums.old current.old following.old)
        words.old floats.old }
{
    jadurphen::jadurphen_smallest(
        width, height, origin_lat, lon_step, lat_step, counts, angles, cosines, share, automatic,
        spacing, ledger, sums, current, following, words, floats,
    )
}

// An entry put into the ledger.
#[unsafe(no_mangle)]
pub extern "C" fn jadurphen_put(
    width: u32,
    height: u32,
    origin_lat: f64,
    lon_step: f64,
    lat_step: f64,
    ledger: &mut [u64],
    km: u32,
    row: u32,
    col: u32,
    population: u64,
) -> u32
    ensures { put_returned result ledger.new
        ≡ put_crossing
        (grid_from width height origin_lat lon_step lat_step) ledger.old
        (entry km (candidate_of (cell row col) population)) }
{
    jadurphen::jadurphen_put(
        width, height, origin_lat, lon_step, lat_step, ledger, km, row, col, population,
    )
}
