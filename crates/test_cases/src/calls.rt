// The C boundary's calls on a map, with so much of each array lent as it says, or all where there is less. They return 0 or
// the number of a refusal.
ghost use Rattle.std.specs.Prelude.{◌≡◌};
ghost use Rattle.crossings.specs.Calls.{circle_returned};
ghost use Rattle.most_populous.specs.Call.{buffers};
ghost use Rattle.test_cases.specs.Calls.{lent_by, search_left, smallest_left, circle_played, search_played, smallest_played};

use crate::map::Board;

// A single circle; asked are kilometre, row and column.
pub fn circle(board: &Board, asked: &[u64], sums: &mut [u64], population: &mut u64) -> u32
    ensures { circle_returned result population.new sums.new
        ≡ circle_played board.now.map (lent_by board.now) asked.now sums.old population.old }
{
    let map = board.map;
    let grid = map.grid;
    let n = map.sums.min(sums.len());
    jadurphen::jadurphen_circle(
        grid.width,
        grid.height,
        grid.origin_lat,
        grid.lon_step,
        grid.lat_step,
        test_lines::first(board.counts.as_slice(), map.counts),
        test_lines::first(board.angles.as_slice(), map.angles),
        test_lines::first(board.cosines.as_slice(), map.cosines),
        &mut sums[..n],
        test_lines::short_at(asked, 0),
        test_lines::short_at(asked, 1),
        test_lines::short_at(asked, 2),
        population,
    )
}

// A search. It and `smallest` are lent slices, as C lends them, and no `&mut Buffers`: that was tried, and the proof did not close, since of the three Vecs
// after the call, each lent as a slice at once, no fact was found.
pub fn search(
    board: &Board,
    km: u32,
    automatic: bool,
    spacing: u32,
    sums: &mut [u64],
    current: &mut [u64],
    following: &mut [u64],
    answer: &mut [u64; 10],
    tolerance: &mut f64,
) -> u32
    ensures { search_left board.now.map result answer.new tolerance.new (buffers sums.new current.new following.new)
        ≡ search_played board.now.map (lent_by board.now) automatic spacing km (buffers sums.old current.old following.old)
        answer.old tolerance.old }
{
    let map = board.map;
    let grid = map.grid;
    let n = map.sums.min(sums.len());
    let of_current = map.current.min(current.len());
    let of_following = map.following.min(following.len());
    jadurphen::jadurphen_search(
        grid.width,
        grid.height,
        grid.origin_lat,
        grid.lon_step,
        grid.lat_step,
        test_lines::first(board.counts.as_slice(), map.counts),
        test_lines::first(board.angles.as_slice(), map.angles),
        test_lines::first(board.cosines.as_slice(), map.cosines),
        km,
        automatic,
        spacing,
        &mut sums[..n],
        &mut current[..of_current],
        &mut following[..of_following],
        answer,
        tolerance,
    )
}

// A smallest radius. It lends as a search does; each passes its own call's arguments, and a common form would hand on as many.
pub fn smallest(
    board: &Board,
    share: f64,
    automatic: bool,
    spacing: u32,
    ledger: &mut [u64],
    sums: &mut [u64],
    current: &mut [u64],
    following: &mut [u64],
    answer: &mut [u64; 19],
    floats: &mut [f64; 6],
) -> u32
    ensures { smallest_left board.now.map result ledger.new answer.new floats.new (buffers sums.new current.new following.new)
        ≡ smallest_played board.now.map (lent_by board.now) automatic spacing share
        ledger.old (buffers sums.old current.old following.old) answer.old floats.old }
{
    let map = board.map;
    let grid = map.grid;
    let n = map.sums.min(sums.len());
    let of_current = map.current.min(current.len());
    let of_following = map.following.min(following.len());
    jadurphen::jadurphen_smallest(
        grid.width,
        grid.height,
        grid.origin_lat,
        grid.lon_step,
        grid.lat_step,
        test_lines::first(board.counts.as_slice(), map.counts),
        test_lines::first(board.angles.as_slice(), map.angles),
        test_lines::first(board.cosines.as_slice(), map.cosines),
        share,
        automatic,
        spacing,
        ledger,
        &mut sums[..n],
        &mut current[..of_current],
        &mut following[..of_following],
        answer,
        floats,
    )
}
