// The rows of a circle: how many offsets of each lie within an angle, from the centre row outward.
ghost use Rattle.std.specs.Prelude.{◌≡◌, ◌+◌, ◌-◌, ◌≤◌, ◌<◌, length};
ghost use Rattle.std.specs.Float.Ieee.{le};
ghost use Rattle.reach.specs.Reach.{reach, row_places};
ghost use Rattle.grid.specs.Map.{globe_lent};
ghost use Rattle.reach.specs.Requires.{OnSheet, PairOnSheet};
ghost use Rattle.reach.specs.State.{passes, Edge, NorthWalked, SouthWalked};

use grid::{Globe, Row};

// A circle's edge belongs to it.
pub fn within(angle: f64, limit: f64) -> bool
    ensures { result ≡ le angle limit }
{
    angle <= limit
}

// How many offsets of a row lie within an angle: found by halves, since angles do not fall as the offset grows. By `as`, here and below:
// no From leads from usize to u8 or from u32 to usize, and a reach is at most 91.
pub fn reach_by_halves(globe: &Globe<'_>, centre: Row, row: Row, limit: f64) -> u8
    requires { PairOnSheet globe.now.grid globe.now.angles.now centre row }
    ensures { result ≡ reach (globe_lent globe.now) centre row limit }
{
    let Globe { grid, angles, .. } = *globe;
    let first = grid::sheet_index(grid, centre, row, 0);
    // One past the last offset, half the width, from which `reach_of` begins too: `Grid::offsets` would hide the last of the two.
    let end = first + grid.columns() / 2 + 1;
    angles[first..end].partition_point(|angle| within(*angle, limit)) as u8
}

// On from an offset, past all that are within, up to an end.
fn grown(angles: &[f64], first: usize, limit: f64, from: usize, end: usize) -> usize
    requires from_le_end { from ≤ end }
    requires end_in_bounds { first + end ≤ length angles.now }
    ensures { Edge (passes angles.now first limit) from end result }
{
    for n in from..end {
        if !within(angles[first + n], limit) {
            return n;
        }
    }
    end
}

// Back from an offset, past all that are not within.
fn shrunk(angles: &[f64], first: usize, limit: f64, from: usize) -> usize
    requires { first + from ≤ length angles.now }
    ensures { Edge (passes angles.now first limit) 0 from result }
{
    for n in (0..from).rev() {
        if within(angles[first + n], limit) {
            return n + 1;
        }
    }
    0
}

// How many offsets of a row lie within an angle: all, where the last is, as in most rows of a very large circle; else found step by step
// from a guess. From row to row outward the reach changes little, so that the neighbour's is a guess with few steps to go, fewer than
// by halves. Any guess gives the same.
fn reach_of(globe: &Globe<'_>, centre: Row, row: Row, limit: f64, guess: u8) -> u8
    requires { PairOnSheet globe.now.grid globe.now.angles.now centre row }
    ensures { result ≡ reach (globe_lent globe.now) centre row limit }
{
    let Globe { grid, angles, .. } = *globe;
    let first = grid::sheet_index(grid, centre, row, 0);
    let last = grid.columns() / 2;
    if within(angles[first + last], limit) {
        return last as u8 + 1;
    }
    let from = last.min(usize::from(guess));
    if within(angles[first + from], limit) {
        return grown(angles, first, limit, from + 1, last) as u8;
    }
    shrunk(angles, first, limit, from) as u8
}

// The reaches of the rows north of the centre row, up to the first row missed. Gives the northernmost row touched. A row is a number here,
// since it counts the walk; a Row is made of it for the call.
#[tactic(auto, using(crate::proofs::Walks::filled_none))]
pub fn walk_north(
    globe: &Globe<'_>,
    centre: Row,
    limit: f64,
    mut guess: u8,
    reaches: &mut [u8],
) -> u32
    requires on_sheet { OnSheet globe.now.grid globe.now.angles.now centre }
    requires reaches_len { length reaches.old ≡ row_places }
    ensures { NorthWalked (globe_lent globe.now) centre limit reaches.old reaches.new result }
{
    for row in (0..centre.0).rev() {
        let n = reach_of(globe, centre, Row(row), limit, guess);
        if n == 0 {
            return row + 1;
        }
        reaches[row as usize] = n;
        guess = n;
    }
    0
}

// The reaches of the centre row and those south of it, up to the first row missed, whose number it gives. A function of its own beside
// `walk_north`: one over any iterator of rows would be no shorter, since each walk gives another end, and its contract and proof would be by case.
#[tactic(auto, using(crate::proofs::Walks::filled_none))]
pub fn walk_south(
    globe: &Globe<'_>,
    centre: Row,
    limit: f64,
    mut guess: u8,
    reaches: &mut [u8],
) -> u32
    requires on_sheet { OnSheet globe.now.grid globe.now.angles.now centre }
    requires reaches_len { length reaches.old ≡ row_places }
    ensures { SouthWalked (globe_lent globe.now) centre limit reaches.old reaches.new result }
{
    for row in centre.0..globe.grid.height {
        let n = reach_of(globe, centre, Row(row), limit, guess);
        if n == 0 {
            return row;
        }
        reaches[row as usize] = n;
        guess = n;
    }
    globe.grid.height
}
