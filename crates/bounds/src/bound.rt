// The wide circle of a block: how far its cells may stand from its probe, and the radius widened by that.
ghost use Rattle.std.specs.Prelude.{◌≡◌};
ghost use Rattle.grid.specs.Map.{globe_lent};
ghost use Rattle.bounds.specs.Bound.{slack_margin, slack_km, widened_by, wide_km};
ghost use Rattle.bounds.specs.State.{wide_kernel};
ghost use Rattle.bounds.specs.Requires.{WithCosines, CanWiden};

use blocks::Block;
use grid::Globe;
use kernel::Kernel;

// A degree in radians.
pub const RADIAN: f64 = 0.017453292519943295;

// The largest finite number.
const LARGEST: f64 = f64::MAX;

// What covers the roundings of a slack. In a block of one column, or of one row on the equator, the two hops are the distance itself and
// leave nothing to spare: rounded down, they would shut out a cell that is within reach. A slack has a handful of roundings and loses
// a few ε, so 32 are plenty; and at the longest slack they are less than a thousandth of a millimetre.
pub fn slack_margin() -> f64
    ensures { result ≡ slack_margin }
{
    1.0 + 32.0 * floats::EPSILON
}

// How far a block's cells may stand from its probe, in kilometres: along the probe's parallel to a cell's column, then along the meridian to
// its row, which is no shorter than the distance. The cosine is the probe's, since the first hop stays at its latitude.
pub fn slack_km(globe: &Globe<'_>, block: Block) -> f64
    requires { WithCosines globe.now.grid globe.now.cosines.now block }
    ensures { result ≡ slack_km (globe_lent globe.now) block }
{
    let Globe { grid, cosines, .. } = *globe;
    let p = blocks::probe(block);
    let row = p.row;
    let at = usize::from(row);
    let lat = grid.centre_lat(row);
    let north = floats::abs(grid.centre_lat(block.north) - lat);
    let south = floats::abs(grid.centre_lat(block.south) - lat);
    let delta_lat = floats::greater(north, south);
    let farther = (p.col.0 - block.first.0).max(block.last.0 - p.col.0);
    let delta_lon = f64::from(farther) * floats::abs(grid.lon_step);
    let hops = delta_lat * RADIAN + delta_lon * RADIAN * cosines[at];
    grid::arc_km(grid, hops) * slack_margin()
}

// A radius with a slack added. A wide circle is there to bound: one too wide costs time, one too narrow could lose the best circle. So it
// is never below the radius, and where the sum is infinite or no number it is the largest there is.
pub fn widened_by(km: f64, slack: f64) -> f64
    ensures { result ≡ widened_by km slack }
{
    let wide = km + slack;
    if floats::is_finite(wide) {
        floats::greater(wide, km)
    } else {
        LARGEST
    }
}

// The radius of a block's wide circle.
pub fn wide_km(globe: &Globe<'_>, km: f64, block: Block) -> f64
    requires { WithCosines globe.now.grid globe.now.cosines.now block }
    ensures { result ≡ wide_km (globe_lent globe.now) km block }
{
    widened_by(km, slack_km(globe, block))
}

// The kernel of a block's wide circle.
#[tactic(auto, unfolding(crate::specs::State::wide_kernel))]
pub fn wide_kernel(globe: &Globe<'_>, km: f64, block: Block) -> Kernel
    requires { CanWiden globe.now.grid globe.now.angles.now globe.now.cosines.now block }
    ensures { result ≡ wide_kernel (globe_lent globe.now) km block }
{
    let row = blocks::probe(block).row;
    kernel::build(globe, row, wide_km(globe, km, block))
}
