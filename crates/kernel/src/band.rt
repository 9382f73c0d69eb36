// A kernel, built over the band of rows that it touches.
ghost use Rattle.std.specs.Prelude.{◌≡◌};
ghost use Rattle.kernel.specs.Kernel.{kernel_of};
ghost use Rattle.grid.specs.Map.{globe_lent};
ghost use Rattle.reach.specs.Requires.{OnSheet};

use crate::{Kernel, ROWS, runs};
use grid::{Globe, Row};

// The kernel of a centre row and a radius. Two walks lead outward from the centre row, the northern one first, and end where a row is
// missed, since the rows touched are one band. The centre row's reach is what either walk looks from.
pub fn build(globe: &Globe<'_>, row: Row, km: f64) -> Kernel
    requires { OnSheet globe.now.grid globe.now.angles.now row }
    ensures { result ≡ kernel_of (globe_lent globe.now) row km }
{
    let mut reach = [0u8; ROWS];
    let mut run = [0u8; ROWS];
    if km == 0.0 {
        return Kernel {
            row,
            km,
            north: row,
            end: row.0,
            reach,
            run,
        };
    }
    let limit = grid::angle_of(globe.grid, km);
    let guess = reach::reach_by_halves(globe, row, row, limit);
    let north = reach::walk_north(globe, row, limit, guess, &mut reach);
    let end = reach::walk_south(globe, row, limit, guess, &mut reach);
    runs::mark(&reach, north, end, &mut run);
    Kernel {
        row,
        km,
        north: Row(north),
        end,
        reach,
        run,
    }
}
