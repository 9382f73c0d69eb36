// The radii of the climb and the bisection, each decided by whether the one before reached.
ghost use Rattle.std.specs.Prelude.{◌≡◌};
ghost use Rattle.climb.specs.Climb.{last_radius};
ghost use Rattle.climb.specs.Requires.{CanGoOn};
ghost use Rattle.climb.specs.State.{bracket_start, bracket_closed, next_radius, bracket_next};

use crate::Bracket;
use grid::{Grid, RadiusKm};

// The last radius of a climb on the grid: the kilometre below the ceiling.
#[tactic(auto, using(grid::proofs::Body::ceiling_least), unfolding(crate::specs::Climb::last_radius))]
fn last_radius(grid: Grid) -> RadiusKm
    ensures { result.0 ≡ last_radius grid }
{
    RadiusKm(grid::ceiling(grid) - 1)
}

impl Bracket {
    // Nothing known, and 1 kilometre next.
    pub fn start() -> Bracket
        ensures { result ≡ bracket_start }
    {
        Bracket {
            low: RadiusKm(0),
            high: RadiusKm(1),
            reached: false,
        }
    }

    // The bracket is one kilometre, or the last radius fell short.
    pub fn closed(self) -> bool
        ensures { result ≡ bracket_closed self }
    {
        if self.reached {
            self.high <= self.low
        } else {
            self.high < self.low
        }
    }

    // The next kilometre to probe. The middle is written out, as in `blocks::middle`: the
    // definition says low where high lies below it, and the library's `midpoint` does not.
    pub fn radius(self) -> RadiusKm
        ensures { result.0 ≡ next_radius self }
    {
        if self.reached {
            RadiusKm(self.low.0 + self.high.0.saturating_sub(self.low.0) / 2)
        } else {
            self.high
        }
    }

    // What is known after the probe of the next kilometre. No radius is past the grid's ceiling, which is one more than the last of the climb.
    #[tactic(auto, using(crate::proofs::Radii::last_most), unfolding(crate::specs::State::bracket_next))]
    pub fn next(self, grid: Grid, reached: bool) -> Bracket
        requires { CanGoOn grid self }
        ensures { result ≡ bracket_next (last_radius grid) self reached }
    {
        let km = self.radius();
        if reached {
            return Bracket {
                high: km,
                reached,
                ..self
            };
        }
        let low = RadiusKm(km.0 + 1);
        if self.reached {
            return Bracket { low, ..self };
        }
        let last = last_radius(grid);
        let high = RadiusKm(2 * km.0).min(last);
        Bracket { low, high, ..self }
    }
}
