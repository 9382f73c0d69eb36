// Where the run of a smallest radius has ended, and the answer from there.
#![tactic(auto)]

ghost use Rattle.std.specs.Prelude.{◌≡◌};
ghost use Rattle.grid.specs.Map.{globe_lent};
ghost use Rattle.reach.specs.Requires.{OnSheet};
ghost use Rattle.probes.specs.State.{end_covers, answer_by};
ghost use Rattle.probes.specs.Requires.{CanConclude};
ghost use Rattle.run_end.specs.State.{end_from};

use climb::Bracket;
use grid::Globe;
use probes::{RunEnd, RunState, Smallest};
use share::Aim;

// The end of a run whose bracket is closed.
#[tactic(auto, unfolding(crate::specs::State::end_from))]
pub fn end_of(bracket: Bracket, state: RunState) -> RunEnd
    ensures { result ≡ end_from bracket state }
{
    RunEnd {
        radius_km: bracket.low,
        reached: bracket.reached,
        centre: state.found,
        short_below: state.short,
        ambiguity: state.ambiguity,
        stats: state.stats,
    }
}

// At the ceiling, where all radii fell short, every circle is the whole grid.
#[tactic(auto, unfolding(probes::specs::State::end_covers))]
fn covers(globe: &Globe<'_>, end: RunEnd) -> bool
    requires { OnSheet globe.now.grid globe.now.angles.now end.centre.row }
    ensures { result ≡ end_covers (globe_lent globe.now) end }
{
    if !end.reached {
        return true;
    }
    let kernel = kernel::build(globe, end.centre.row, f64::from(end.radius_km.0));
    kernel_sums::covers(globe.grid, &kernel)
}

// The answer at the end of a run. The slack bounds how far rounding moves a population that is summed in binary64 row by row, as the original
// sums it. It decides nothing: it tells which probes stand too close to the target to be sure of.
#[tactic(auto, using(floats::proofs::Literals::literal_0), unfolding(probes::specs::State::answer_by))]
pub fn conclude(globe: &Globe<'_>, aim: Aim, end: RunEnd) -> Smallest
    requires { CanConclude globe.now.grid globe.now.angles.now aim.total end }
    ensures { result ≡ answer_by (globe_lent globe.now) aim.target aim.slack aim.total end }
{
    Smallest {
        radius_km: end.radius_km,
        centre: end.centre,
        target: aim.target,
        share_achieved: share::share_of(end.centre.population, aim.total),
        short_below: end.short_below,
        covers_whole_grid: covers(globe, end),
        predicate_slack_persons: aim.slack,
        ambiguity: end.ambiguity,
        tolerance_persons: 0.0,
        stats: end.stats,
    }
}
