// The two calls of a job, M and R: the map's part of each array is lent to them, with buffers of their own.
ghost use Rattle.std.specs.Prelude.{◌≡◌};
ghost use Rattle.smallest_rules.specs.Call.{smallest_call};
ghost use Rattle.most_populous.specs.Call.{search_call};
ghost use Rattle.job_commands.specs.declared.Command.TheVariants.{Most, Least};
ghost use Rattle.grid.specs.Map.{map_lent};
ghost use Rattle.grid.specs.Refusal.{answer_of};
ghost use Rattle.job_world.specs.State.{job_map};
ghost use Rattle.job_rules.specs.Apply.{job_spacing, job_buffers};
ghost use Rattle.job_rules.specs.State.{later_in};
ghost use Rattle.job_step.specs.State.{IsLeast, settled_in};

use crate::{Printed, change};
use grid::{Globe, Map, Refusal};
use job_world::JobState;
use ledger::Ledger;
use probes::Smallest;
use search_rules::MostPopulous;
use spacing::Spacing;

// A spacing of 0 is automatic.
#[tactic(auto, unfolding(job_rules::specs::Apply::job_spacing))]
fn spacing_of(spacing: u32) -> Spacing
    ensures { result ≡ job_spacing spacing }
{
    match spacing {
        0 => Spacing::Automatic,
        cells => Spacing::Cells(cells),
    }
}

// The map in a state's arrays: of each as many places as the grid has.
#[tactic(auto, using(job_world::proofs::Fronts::fronts), unfolding(job_sizes::specs::Sizes::places_of))]
fn map_of(state: &JobState) -> Map<'_>
    ensures { map_lent result ≡ job_map state.now }
{
    let places = job_sizes::places_of(state.grid);
    let globe = Globe {
        grid: state.grid,
        angles: &state.angles[..places.angles],
        cosines: &state.cosines[..places.cosines],
    };
    Map {
        globe,
        counts: &state.counts[..places.counts],
    }
}

// The search on the map's part of the arrays. It and `least_of` stay two: what they share is `map_of` and `spacing_of`, and each lends, asks and
// gives what its own call does.
#[tactic(auto, using(crate::proofs::Lent::search_lent), unfolding(job_rules::specs::Apply::job_buffers))]
fn most_of(state: &JobState, spacing: u32, km: u32) -> Result<MostPopulous, Refusal>
    ensures { answer_of result ≡ (search_call (job_map state.now) (job_spacing spacing) km job_buffers).answer }
{
    let map = map_of(state);
    let side = spacing_of(spacing);
    most_populous::most_populous(
        &map,
        km,
        side,
        &mut [0; job_sizes::SUMS],
        &mut [0; job_sizes::CELLS],
        &mut [0; job_sizes::CELLS],
    )
}

// M: the most populous circle's line.
#[tactic(auto, using(crate::proofs::Lent::most_found, crate::proofs::Lent::most_refused))]
pub(crate) fn run_most(state: &JobState, spacing: u32, km: u32) -> Result<Printed, Refusal>
    ensures { settled_in state.now result ≡ later_in state.now (Most spacing km) }
{
    let found = most_of(state, spacing, km)?;
    Ok(change::go_on(job_lines::most_line(found)))
}

// The smallest radius on the map's part of the arrays, from a ledger that is lent.
#[tactic(auto, using(crate::proofs::Lent::smallest_lent), unfolding(job_rules::specs::Apply::job_buffers))]
fn least_of(
    state: &JobState,
    spacing: u32,
    share: f64,
    ledger: &mut Ledger,
) -> Result<Smallest, Refusal>
    ensures { IsLeast (smallest_call (job_map state.now) (job_spacing spacing) share ledger.old job_buffers) result ledger.new }
{
    let map = map_of(state);
    let side = spacing_of(spacing);
    smallest::smallest_radius(
        &map,
        share,
        side,
        ledger,
        &mut [0; job_sizes::SUMS],
        &mut [0; job_sizes::CELLS],
        &mut [0; job_sizes::CELLS],
    )
}

// R: the smallest radius's line, and the ledger as the call leaves it, so that a later R need not search its radii again.
#[tactic(auto, using(crate::proofs::Lent::least_found, crate::proofs::Lent::least_refused))]
pub(crate) fn run_least(state: &mut JobState, spacing: u32, share: f64) -> Result<Printed, Refusal>
    ensures { settled_in state.new result ≡ later_in state.old (Least spacing share) }
{
    let mut ledger = state.ledger;
    let found = least_of(state, spacing, share, &mut ledger)?;
    job_world::with_ledger(state, ledger);
    Ok(change::go_on(job_lines::least_line(found)))
}
