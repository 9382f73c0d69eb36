// The state of a run: what a probe adds to it.
ghost use Rattle.std.specs.Prelude.{◌≡◌, cond, ◌+◌, ◌≤◌, ◌<◌, ◌^◌};
ghost use Rattle.tally.specs.State.{stats_weight};
ghost use Rattle.probes.specs.Smallest.{widened};
ghost use Rattle.probes.specs.State.{run_begun, reused_more, evaluated_more, short_after, ambiguity_after, noted, radii_of};

use candidates::Candidate;
use grid::{Cell, Col, RadiusKm, Row};
use probes::{Ambiguity, RunState, SmallestStats, Witness};
use share::Aim;
use tally::SearchStats;

// One radius more that the slack cannot separate from the target.
#[tactic(auto, unfolding(probes::specs::Smallest::widened, probes::specs::State::radii_of, lists::specs::Counted::max))]
fn widened(ambiguity: Option<Ambiguity>, km: RadiusKm) -> Option<Ambiguity>
    requires { radii_of ambiguity + 1 < 2 ^ 32 }
    ensures { result ≡ widened ambiguity km.0 }
{
    match ambiguity {
        None => Some(Ambiguity {
            lowest_km: km,
            highest_km: km,
            radii: 1,
        }),
        Some(before) => Some(Ambiguity {
            lowest_km: before.lowest_km.min(km),
            highest_km: before.highest_km.max(km),
            radii: before.radii + 1,
        }),
    }
}

// A probe within the slack widens the ambiguity, whether it reached or fell short.
#[tactic(auto, unfolding(probes::specs::State::ambiguity_after))]
fn ambiguity_after(within: bool, ambiguity: Option<Ambiguity>, km: RadiusKm) -> Option<Ambiguity>
    requires { radii_of ambiguity + 1 < 2 ^ 32 }
    ensures { result ≡ ambiguity_after within ambiguity km.0 }
{
    if within {
        widened(ambiguity, km)
    } else {
        ambiguity
    }
}

// A probe that fell short is the witness until another does. The latest stands one kilometre below the lowest radius that is left, so that at
// the end it is one below the answer.
#[tactic(auto, unfolding(probes::specs::State::short_after))]
fn short_after(
    reached: bool,
    short: Option<Witness>,
    km: RadiusKm,
    population: u64,
) -> Option<Witness>
    ensures { result ≡ short_after reached short km.0 population }
{
    if reached {
        short
    } else {
        Some(Witness { km, population })
    }
}

// What the lowest radius that reached has found: each that reaches is lower than those before it.
fn found_after(reached: bool, centre: Candidate, found: Candidate) -> Candidate
    ensures { result ≡ cond reached centre found }
{
    if reached { centre } else { found }
}

// One probe more that the ledger answered. It counts apart, since no search ran: the searches' counts stay.
#[tactic(auto, unfolding(probes::specs::State::reused_more))]
pub(crate) fn reused_more(stats: SmallestStats) -> SmallestStats
    requires { stats.radii_evaluated + stats.radii_reused < 2 ^ 32 }
    ensures { result ≡ reused_more stats }
{
    SmallestStats {
        radii_evaluated: stats.radii_evaluated,
        radii_reused: stats.radii_reused + 1,
        searched: stats.searched,
    }
}

// One probe more that searched, with its counts added.
#[tactic(auto, unfolding(probes::specs::State::evaluated_more))]
pub(crate) fn evaluated_more(stats: SmallestStats, search: SearchStats) -> SmallestStats
    requires radii_reused_bound { stats.radii_evaluated + stats.radii_reused < 2 ^ 32 }
    requires search_bound { stats_weight stats.searched + stats_weight search ≤ 2 ^ 31 }
    ensures { result ≡ evaluated_more stats search }
{
    SmallestStats {
        radii_evaluated: stats.radii_evaluated + 1,
        radii_reused: stats.radii_reused,
        searched: stats.searched + search,
    }
}

// Before the first probe. Until a radius reaches, what is found is cell (0, 0) with the total: the answer where all fall short.
#[tactic(auto, unfolding(probes::specs::State::run_begun, tally::specs::Counts::no_stats, candidates::specs::Candidate::north_west))]
pub fn begun(total: u64) -> RunState
    ensures { result ≡ run_begun total }
{
    let stats = SmallestStats {
        radii_evaluated: 0,
        radii_reused: 0,
        searched: SearchStats::of(0, 0, 0, 0, 0),
    };
    let north_west = Cell {
        row: Row(0),
        col: Col(0),
    };
    RunState {
        reached: false,
        found: Candidate::at(north_west, total),
        short: None,
        ambiguity: None,
        stats,
    }
}

// After a probe that found a centre; the counts are those after it.
#[tactic(auto, unfolding(probes::specs::State::noted))]
pub(crate) fn noted(
    aim: Aim,
    state: RunState,
    km: RadiusKm,
    centre: Candidate,
    stats: SmallestStats,
) -> RunState
    requires population_bound { centre.population ≤ 2 ^ 53 }
    requires ambiguity_bound { radii_of state.ambiguity + 1 < 2 ^ 32 }
    ensures { result ≡ noted aim.target.persons aim.slack state km.0 centre stats }
{
    let persons = aim.target.persons;
    let reached = share::reaches(persons, centre);
    let within = share::within_slack(persons, aim.slack, centre);
    RunState {
        reached,
        found: found_after(reached, centre, state.found),
        short: short_after(reached, state.short, km, centre.population),
        ambiguity: ambiguity_after(within, state.ambiguity, km),
        stats,
    }
}
