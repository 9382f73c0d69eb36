// The probes of a smallest radius, the run that they make, and the fields of its answer. What they are stands in `specs/`; `run_state` carries a run
// from probe to probe, `run` goes through it.
#![tactic(auto)]

use candidates::Candidate;
use grid::RadiusKm;
use share::Target;
use tally::SearchStats;

// A short witness: a probe that fell short.
#[derive(Clone, Copy)]
pub struct Witness {
    pub km: RadiusKm,
    pub population: u64,
}

// The probes within the slack: their smallest and largest kilometre, and how many they are.
#[derive(Clone, Copy)]
pub struct Ambiguity {
    pub lowest_km: RadiusKm,
    pub highest_km: RadiusKm,
    pub radii: u32,
}

// How many radii were searched and how many the ledger held, and the counts of the searches.
#[derive(Clone, Copy)]
pub struct SmallestStats {
    pub radii_evaluated: u64,
    pub radii_reused: u64,
    pub searched: SearchStats,
}

// The smallest radius whose fullest circle reaches the target, with all that tells how sure it is. Its witness is the short probe right
// below it, if there was one.
#[derive(Clone, Copy)]
pub struct Smallest {
    pub radius_km: RadiusKm,
    pub centre: Candidate,
    pub target: Target,
    pub share_achieved: f64,
    pub short_below: Option<Witness>,
    pub covers_whole_grid: bool,
    pub predicate_slack_persons: f64,
    pub ambiguity: Option<Ambiguity>,
    pub tolerance_persons: f64,
    pub stats: SmallestStats,
}

// A run after some probes: whether the latest reached, what the lowest that reached found, the latest that fell short, the ambiguity and
// the counts. The ledger is large and stands beside it. A flag and no Option: found holds a candidate whether the latest reached or not.
#[derive(Clone, Copy)]
pub struct RunState {
    pub reached: bool,
    pub found: Candidate,
    pub short: Option<Witness>,
    pub ambiguity: Option<Ambiguity>,
    pub stats: SmallestStats,
}

// Where a run has ended: the lowest radius that reached, or the ceiling where all fell short, and what its answer is made of.
// A flag and no enum: a radius and a centre are there either way, and the answer has both. The bracket and the RunState themselves hold more,
// the bracket's high end and whether the latest probe reached, of which the definition of where a run ends knows nothing.
#[derive(Clone, Copy)]
pub struct RunEnd {
    pub radius_km: RadiusKm,
    pub reached: bool,
    pub centre: Candidate,
    pub short_below: Option<Witness>,
    pub ambiguity: Option<Ambiguity>,
    pub stats: SmallestStats,
}
