// What a probe adds to the state: the ledger's entry of the kilometre, or else a search.
ghost use Rattle.std.specs.Prelude.{◌≡◌};
ghost use Rattle.ledger.specs.Ledger.{entry};
ghost use Rattle.probes.specs.State.{reused_more, evaluated_more, noted};
ghost use Rattle.probes.specs.Requires.{CanNote, CanEvaluate};

use candidates::Candidate;
use grid::RadiusKm;
use ledger::Entry;
use probes::RunState;
use search_rules::MostPopulous;
use share::Aim;

// A probe that an entry of the ledger answers.
pub fn reused(aim: Aim, state: RunState, km: RadiusKm, centre: Candidate) -> RunState
    requires { CanNote state centre }
    ensures { result ≡ noted aim.target.persons aim.slack state km.0 centre (reused_more state.stats) }
{
    let stats = crate::state::reused_more(state.stats);
    crate::state::noted(aim, state, km, centre, stats)
}

// A probe that searched.
pub fn evaluated(aim: Aim, state: RunState, km: RadiusKm, found: MostPopulous) -> RunState
    requires { CanEvaluate state found }
    ensures { result ≡ noted aim.target.persons aim.slack state km.0 found.centre (evaluated_more state.stats found.tally.stats) }
{
    let stats = crate::state::evaluated_more(state.stats, found.tally.stats);
    crate::state::noted(aim, state, km, found.centre, stats)
}

// The entry by which the ledger keeps a search.
pub fn entry_of(km: RadiusKm, found: MostPopulous) -> Entry
    ensures { result ≡ entry km.0 found.centre }
{
    Entry {
        km,
        centre: found.centre,
    }
}
