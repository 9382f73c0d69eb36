// The run: probes from the first radius until the bracket is closed.
#![tactic(auto)]

ghost use Rattle.std.specs.Prelude.{◌≡◌};
ghost use Rattle.levels.specs.State.{summed_lent};
ghost use Rattle.probes.specs.Requires.{CanRun};
ghost use Rattle.probes.specs.State.{ran, ran_with};
ghost use Rattle.search_rules.specs.State.{SameLengths};

use climb::Bracket;
use ledger::Ledger;
use levels::SummedMap;
use probes::RunEnd;
use search_rules::LevelBuffers;
use share::Aim;
use spacing::Spacing;

// The run from a ledger with room for every probe: where it ends, and the lent ledger with every circle that it searched. The
// level buffers keep their lengths.
pub fn run(
    map: &SummedMap<'_>,
    buffers: &mut LevelBuffers<'_>,
    spacing: Spacing,
    aim: Aim,
    ledger: &mut Ledger,
) -> RunEnd
    requires { CanRun (summed_lent map.now) buffers.old aim ledger.old }
    ensures lengths { SameLengths buffers.old buffers.new }
    ensures ended { ran_with result ledger.new ≡ ran (summed_lent map.now) spacing aim.target.share ledger.old }
{
    let mut state = run_state::begun(aim.total);
    let mut bracket = Bracket::start();
    // Which radius comes next is known only from whether the one before reached: there is nothing to count by.
    while !bracket.closed() {
        let km = bracket.radius();
        match ledger_store::get(ledger, km) {
            Some(centre) => state = run_state::reused(aim, state, km, centre),
            None => {
                let found = search::search_at(map, buffers, km, spacing);
                ledger_store::put(ledger, run_state::entry_of(km, found));
                state = run_state::evaluated(aim, state, km, found);
            }
        }
        bracket = bracket.next(map.globe.grid, state.reached);
    }
    run_end::end_of(bracket, state)
}
