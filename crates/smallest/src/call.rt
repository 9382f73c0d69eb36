// The smallest-radius call: it puts its questions, fills the sums, runs, and answers from where the run has ended.
ghost use Rattle.std.specs.Prelude.{◌≡◌};
ghost use Rattle.grid.specs.Answer.{first_no, decide};
ghost use Rattle.grid.specs.Refusal.{answer_of};
ghost use Rattle.grid.specs.Map.{map_lent};
ghost use Rattle.levels.specs.State.{summed_lent};
ghost use Rattle.most_populous.specs.Call.{buffers};
ghost use Rattle.search_rules.specs.State.{SameLengths};
ghost use Rattle.probes.specs.Smallest.{smallest};
ghost use Rattle.smallest_rules.specs.Call.{smallest_questions, smallest_gave, smallest_call};
ghost use Rattle.smallest.specs.Requires.{CanSettle};
ghost use Rattle.smallest_rules.specs.State.{IsSettled};

use grid::{Map, Refusal};
use ledger::Ledger;
use levels::SummedMap;
use probes::Smallest;
use search_rules::LevelBuffers;
use share::Aim;
use spacing::Spacing;
use table::SummedTable;

// The smallest radius of a map whose questions are answered and whose sums are filled.
fn settle(
    map: &SummedMap<'_>,
    buffers: &mut LevelBuffers<'_>,
    share: f64,
    spacing: Spacing,
    ledger: &mut Ledger,
) -> Smallest
    requires { CanSettle map.now.globe.grid buffers.old ledger.old }
    ensures lengths { SameLengths buffers.old buffers.new }
    ensures settled { IsSettled
        (smallest (summed_lent map.now) spacing share ledger.old)
        result ledger.new }
{
    let grid = map.globe.grid;
    let table = table::table_of(grid, map.sums);
    let summed = SummedTable { table };
    let total = summed.whole();
    let target = share::target_of(share, total);
    let slack = share::predicate_slack_persons(grid, target.total);
    let aim = Aim {
        target,
        slack,
        total,
    };
    let end = run::run(map, buffers, spacing, aim, ledger);
    run_end::conclude(&map.globe, aim, end)
}

// The first question of the call that is answered no.
fn smallest_asked(
    map: &Map<'_>,
    share: f64,
    spacing: Spacing,
    ledger: &Ledger,
    sums: &[u64],
    current: &[u64],
    following: &[u64],
) -> Result<(), Refusal>
    ensures { answer_of result ≡ decide (first_no (smallest_questions
        (map_lent map.now) spacing share ledger.now
        (buffers sums.now current.now following.now))) tt }
{
    map_questions::map_asked(map)?;
    let grid = map.globe.grid;
    if !most_populous::buffers_fit(grid, sums, current, following) {
        return Err(Refusal::Buffers);
    }
    smallest_rules::own_asked(grid, share, spacing, ledger)
}

// The smallest-radius call: the answer, or the first question that is answered no. A refusal leaves the ledger as it was lent. An accepted
// call fills the sums even where the ledger holds every probe, so that what it leaves does not hang on that.
pub fn smallest_radius(
    map: &Map<'_>,
    share: f64,
    spacing: Spacing,
    ledger: &mut Ledger,
    sums: &mut [u64],
    current: &mut [u64],
    following: &mut [u64],
) -> Result<Smallest, Refusal>
    ensures { smallest_gave result ledger.new sums.new current.new following.new ≡ smallest_call
        (map_lent map.now) spacing share ledger.old
        (buffers sums.old current.old following.old) }
{
    smallest_asked(map, share, spacing, ledger, sums, current, following)?;
    let globe = map.globe;
    sums_fill::fill_sums(globe.grid, map.counts, sums);
    let summed = SummedMap { globe, sums };
    let mut buffers = LevelBuffers { current, following };
    Ok(settle(&summed, &mut buffers, share, spacing, ledger))
}
