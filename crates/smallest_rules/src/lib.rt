// The rules of the smallest-radius call: its own questions, and what it gives. They are definitions with their laws; `smallest` has the code.
#![tactic(auto)]

ghost use Rattle.std.specs.Prelude.{◌≡◌};
ghost use Rattle.grid.specs.Answer.{first_no, decide};
ghost use Rattle.grid.specs.Refusal.{answer_of};
ghost use Rattle.smallest_rules.specs.Call.{own_questions};

use climb::MOST_RADII;
use grid::{Grid, Refusal};
use ledger::Ledger;
use spacing::Spacing;

// The first of the questions 9 to 12 that is answered no.
#[tactic(auto, unfolding(crate::specs::Call::own_questions, grid::specs::Answer::first_no, grid::specs::Answer::decide))]
pub fn own_asked(grid: Grid, share: f64, spacing: Spacing, ledger: &Ledger) -> Result<(), Refusal>
    ensures { answer_of result ≡ decide (first_no (own_questions grid spacing share ledger.now)) tt }
{
    if !share::share_in_range(share) {
        return Err(Refusal::Share);
    }
    if !spacing::spacing_given(spacing) {
        return Err(Refusal::Spacing);
    }
    if !ledger_questions::ledger_in_order(grid, ledger) {
        return Err(Refusal::LedgerOrder);
    }
    if !ledger_questions::places_free(ledger, MOST_RADII) {
        return Err(Refusal::Places);
    }
    Ok(())
}
