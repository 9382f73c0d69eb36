// The put call: its questions in order, then the put; over a ledger that is lent, and by value.
ghost use Rattle.std.specs.Prelude.{◌≡◌};
ghost use Rattle.grid.specs.Answer.{first_no, decide};
ghost use Rattle.grid.specs.Refusal.{answer_of};
ghost use Rattle.put.specs.Call.{put_questions, put_call, put_gave};

use crate::PutResult;
use grid::{Grid, Refusal};
use ledger::{Entry, Ledger};

// The first of the questions 1 to 3, 11 and 12 that is answered no.
fn put_asked(grid: Grid, ledger: &Ledger, entry: Entry) -> Result<(), Refusal>
    ensures { answer_of result ≡ decide (first_no (put_questions grid ledger.now entry)) tt }
{
    grid_questions::grid_asked(grid)?;
    if !ledger_questions::ledger_in_order(grid, ledger) {
        return Err(Refusal::LedgerOrder);
    }
    if !ledger_questions::entry_in_bounds(grid, entry) {
        return Err(Refusal::LedgerOrder);
    }
    if !ledger_questions::place_for(ledger, entry.km) {
        return Err(Refusal::Places);
    }
    Ok(())
}

// The put, into the ledger that is lent; a refusal leaves it.
pub fn put_lent(ledger: &mut Ledger, grid: Grid, entry: Entry) -> Result<(), Refusal>
    ensures { put_gave result ledger.new ≡ put_call grid ledger.old entry }
{
    put_asked(grid, ledger, entry)?;
    ledger_store::put(ledger, entry);
    Ok(())
}

// The put by value, for whoever lends nothing: a refusal gives the ledger back as it came.
pub fn put_entry(grid: Grid, ledger: Ledger, entry: Entry) -> PutResult
    ensures { put_gave result.answer result.ledger ≡ put_call grid ledger entry }
{
    let mut held = ledger;
    let answer = put_lent(&mut held, grid, entry);
    PutResult {
        answer,
        ledger: held,
    }
}
