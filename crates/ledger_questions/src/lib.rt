// Questions 11 and 12, put to any ledger whatever.
#![tactic(auto)]

ghost use Rattle.std.specs.Prelude.{◌≡◌, ◌&&◌, leb};
ghost use Rattle.ledger.specs.Ledger.{entry_in_bounds, rising_from, all_in_bounds, ledger_in_order, places_free, place_for, get};

use candidates::Candidate;
use grid::{Cell, Grid, RadiusKm};
use ledger::{Entry, Ledger};

// The largest population, 2^53: up to it a binary64 counts exactly.
const MOST_POPULATION: u64 = 9007199254740992;

// Question 11 of one entry: kilometre below the ceiling, where the answer needs no search; cell on the grid, population at most 2^53.
#[tactic(auto, unfolding(ledger::specs::Ledger::entry_in_bounds))]
pub fn entry_in_bounds(grid: Grid, entry: Entry) -> bool
    ensures { result ≡ entry_in_bounds grid entry }
{
    let Candidate {
        row,
        col,
        population,
    } = entry.centre;
    entry.km.0 < grid::ceiling(grid)
        && grid::on_grid(grid, Cell { row, col })
        && population <= MOST_POPULATION
}

// Whether an entry is in bounds and its kilometre is not below the least that may follow.
fn follows(grid: Grid, least: u32, entry: Entry) -> bool
    ensures { result ≡ (leb least entry.km.0 && entry_in_bounds grid entry) }
{
    least <= entry.km.0 && entry_in_bounds(grid, entry)
}

// Whether kilometres rise strictly and each entry is in bounds.
fn entries_in_order(grid: Grid, entries: &[Entry]) -> bool
    ensures { result ≡ (rising_from 0 entries.now && all_in_bounds grid entries.now) }
{
    let mut least: u32 = 0;
    for entry in entries {
        if !follows(grid, least, *entry) {
            return false;
        }
        least = entry.km.0 + 1;
    }
    true
}

// Question 11: no more entries than places, kilometres strictly rising, each entry in bounds.
#[tactic(auto, using(ledger::proofs::Places::order_counted, ledger::proofs::Places::order_beyond), unfolding(ledger::specs::Ledger::entries))]
pub fn ledger_in_order(grid: Grid, ledger: &Ledger) -> bool
    ensures { result ≡ ledger_in_order grid ledger.now }
{
    ledger.len <= Ledger::CAPACITY && entries_in_order(grid, &ledger.places[..ledger.len])
}

// Question 12: n places are free. The sum of len and n may need more than 64 bits, so it is not formed.
#[tactic(auto, using(ledger::proofs::Places::same_leb), unfolding(ledger::specs::Ledger::places_free))]
pub fn places_free(ledger: &Ledger, n: usize) -> bool
    ensures { result ≡ places_free ledger.now n }
{
    n <= Ledger::CAPACITY && ledger.len <= Ledger::CAPACITY - n
}

// Question 12 of a put: an entry of the kilometre to replace, or a free place.
#[tactic(auto, unfolding(ledger::specs::Ledger::place_for))]
pub fn place_for(ledger: &Ledger, km: RadiusKm) -> bool
    ensures { result ≡ place_for ledger.now (get ledger.now km.0) }
{
    ledger_store::get(ledger, km).is_some() || places_free(ledger, 1)
}
