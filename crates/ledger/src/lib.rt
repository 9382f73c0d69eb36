// The ledger of best circles by whole kilometre: its types, and a fresh one. What it holds and what is asked of it stands in `specs/Ledger.antt`;
// `ledger_store` reads and changes it, `ledger_questions` judges it.
#![tactic(auto)]

ghost use Rattle.std.specs.Prelude.{◌≡◌};
ghost use Rattle.ledger.specs.State.{fresh_ledger};

use candidates::Candidate;
use grid::{Cell, Col, RadiusKm, Row};

// The best circle at a radius.
#[derive(Clone, Copy)]
pub struct Entry {
    pub km: RadiusKm,
    pub centre: Candidate,
}

// The first len places hold the entries; the others hold anything. An array with a length beside it, and no Vec: nothing is on the heap.
#[derive(Clone, Copy)]
pub struct Ledger {
    pub len: usize,
    pub places: [Entry; Ledger::CAPACITY],
}

impl Ledger {
    // The number of places.
    pub const CAPACITY: usize = 512;
}

// A ledger with no entries. An array needs words from the start, so its places are blank.
pub fn fresh() -> Ledger
    ensures { result ≡ fresh_ledger }
{
    let north_west = Cell {
        row: Row(0),
        col: Col(0),
    };
    let blank = Entry {
        km: RadiusKm(0),
        centre: Candidate::at(north_west, 0),
    };
    Ledger {
        len: 0,
        places: [blank; Ledger::CAPACITY],
    }
}
