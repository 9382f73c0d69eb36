// Candidates: a centre with the population of its circle, and which of two is better.
#![tactic(auto)]

mod compare;

ghost use Rattle.std.specs.Prelude.{◌≡◌};
ghost use Rattle.candidates.specs.Candidate.{candidate_of};

pub use compare::{better, better_held, prunes};
use grid::{Cell, Col, Row};

// A cell with the number of people in its circle.
#[derive(Clone, Copy)]
pub struct Candidate {
    pub row: Row,
    pub col: Col,
    pub population: u64,
}

impl Candidate {
    // A cell with the population of its circle: the one place where a candidate is made.
    pub fn at(cell: Cell, population: u64) -> Candidate
        ensures { result ≡ candidate_of cell population }
    {
        Candidate {
            row: cell.row,
            col: cell.col,
            population,
        }
    }
}
