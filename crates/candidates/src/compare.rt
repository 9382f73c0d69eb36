// Which of two candidates is better, and whether a bound prunes.
ghost use Rattle.std.specs.Prelude.{◌≡◌};
ghost use Rattle.candidates.specs.Candidate.{centre_of, better, better_held, prunes};

use crate::Candidate;
use grid::Cell;

fn centre_of(c: Candidate) -> Cell
    ensures { result ≡ centre_of c }
{
    Cell {
        row: c.row,
        col: c.col,
    }
}

// More people win; of as many, the first by row, then column, so that the winner does not hang on the order in which candidates are met.
#[tactic(auto, unfolding(crate::specs::Candidate::better, grid::specs::Grid::before))]
pub fn better(c: Candidate, d: Candidate) -> Candidate
    ensures { result ≡ better c d }
{
    let more = c.population < d.population;
    let tied = c.population == d.population;
    if more || tied && centre_of(d) < centre_of(c) {
        d
    } else {
        c
    }
}

// The better of what two hold, if either holds one.
#[tactic(auto, unfolding(crate::specs::Candidate::better_held))]
pub fn better_held(a: Option<Candidate>, b: Option<Candidate>) -> Option<Candidate>
    ensures { result ≡ better_held a b }
{
    match (a, b) {
        (Some(c), Some(d)) => Some(better(c, d)),
        _ => a.or(b),
    }
}

// Whether a block of this bound holds no circle that could be the better one. Before anything is held, none is pruned. An equal bound
// does not prune: a circle of its block may hold as many people and stand first.
#[tactic(auto, unfolding(crate::specs::Candidate::prunes))]
pub fn prunes(bound: u64, held: Option<Candidate>) -> bool
    ensures { result ≡ prunes bound held }
{
    held.is_some_and(|c| bound < c.population)
}
