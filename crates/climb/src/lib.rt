// The climb and the bisection over whole kilometres: which radius to probe next, told whether each reached.
//
// The climb takes 1, 2, 4 .. kilometres and last the one below the ceiling. It comes from below, since a search prunes well at small
// radii; at radii that take in most of the grid nearly all circles hold as many people, and hardly a block is pruned. The ceiling is
// not probed: there every circle is the whole grid, and its people are the total. The bisection starts one above the last radius that
// fell short, since that one and all below it are ruled out (at 0 if none fell short), and ends at the radius that reached.
#![tactic(auto, unfolding(crate::specs::State::bracket_start, crate::specs::State::bracket_closed, crate::specs::State::next_radius))]

mod next;

use grid::RadiusKm;

// The most radii that a climb and a bisection take, and so the places that a smallest radius asks for in its ledger.
pub const MOST_RADII: usize = 28;

// Every kilometre below low fell short. While none has reached, high is the next one to probe; afterwards it is the lowest that has.
// A flag and no enum: both kinds hold the same two numbers, and where a run ends low is read of either.
#[derive(Clone, Copy)]
pub struct Bracket {
    pub low: RadiusKm,
    pub high: RadiusKm,
    pub reached: bool,
}
