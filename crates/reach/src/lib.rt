// The rows of a circle: how far it reaches in each, found from the centre row outward.
#![tactic(auto)]

mod outward;

pub use outward::{reach_by_halves, walk_north, walk_south, within};
