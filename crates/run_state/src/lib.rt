// The state of a run: how it begins, and what a probe adds to it, reused or searched.
#![tactic(auto)]

mod probe;
mod state;

pub use probe::{entry_of, evaluated, reused};
pub use state::begun;
