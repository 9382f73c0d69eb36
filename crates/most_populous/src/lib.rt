// The search call: the best circle of a radius, or a refusal.
#![tactic(auto)]

mod call;

pub use call::{buffers_fit, most_populous};
