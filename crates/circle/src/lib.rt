// The single-circle call: the people of a circle, or a refusal.
#![tactic(auto)]

mod call;

pub use call::circle;
