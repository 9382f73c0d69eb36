// The smallest-radius call: the smallest radius whose fullest circle reaches a share of the people, or a refusal.
#![tactic(auto)]

mod call;

pub use call::smallest_radius;
