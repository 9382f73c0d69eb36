// The search: levels until no block is left.
#![tactic(auto)]

mod descend;
mod radius;

pub use radius::search_at;
