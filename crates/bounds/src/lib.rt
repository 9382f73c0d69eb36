// The bound of a block by its wide circle.
#![tactic(auto, unfolding(crate::specs::Bound::open_bounds, grid::specs::Map::cosine_at, floats::specs::Binary::open_floats, lists::specs::Counted::max))]

mod bound;

pub use bound::{RADIAN, slack_km, slack_margin, wide_kernel, wide_km, widened_by};
