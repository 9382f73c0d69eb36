// The C boundary: each call over numbers and slices. It returns 0, or the number of its refusal with nothing written. Numbers for
// refusals, flags and words stand here for Result, Option and structs, since the C interface has no others.
// The crate `jadurphen_c` exports the four under these names: a crate is a library or a static library, and the tests need the first.
#![tactic(auto)]

mod circle_call;
mod put_call;
mod search_call;
mod smallest_call;

pub use circle_call::jadurphen_circle;
pub use put_call::jadurphen_put;
pub use search_call::jadurphen_search;
pub use smallest_call::jadurphen_smallest;
