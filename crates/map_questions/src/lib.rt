// Questions 4 to 6, which a map is asked after its grid's, and the first refusal of a sheet and of a map.
#![tactic(auto)]

mod complete;
mod order;
mod refusals;

pub use complete::{counts_complete, sheet_complete};
pub use order::sheet_in_order;
pub use refusals::{map_asked, sheet_asked};
