// What the test programs over the C boundary share: the map that a list's lines set, and the boundary's calls on that map, by
// which a test goes the way that a studio's code goes.
#![tactic(auto)]

mod buffers;
mod calls;
mod map;
mod sizes;

pub use buffers::Buffers;
pub use calls::{circle, search, smallest};
pub use map::{Board, Map, none};
pub use sizes::{LEDGER_ENTRIES, LEDGER_WORDS};
