// The put call: an entry put into a ledger that passes the questions, a lent one or one by value.
#![tactic(auto)]

mod call;

pub use call::{put_entry, put_lent};
use grid::Refusal;
use ledger::Ledger;

// A put's answer beside the ledger after it.
#[derive(Clone, Copy)]
pub struct PutResult {
    pub answer: Result<(), Refusal>,
    pub ledger: Ledger,
}
