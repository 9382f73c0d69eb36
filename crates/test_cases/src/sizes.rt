// Sizes that the test programs share.

// The places of a ledger, by `as`: a From is no const fn.
pub const LEDGER_ENTRIES: u64 = ledger::Ledger::CAPACITY as u64;

// The words of a ledger: the number of its entries, then four of each place.
pub const LEDGER_WORDS: usize = words::LEDGER_WORDS;
