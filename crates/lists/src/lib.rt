// Finite sums, tests, folds and lists: definitions in specs/, laws for every size in proofs/. It has no code of its own.
#![tactic(auto)]
