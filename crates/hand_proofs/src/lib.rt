// Rules for the proofs by hand, which walk a function's code statement by statement: all in proofs/. It has no code of its own.
#![tactic(auto)]
