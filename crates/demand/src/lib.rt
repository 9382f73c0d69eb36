// Demand 3: its statement in specs/, its theorem in proofs/. It has no code of its own.
#![tactic(auto)]
