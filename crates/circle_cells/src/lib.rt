// Circles: definitions and laws of the cells that a circle holds, and of their people.
#![tactic(auto)]
