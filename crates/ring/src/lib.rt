// The ring of four cells of SPECIFICATION, section 9: definitions of its map and its job, and the nine marked facts, computed from the definitions.
#![tactic(auto)]
