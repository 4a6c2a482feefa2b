// Arcs: definitions and theorems alone. See specs/Arcs.antt and proofs/.
#![tactic(auto)]
