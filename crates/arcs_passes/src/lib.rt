// Both passes keep the arcs: theorems alone. See proofs/.
#![tactic(auto)]
