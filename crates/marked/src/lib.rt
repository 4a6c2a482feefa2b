// Document 01's marked cases: a proved list alone. See proofs/Marked.antt.
#![tactic(auto)]
