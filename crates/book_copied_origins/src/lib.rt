// The options search with the source's copy of the origins: a theorem alone. See specs/ and proofs/.
#![tactic(auto)]
