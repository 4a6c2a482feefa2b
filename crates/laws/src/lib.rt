// Definitions and laws that every stage uses: an answer that may be a refusal, what is said of all numbers below n,
// truth of tests. There is no code; specs/, proofs/.
#![tactic(auto)]
