// Which answers a request has changed: theorems alone. See specs/ and proofs/.
#![tactic(auto)]
