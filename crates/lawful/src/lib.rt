// No code: what holds of the records of every accepted sheet stands in specs/ and proofs/.
#![tactic(auto)]
