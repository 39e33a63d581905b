// No code: the range of a predicate's figures stands in specs/ and proofs/.
#![tactic(auto)]
