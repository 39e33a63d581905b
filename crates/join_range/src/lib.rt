// No code: the range of a join's figures stands in specs/ and proofs/.
#![tactic(auto)]
