// No code: how many conjuncts an expression of an accepted sheet has stands in proofs/.
#![tactic(auto)]
