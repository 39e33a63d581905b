// No code: document 01's marked cases stand in specs/, and their proof in proofs/.
#![tactic(auto)]
