// No code: laws by which figures lie from 0 to 1.
#![tactic(auto)]
