// Request b: a plan with the default 0 gives what the base gave. Definitions and proofs only.
#![tactic(auto)]
