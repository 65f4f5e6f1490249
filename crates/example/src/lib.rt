// A fair list of calls with a lying board: definitions and proofs only.
#![tactic(auto)]
