// Request g: a session in one-byte values and the same in two bytes. Definitions and proofs only.
#![tactic(auto)]
