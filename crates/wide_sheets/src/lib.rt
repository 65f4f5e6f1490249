// Request g: a sheet in one-byte values and the same sheet in two bytes. Definitions and proofs only.
#![tactic(auto)]
