// Request d: an entry is written once. Definitions and proofs only.
#![tactic(auto)]
