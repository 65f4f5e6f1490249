// Request a: what an empty list of sets means, and that number 2 is no answer. Definitions and proofs only.
#![tactic(auto)]
