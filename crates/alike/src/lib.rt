// Plans that differ in their lists alone, are judged the same and tolerate the same sets: every call on the one is the call on the other.
// Definitions and proofs only.
#![tactic(auto)]
