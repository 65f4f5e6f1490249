// The agreement theorem over abstract boards, cells and lists: definitions and proofs only.
#![tactic(auto)]
