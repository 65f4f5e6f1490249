// Making the calls of a script.
#![tactic(auto)]

pub mod making;
