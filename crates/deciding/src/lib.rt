// Reading the decision.
#![tactic(auto)]

pub mod deciding;
