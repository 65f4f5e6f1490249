// Closing a round.
#![tactic(auto)]

pub mod closing;
