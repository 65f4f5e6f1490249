// The dealer's frame.
#![tactic(auto)]

pub mod dealing;
