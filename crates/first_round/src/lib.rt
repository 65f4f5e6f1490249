// Taking the dealer's frame in round 1.
#![tactic(auto)]

pub mod word;
