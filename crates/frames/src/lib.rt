// The frames of a round: which are due, and writing one.
#![tactic(auto)]

pub mod seat;
pub mod writing;
