// Admitting a list of sets.
#![tactic(auto)]

pub mod admitting;
pub mod limits;
