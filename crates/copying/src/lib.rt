// A board copies its own cells to its own children.
#![tactic(auto)]

pub mod copying;
