// The levels of a plan's tree.
#![tactic(auto)]

pub mod height;
