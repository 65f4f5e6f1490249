// Does a plan have a round of a run?
#![tactic(auto)]

pub mod positions;
