// Levels, rounds and runs of a plan.
#![tactic(auto)]

pub mod rounds;
