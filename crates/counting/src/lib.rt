// Counting cells, for programs that test.
#![tactic(auto)]

pub mod counting;
