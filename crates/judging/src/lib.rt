// What the calls of a board judge first.
#![tactic(auto)]

pub mod judging;
