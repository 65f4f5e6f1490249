// A board's list: joining it, and reading it as a set.
#![tactic(auto)]

pub mod listing;
