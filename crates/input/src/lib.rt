// Reading standard input.
#![tactic(auto)]

pub mod input;
