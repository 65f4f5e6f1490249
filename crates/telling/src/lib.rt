// What is told after each step of a script, as bytes.
#![tactic(auto)]

pub mod reply;
