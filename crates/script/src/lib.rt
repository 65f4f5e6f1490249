// Reading a script of calls, step by step.
#![tactic(auto)]

pub mod sizes;
pub mod steps;
