// A byte written as two digits.
#![tactic(auto)]

pub mod writing;
