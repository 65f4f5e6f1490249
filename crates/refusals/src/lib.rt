// The refusals of all calls, with their numbers.
#![tactic(auto)]

pub mod numbers;
pub mod refusal;
