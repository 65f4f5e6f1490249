// The listed sets of a plan, and its table of holders.
#![tactic(auto)]

pub mod asking;
pub mod listed;
