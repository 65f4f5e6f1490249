// Plans, the call that makes one, and the values of a plan.
#![tactic(auto)]

pub mod plan;
pub mod values;
