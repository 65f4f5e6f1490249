// Rule G over the nodes of a level.
#![tactic(auto)]

pub mod detecting;
