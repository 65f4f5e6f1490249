// Rule G at a node.
#![tactic(auto)]

pub mod rule_g;
