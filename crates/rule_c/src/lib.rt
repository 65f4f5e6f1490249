// Rule C.
#![tactic(auto)]

pub mod rule_c;
