// Rule C at a node: what its resolved children say.
#![tactic(auto)]

pub mod children;
