// A node as one number, and which nodes are internal.
#![tactic(auto)]

pub mod internal;
pub mod node;
