// Storing a frame at the children of the nodes that it carries.
#![tactic(auto)]

pub mod storing;
