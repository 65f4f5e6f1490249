// Which nodes are leaves, and what a leaf resolves to.
#![tactic(auto)]

pub mod leaf;
