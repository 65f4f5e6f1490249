// Labels of the tree, their places, and the places of children.
#![tactic(auto)]

pub mod nodes;
pub mod outside;
