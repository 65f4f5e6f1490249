// The nodes of a level as a list of numbers, made by one walk of the tree.
#![tactic(auto)]

pub mod nodes;
