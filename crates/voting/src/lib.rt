// What a board concludes at one node from what the node's children are worth.
#![tactic(auto)]

pub mod voting;
pub mod worth;
