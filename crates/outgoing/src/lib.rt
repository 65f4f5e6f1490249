// The frame of a board outside F.
#![tactic(auto)]

pub mod written;
