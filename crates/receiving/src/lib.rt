// Handing in a frame.
#![tactic(auto)]

pub mod receiving;
