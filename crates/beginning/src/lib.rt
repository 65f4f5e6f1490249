// Beginning a board.
#![tactic(auto)]

pub mod beginning;
