// Sets of boards.
#![tactic(auto)]

pub mod boards;
pub mod choosing;
