// The cells as a beginning and the end of a run leave them.
#![tactic(auto)]

pub mod cells;
