// All frame lines of a sheet, judged in order.
#![tactic(auto)]

pub mod lines;
