// The frame lines of a sheet, judged one by one.
#![tactic(auto)]

pub mod line;
