// The lines of a sheet.
#![tactic(auto)]

pub mod lines;
