// Finding the line of a frame of a sheet.
#![tactic(auto)]

pub mod finding;
pub mod keys;
