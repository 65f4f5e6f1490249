// Reading a sheet: it is judged whole, line by line.
#![tactic(auto)]

pub mod reading;
