// Reading a frame of a sheet: its line is found, and its bytes are read.
#![tactic(auto)]

pub mod fetching;
