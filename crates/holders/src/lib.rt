// The table of holders of a list of sets.
#![tactic(auto)]

pub mod table;
