// What number 12 asks of the entries of a list.
#![tactic(auto)]

pub mod entries;
