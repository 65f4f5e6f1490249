// How many cells a level has, where it starts, and how many cells there are.
#![tactic(auto)]

pub mod levels;
