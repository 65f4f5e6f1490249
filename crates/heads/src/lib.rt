// The head of a sheet, read and judged at once.
#![tactic(auto)]

pub mod head;
