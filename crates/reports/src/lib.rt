// What is printed for the answer to playing a sheet: the lines written, or a refusal.
#![tactic(auto)]

pub mod reporting;
