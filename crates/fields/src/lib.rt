// The fields of a head.
#![tactic(auto)]

pub mod fields;
