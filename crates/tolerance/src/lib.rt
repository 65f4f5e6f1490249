// The test whether a set of boards is tolerated: which listed set holds it first.
#![tactic(auto)]

pub mod bytes;
pub mod structure;
