// A board in flight: one record serves a whole session.
#![tactic(auto)]

pub mod lent;
