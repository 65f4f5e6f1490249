// All rounds of all runs, for all boards of a session.
#![tactic(auto)]

pub mod rounds;
