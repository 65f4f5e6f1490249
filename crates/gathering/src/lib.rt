// Gathering: the cells and the list as closing a round leaves them, before conversion.
#![tactic(auto)]

pub mod gathering;
