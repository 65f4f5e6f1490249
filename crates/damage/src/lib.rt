// Changes of the record and the cells that no call makes.
#![tactic(auto)]

pub mod cells;
pub mod changing;
pub mod record;
