// The record of a board, and the answers of its calls. What each call does is defined in specs/.
#![tactic(auto)]

pub mod answers;
pub mod limits;
pub mod records;
