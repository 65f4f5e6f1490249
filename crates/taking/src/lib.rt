// Taking a frame on an open board: numbers 14 and 15, and storing it.
#![tactic(auto)]

mod later;
pub mod rounds;
