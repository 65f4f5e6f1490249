// Writing a frame.
#![tactic(auto)]

mod later;
pub mod sending;
