// What the calls answer, and the bytes that tell it.
#![tactic(auto)]

pub mod said;
