// Values, and how frames and sheets write them.
#![tactic(auto)]

pub mod value;
