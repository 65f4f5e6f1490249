// Do three listed sets cover all boards?
#![tactic(auto)]

pub mod covering;
