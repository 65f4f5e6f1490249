// Planning: what is refused of sets, dealer, span, default and depth.
#![tactic(auto)]

pub mod planning;
pub mod settings;
