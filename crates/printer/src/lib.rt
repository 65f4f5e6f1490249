// What the bench prints.
#![tactic(auto)]

pub mod printing;
