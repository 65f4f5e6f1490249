// Resolving every node in place.
#![tactic(auto)]

pub mod resolving;
