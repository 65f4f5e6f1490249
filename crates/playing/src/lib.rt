// Playing a sheet.
#![tactic(auto)]

pub mod playing;
