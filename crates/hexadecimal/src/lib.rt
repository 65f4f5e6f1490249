// Bytes as uppercase hexadecimal, two digits a byte: the definitions, and reading.
#![tactic(auto)]

pub mod reading;
