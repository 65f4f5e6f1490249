// All boards on one stage: their records, and the parts of one buffer with their cells.
#![tactic(auto)]

pub mod acting;
