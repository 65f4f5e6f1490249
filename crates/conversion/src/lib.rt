// Converting: every node is resolved, then rule C over what the nodes resolved to.
#![tactic(auto)]

pub mod converting;
