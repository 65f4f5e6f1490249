// Do the values of the children of a node explain one another: the test of both rules.
#![tactic(auto)]

pub mod explained;
