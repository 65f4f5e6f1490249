// What follows a round: the next round, the next run, or the decision.
#![tactic(auto)]

pub mod advancing;
