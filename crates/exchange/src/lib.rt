// What all boards tell each other in a round.
#![tactic(auto)]

pub mod senders;
