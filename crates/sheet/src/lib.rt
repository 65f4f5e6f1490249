// The head of a sheet. What a sheet says, what is played and what is printed is defined in specs/.
#![tactic(auto)]

pub mod head;
