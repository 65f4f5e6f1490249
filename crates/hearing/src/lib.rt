// A board hears another: a faulty one as the sheet says, any other by its frame.
#![tactic(auto)]

pub mod hearing;
