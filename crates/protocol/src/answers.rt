// The answers of a board's calls. specs/Answers.antt sets out what each says.
use crate::records::Record;
use refusals::refusal::Refusal;
use schedule::rounds::{Round, Run};

// What a closing leaves: the round that is open now, or that the board has decided.
#[derive(Clone, Copy, Debug, PartialEq, Eq)]
pub enum Closing {
    Next(Run, Round),
    Decided,
}

// A round that was closed by value: what it leaves, and the record.
#[derive(Clone, Copy, Debug, PartialEq, Eq)]
pub struct Closed {
    pub closing: Closing,
    pub rec: Record,
}

// A sheet that is turned down: why, and its line, 0 if it is no line's.
#[derive(Clone, Copy, Debug, PartialEq, Eq)]
pub struct Refused {
    pub why: Refusal,
    pub line: u16,
}
