// The record of a board.
use codec::value::Value;
use plan::plan::Plan;
use schedule::rounds::{Round, Run};

// The rule by which a board was listed, with the level of the node: rule G, 003's FD1, and rule C, its FD2.
#[derive(Clone, Copy, Debug, PartialEq, Eq)]
pub enum Rule {
    G(u8),
    C(u8),
}

// What is kept of a board: nothing, or the run and the round in which it was listed, and the rule.
#[derive(Clone, Copy, Debug, PartialEq, Eq)]
pub enum Entry {
    Nothing,
    Listed(Run, Round, Rule),
}

#[derive(Clone, Copy, Debug, PartialEq, Eq)]
pub struct Slot {
    pub entry: Entry,
}

#[derive(Clone, Copy, Debug, PartialEq, Eq)]
pub struct Record {
    pub plan: Plan,
    // The board's own number.
    pub board: u8,
    // Where it stands.
    pub run: Run,
    pub round: Round,
    // Its list: an entry for each board that it has detected to be faulty.
    pub list: [Slot; 7],
    // The senders whose frame was taken this round.
    pub marks: u8,
    pub decided: bool,
    // 0 while it is not decided.
    pub decision: Value,
}
