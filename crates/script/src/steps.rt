// A script: blocks of one length, a call or a change each.
use codec::value::Value;
use protocol::records::{Entry, Rule};
use schedule::rounds::{Round, Run};
use settings::settings::Settings;

// The bytes of a block.
pub const BLOCK: usize = 512;
// Where its list of bytes starts: sets, a frame or cells.
pub const START: usize = 16;

// What a block says, beside its sizes and its list.
#[derive(Clone, Copy, Debug, PartialEq, Eq)]
pub enum Step {
    // A fresh start: a void record, cells of one value, output of one byte.
    Start(Value, u8),
    Call(Call),
    Change(Change),
}

// A call of one board.
#[derive(Clone, Copy, Debug, PartialEq, Eq)]
pub enum Call {
    // Planning for n boards, for the record.
    Plan(u8, Settings),
    // Beginning this board, on the record's plan.
    Begin(u8),
    // Handing in a frame of this sender.
    Receive(u8),
    Send,
    // Closing by value, and over a lent record.
    Close,
    CloseLent,
    Decide,
    // The dealer's frame, on the record's plan.
    Deal(Value),
}

// A change that no call makes.
#[derive(Clone, Copy, Debug, PartialEq, Eq)]
pub enum Change {
    // A field of the record, by its number.
    Field(u8, Value),
    // The entry for a board.
    Entry(u8, Entry),
    Cells,
}

// An entry by its numbers, the form of a script (tests/second/src/script.rs): nothing for 0, rule G for 1, rule C for others.
// A function and no `From`: an entry is not of this crate.
pub fn entry_of(kind: u8, run: u8, round: u8, level: u8) -> Entry {
    match kind {
        0 => Entry::Nothing,
        1 => Entry::Listed(Run(run), Round(round), Rule::G(level)),
        _ => Entry::Listed(Run(run), Round(round), Rule::C(level)),
    }
}

impl From<[u8; BLOCK]> for Step {
    // The first byte says which step, those after it are its numbers.
    fn from(block: [u8; BLOCK]) -> Step {
        let [kind, a, b, c, d, e, f, g, ..] = block;
        match kind {
            0 => Step::Start(u16::from_be_bytes([a, b]), c),
            1 => {
                let settings = Settings {
                    dealer: b,
                    span: u16::from_be_bytes([c, d]),
                    default: u16::from_be_bytes([e, f]),
                    depth: g,
                };
                Step::Call(Call::Plan(a, settings))
            }
            2 => Step::Call(Call::Begin(a)),
            3 => Step::Call(Call::Receive(a)),
            4 => Step::Call(Call::Send),
            5 => Step::Call(Call::Close),
            6 => Step::Call(Call::CloseLent),
            7 => Step::Call(Call::Decide),
            8 => Step::Call(Call::Deal(u16::from_be_bytes([a, b]))),
            9 => Step::Change(Change::Field(a, u16::from_be_bytes([b, c]))),
            10 => Step::Change(Change::Entry(a, entry_of(b, c, d, e))),
            _ => Step::Change(Change::Cells),
        }
    }
}
