// Changes of the record.
use codec::value::Value;
use plan::plan::Plan;
use protocol::records::{Entry, Record, Slot};
use schedule::rounds::{Round, Run};
pub use script::steps::entry_of;

// Fields are numbers here and below, and no enums: the form of a script, which tests/second/src/script.rs writes.
// Another number in a plan: 0 n, 1 dealer, 2 span, 3 default, 4 depth, 5 count, from 32 on a slot of its sets.
// All but span and default take the low byte.
fn change_plan(plan: &mut Plan, field: u8, value: Value) {
    let [_, byte] = value.to_be_bytes();
    match field {
        0 => plan.n = byte,
        1 => plan.dealer = byte,
        2 => plan.span = value,
        3 => plan.default = value,
        4 => plan.depth = byte,
        5 => plan.count = byte,
        32.. => plan.sets[usize::from(field % 32)] = byte,
        _ => {}
    }
}

// Another number in a record: 0 board, 1 run, 2 round, 3 marks, 4 decided, 5 decision; from 128 on one of its plan.
// All but the decision, and a plan's span and default, take the low byte.
pub fn change_field(r: &mut Record, field: u8, value: Value) {
    let [_, byte] = value.to_be_bytes();
    match field {
        0 => r.board = byte,
        1 => r.run = Run(byte),
        2 => r.round = Round(byte),
        3 => r.marks = byte,
        4 => r.decided = byte == 1,
        5 => r.decision = value,
        128.. => change_plan(&mut r.plan, field - 128, value),
        _ => {}
    }
}

// Another entry for a board.
pub fn change_entry(r: &mut Record, board: u8, entry: Entry) {
    r.list[usize::from(board % 7)] = Slot { entry };
}
