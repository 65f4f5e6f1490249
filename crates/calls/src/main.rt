// Makes the calls of a script on standard input, each on what the call before left, and tells after each its answer,
// the record, the output and the cells. tests/second/src/script.rs has the form of a script.
#![tactic(auto)]

use beginning::beginning::void;
use codec::value::{VALUE_SIZE, Value};
use damage::changing::change;
use making::making::call;
use protocol::records::Record;
use refusals::refusal::Refusal;
use saying::said::Answer;
use script::sizes::sizes_of;
use script::steps::{BLOCK, START, Step};
use std::io::{Read, Write};
use telling::reply::Reply;

// The cells of seven boards, and a surplus.
const CELLS: usize = 1957 + 11;
// The longest frame, and a surplus.
const OUT: usize = 120 * VALUE_SIZE + 8;
// Room for all that is told.
const REPLY: usize = 256 + OUT + CELLS * VALUE_SIZE;
// The longest script, in steps.
const STEPS: usize = 10000000;

// All that a step gets and leaves.
#[derive(Clone, Copy)]
struct State {
    rec: Record,
    cells: [Value; CELLS],
    out: [u8; OUT],
}

// A fresh start: a void record, cells of one value, output of one byte.
fn start(cell: Value, byte: u8) -> State {
    State {
        rec: void(),
        cells: [cell; CELLS],
        out: [byte; OUT],
    }
}

// A call or a change.
fn act(block: [u8; BLOCK], state: &mut State) -> Result<Answer, Refusal> {
    let step = Step::from(block);
    let sizes = sizes_of(block, CELLS, OUT);
    let bytes = &block[START..START + sizes.count];
    match step {
        Step::Start(cell, byte) => {
            *state = start(cell, byte);
            Ok(Answer::Nothing)
        }
        Step::Change(what) => {
            let cells = &mut state.cells[..];
            change(what, &mut state.rec, bytes, &mut cells[sizes.lent..]);
            Ok(Answer::Nothing)
        }
        Step::Call(what) => {
            let cells = &mut state.cells[..];
            let out = &mut state.out[..];
            call(
                what,
                &mut state.rec,
                bytes,
                &mut cells[..sizes.lent],
                &mut out[..sizes.room],
            )
        }
    }
}

// One step, and what is told of it.
fn take_step(block: [u8; BLOCK], state: &mut State, reply: &mut Reply<REPLY>) {
    let said = act(block, state);
    let sizes = sizes_of(block, CELLS, OUT);
    reply.append_told(said, &state.rec, &state.out, &state.cells[..sizes.shown]);
}

fn main(rt: HostRuntime) {
    let mut block = [0u8; BLOCK];
    let mut state = start(0, 0);
    for _ in 0..STEPS {
        // The input ends, also inside a block, or the read fails.
        if rt.stdin().read_exact(&mut block).is_err() {
            return;
        }
        let mut reply = Reply::new();
        take_step(block, &mut state, &mut reply);
        // What was told could not be written.
        if rt.stdout().write_all(reply.as_slice()).is_err() {
            return;
        }
    }
}
