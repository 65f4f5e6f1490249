// Plays case 7 with one cell and then with one byte of output too few: writes each refusal and the output that was lent,
// then how many lent cells changed.
#![tactic(auto)]

use codec::value::Value;
use counting::counting::count_others;
use playing::playing::play;
use protocol::answers::Refused;
use protocol::limits::{CELLS, OUTPUT};
use reports::reporting::report;
use std::io;
use std::io::{Stdout, Write};

// What lent cells and lent output hold.
const CELL: Value = 43690;

const BYTE: u8 = 46;

// Writes a refusal and the output that it left.
fn show(mut stdout: Stdout, answer: Result<usize, Refused>, out: &[u8]) -> io::Result<()> {
    let mut refusal = [0u8; 9];
    report(answer, &mut refusal);
    stdout.write_all(&refusal)?;
    stdout.write_all(out)?;
    stdout.write_all(b"\n")
}

fn main(rt: HostRuntime) -> io::Result<()> {
    let text = b"040010000000000005040102040801\n010100010005\n010100020005\n010100030007\n";
    let mut cells = [CELL; CELLS];
    let mut few_cells = [CELL; CELLS - 1];
    let mut out = [BYTE; OUTPUT];
    let mut short_out = [BYTE; OUTPUT - 1];
    let few = play(text, &mut few_cells, &mut out);
    show(rt.stdout(), few, &out)?;
    let short = play(text, &mut cells, &mut short_out);
    show(rt.stdout(), short, &short_out)?;
    let changed = count_others(&cells, CELL) + count_others(&few_cells, CELL);
    // A 9 means nine or more.
    let digit = 48 + changed.min(9) as u8;
    rt.stdout().write_all(&[digit, 10])
}
