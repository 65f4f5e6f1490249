// Plays the sheet on standard input; prints the lines of the boards outside F, or the refusal.
#![tactic(auto)]

ghost use Rattle.std.specs.Prelude.{cond, [], ltb, length};
ghost use Rattle.codec.specs.Codec.{current};
ghost use Rattle.sheet.specs.Playing.{bench_prints};
ghost use Rattle.bench.specs.Printing.{Prints};

use codec::value::Value;
use input::input::read_sheet;
use plan::plan::Plan;
use playing::playing::play;
use protocol::limits::{CELLS, OUTPUT, SHEET};
use reports::reporting::report;
use std::io::Write;

// What is printed for a sheet: how many bytes of the output. Nothing if a refusal does not fit.
fn print_sheet(text: &[u8], cells: &mut [Value], out: &mut [u8]) -> usize
    ensures { Prints result out.new (cond (ltb (length out.old) 9) [] (bench_prints current text.now cells.old out.old)) }
{
    let answer = play(text, cells, out);
    report(answer, out)
}

fn main(rt: HostRuntime) {
    // One byte above the longest sheet, so that a longer one is told from it.
    let mut text = [0u8; SHEET + 1];
    let mut cells = [Plan::BLANK; CELLS];
    let mut out = [0u8; OUTPUT];
    let Ok(length) = read_sheet(rt.stdin(), &mut text) else {
        let _ = rt
            .stderr()
            .write_all(b"bench: a read from standard input failed\n");
        return;
    };
    let k = print_sheet(&text[..length], &mut cells, &mut out);
    if rt.stdout().write_all(&out[..k]).is_err() {
        let _ = rt
            .stderr()
            .write_all(b"bench: a write to standard output failed\n");
    }
}
