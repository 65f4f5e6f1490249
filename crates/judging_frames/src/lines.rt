// All frame lines of a sheet, judged in order.
ghost use Rattle.std.specs.Prelude.{length, drop};
ghost use Rattle.sheet.specs.Sheet.{lines};
ghost use Rattle.judging_frames.specs.Lines.{Judgeable, JudgedAs, judge_lines};

use finding::keys::key_of;
use frame_lines::line::judge_line;
use plan::plan::Plan;
use refusals::refusal::Refusal;
use text::lines::line_end;

// Why a sheet is turned down, and at which line.
#[derive(Clone, Copy, Debug, PartialEq, Eq)]
pub struct RefusedLine {
    pub why: Refusal,
    pub line: usize,
}

// The frame lines, which begin at `from`: 21 and 24.
pub fn judge_frames(text: &[u8], plan: Plan, faulty: u8, from: usize) -> Result<(), RefusedLine>
    requires { Judgeable plan from }
    ensures { JudgedAs (judge_lines plan faulty 0 2 (lines (drop from text.now))) (length text.now) result }
{
    let mut at = from;
    let mut line: usize = 2;
    let mut least: usize = 0;
    // By `while`: the step is a line, not 1, and a `for` would want an iterator of lines, with the number and the least key beside it.
    while at < text.len() {
        let end = line_end(text, at);
        let digits = &text[at..end];
        judge_line(digits, end < text.len(), plan, faulty, least).map_err(|why| RefusedLine {
            why,
            line,
        })?;
        least = key_of(digits) + 1;
        at = end + 1;
        line += 1;
    }
    Ok(())
}
