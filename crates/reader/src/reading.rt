// Reading a sheet: it is judged whole, line by line.
ghost use Rattle.std.specs.Prelude.{◌≡◌};
ghost use Rattle.finding.specs.Places.{line_stop};
ghost use Rattle.reader.specs.Reading.{FirstRead, SheetRead};

use heads::head::read_head;
use hexadecimal::reading::is_text;
use judging_frames::lines::{RefusedLine, judge_frames};
use refusals::refusal::Refusal;
use sheet::head::Head;
use text::lines::line_end;

// A sheet that was read: its head, and its frame lines.
#[derive(Clone, Copy, Debug, PartialEq, Eq)]
pub struct Sheet<'a> {
    pub head: Head,
    pub frames: &'a [u8],
}

// The first line, by where it ends: 21, 22, then its head.
fn read_first(text: &[u8], end: usize) -> Result<Head, Refusal>
    requires { end ≡ line_stop text.now 0 }
    ensures { FirstRead text.now end result }
{
    if text.is_empty() {
        return Err(Refusal::BadHead);
    }
    let line = &text[..end];
    if end == text.len() || !is_text(line) {
        return Err(Refusal::BadText);
    }
    read_head(line)
}

// The whole sheet.
pub fn read_sheet(text: &[u8]) -> Result<Sheet<'_>, RefusedLine>
    ensures { SheetRead text.now result }
{
    let end = line_end(text, 0);
    let head = read_first(text, end).map_err(|why| RefusedLine { why, line: 1 })?;
    judge_frames(text, head.plan, head.faulty, end + 1)?;
    Ok(Sheet {
        head,
        frames: &text[end + 1..],
    })
}
