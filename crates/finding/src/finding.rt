// Finding the line of a frame, in frame lines that are what is left of a sheet's text.
ghost use Rattle.std.specs.Prelude.{◌≡◌, ◌<◌, length};
ghost use Rattle.std.specs.Option.{IfSome, option_copied};
ghost use Rattle.sheet.specs.Playing.{find_frame};
ghost use Rattle.finding.specs.Places.{frame_found};
ghost use Rattle.finding.specs.Frames.{frames_in, key_of, Rising, skip_frames};

use crate::keys::{key, key_of};
use schedule::rounds::{Round, Run};
use text::lines::line_end;

// The frame lines from the first on whose key is `least` or above.
fn skip(frames: &[u8], least: usize) -> &[u8]
    ensures { frames_in result.now ≡ skip_frames least (frames_in frames.now) }
{
    let mut rest = frames;
    // By `while`: the step is a line, not 1, and a `for` would want an iterator of lines that is written nowhere else.
    while !rest.is_empty() {
        let end = line_end(rest, 0);
        if least <= key_of(&rest[..end]) {
            return rest;
        }
        rest = rest.get(end + 1..).unwrap_or(&[]);
    }
    rest
}

// The frame lines from the first on that is not before a round.
pub fn skip_to(frames: &[u8], run: Run, round: Round) -> &[u8]
    ensures { frames_in result.now ≡ skip_frames (key_of run.0 round.0 0 0) (frames_in frames.now) }
{
    skip(frames, key(run.0, round.0, 0, 0))
}

// The frame lines from the one for a run, a round, a sender and a receiver on, if there is one.
pub fn find_line(frames: &[u8], run: Run, round: Round, sender: u8, receiver: u8) -> Option<&[u8]>
    requires { Rising frames.now }
    ensures finds { frame_found (option_copied result) ≡ find_frame run round sender receiver (frames_in frames.now) }
    ensures within { IfSome result (λ rest. 0 < length rest.now) }
{
    let wanted = key(run.0, round.0, sender, receiver);
    let rest = skip(frames, wanted);
    if rest.is_empty() {
        return None;
    }
    let end = line_end(rest, 0);
    if key_of(&rest[..end]) == wanted {
        Some(rest)
    } else {
        None
    }
}
