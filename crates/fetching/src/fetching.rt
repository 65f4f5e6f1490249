// Reading a frame of a sheet.
ghost use Rattle.std.specs.Prelude.{◌≡◌, ◌/◌, length};
ghost use Rattle.std.proofs.Math.Option.{some};
ghost use Rattle.sheet.specs.Playing.{find_frame};
ghost use Rattle.hexadecimal.specs.Bytes.{bytes_from};
ghost use Rattle.finding.specs.Frames.{frames_in, Rising};
ghost use Rattle.fetching.specs.Fetched.{found_says, read_into};

use finding::finding::find_line;
use hexadecimal::reading::byte_at;
use schedule::rounds::{Round, Run};
use text::lines::{line_end, values_of};

// As many bytes as the buffer takes.
fn decode(digits: &[u8], bytes: &mut [u8]) -> usize
    ensures { record { count = some result; buffer = bytes.new } ≡ read_into (some (bytes_from digits.now 0 (length digits.now / 2))) bytes.old }
{
    let count = (digits.len() / 2).min(bytes.len());
    for i in 0..count {
        bytes[i] = byte_at(digits, i);
    }
    count
}

// The bytes of the frame for a run, a round, a sender and a receiver among a sheet's frame lines; how many were read, if there is a frame.
pub fn read_frame(
    frames: &[u8],
    run: Run,
    round: Round,
    sender: u8,
    receiver: u8,
    bytes: &mut [u8],
) -> Option<usize>
    requires { Rising frames.now }
    ensures { record { count = found_says result; buffer = bytes.new } ≡ read_into (find_frame run round sender receiver (frames_in frames.now)) bytes.old }
{
    let rest = find_line(frames, run, round, sender, receiver)?;
    let end = line_end(rest, 0);
    Some(decode(values_of(&rest[..end]), bytes))
}
