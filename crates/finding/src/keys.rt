// A frame line's run, round, sender and receiver as one number, by which lines rise.
ghost use Rattle.std.specs.Prelude.{◌≡◌};
ghost use Rattle.hexadecimal.specs.Bytes.{byte_at};
ghost use Rattle.finding.specs.Frames.{key_of};

use hexadecimal::reading::byte_at;

// Four bytes as one number.
#[tactic(auto, unfolding(crate::specs::Frames::key_of))]
pub fn key(run: u8, round: u8, sender: u8, receiver: u8) -> usize
    ensures { result ≡ key_of run round sender receiver }
{
    u32::from_be_bytes([run, round, sender, receiver]) as usize
}

// The key of a frame line.
pub fn key_of(line: &[u8]) -> usize
    ensures { result ≡ key_of (byte_at line.now 0) (byte_at line.now 1) (byte_at line.now 2) (byte_at line.now 3) }
{
    let run = byte_at(line, 0);
    let round = byte_at(line, 1);
    let sender = byte_at(line, 2);
    let receiver = byte_at(line, 3);
    key(run, round, sender, receiver)
}
