// The bytes that a line's digits stand for.
ghost use Rattle.std.specs.Prelude.{◌≡◌};
ghost use Rattle.hexadecimal.specs.Hex.{digit};
ghost use Rattle.hexadecimal.specs.Bytes.{digit_says, is_text, byte_at};

// The value of an uppercase hexadecimal digit; none for another character.
#[tactic(auto, unfolding(crate::specs::Hex::digit, crate::specs::Bytes::digit_says))]
fn digit_of(c: u8) -> Option<u8>
    ensures { digit_says result ≡ digit c }
{
    match c {
        b'0'..=b'9' => Some(c - b'0'),
        b'A'..=b'F' => Some(c - b'A' + 10),
        _ => None,
    }
}

// Are these digits only, two for each byte?
pub fn is_text(line: &[u8]) -> bool
    ensures { result ≡ is_text line.now }
{
    line.len() % 2 == 0 && line.iter().all(|&c| digit_of(c).is_some())
}

// Byte number k of a line of digits; 0 where it has none, and no Option: it is a total reading, and its clause says 0 there.
#[tactic(auto, using(crate::proofs::Digits::reading), unfolding(crate::specs::Bytes::byte_at, crate::specs::Bytes::byte_of, crate::specs::Bytes::digit_says))]
pub fn byte_at(line: &[u8], k: usize) -> u8
    ensures { result ≡ byte_at line.now k }
{
    if line.len() / 2 <= k {
        return 0;
    }
    match (digit_of(line[2 * k]), digit_of(line[2 * k + 1])) {
        (Some(high), Some(low)) => high * 16 + low,
        _ => 0,
    }
}
