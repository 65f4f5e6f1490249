// The lines of a sheet, and what stands in a line.
ghost use Rattle.std.specs.Prelude.{◌≡◌, ◌-◌, eqb, length, get_or, drop};
ghost use Rattle.codec.specs.Codec.{current};
ghost use Rattle.sets.specs.Search.{first};
ghost use Rattle.text.specs.Text.{number_from};

use codec::value::Value;
use hexadecimal::reading::byte_at;

// Where the line that begins at `start` ends: its newline, or the end of the text; `start` where the text ends before it.
pub fn line_end(text: &[u8], start: usize) -> usize
    ensures { result ≡ first (λ i. eqb (get_or text.now i 0) 10) (length text.now - start) start }
{
    let rest = text.get(start..).unwrap_or(&[]);
    start + rest.iter().position(|&c| c == b'\n').unwrap_or(rest.len())
}

// The digits of a frame line's values: all after the first four bytes.
pub fn values_of(line: &[u8]) -> &[u8]
    ensures { result.now ≡ drop 8 line.now }
{
    line.get(8..).unwrap_or(&[])
}

// The number that stands from byte number k of the line's bytes on, as wide as a value; bytes past the line are 0, as its
// clause says, so no Option.
pub fn number_at(line: &[u8], k: usize) -> Value
    ensures { result ≡ number_from current line.now k }
{
    // Past the line; below, k + 1 fits.
    if line.len() <= k {
        return 0;
    }
    Value::from_be_bytes([byte_at(line, k), byte_at(line, k + 1)])
}
