// A value, and its bytes in a frame.
ghost use Rattle.std.specs.Prelude.{◌≡◌, ◌+◌, ◌*◌, ◌≤◌, length, get_or};
ghost use Rattle.codec.specs.Codec.{current, value_size, decode, written};

// What a cell holds.
pub type Value = u16;
// The bytes of a value.
pub const VALUE_SIZE: usize = 2;
// A cell without a value.
pub const BLANK: Value = 65535;

// How many values a frame has: none if its length is odd.
pub fn value_count(frame: &[u8]) -> usize
    ensures { result ≡ length (decode current frame.now) }
{
    if frame.len() % 2 == 0 {
        frame.len() / 2
    } else {
        0
    }
}

// Value number i of a frame; 0 past its values, and no Option: it is a total reading, and its clause says 0 there.
pub fn value_at(frame: &[u8], i: usize) -> Value
    ensures { result ≡ get_or (decode current frame.now) i 0 }
{
    if i < value_count(frame) {
        let at = 2 * i;
        Value::from_be_bytes([frame[at], frame[at + 1]])
    } else {
        0
    }
}

// Value number i is written.
pub fn put_value(out: &mut [u8], i: usize, v: Value)
    requires { value_size current * i + value_size current ≤ length out.old }
    ensures { out.new ≡ written current i v out.old }
{
    let at = 2 * i;
    out[at..at + VALUE_SIZE].copy_from_slice(&v.to_be_bytes());
}
