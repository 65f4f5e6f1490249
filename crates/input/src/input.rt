// Reading standard input.
ghost use Rattle.std.specs.Prelude.{◌≡◌, ◌≤◌, length, IfOk};
ghost use Rattle.input.specs.Input.{arrival};

use std::io;
use std::io::{Read, Stdin};

// What a read says: an error, the end of the input by no bytes, or how many came.
#[tactic(auto, unfolding(crate::specs::Input::arrival))]
fn arrival_of(got: io::Result<usize>) -> io::Result<Option<usize>>
    ensures { result ≡ arrival got }
{
    match got? {
        0 => Ok(None),
        count => Ok(Some(count)),
    }
}

// Reads until the input ends, the text is full or a read fails; how many bytes came.
pub fn read_sheet(mut stdin: Stdin, text: &mut [u8]) -> io::Result<usize>
    ensures { IfOk result (λ count. count ≤ length text.new) }
{
    let mut done = 0;
    // No `for`: how many turns there are is not known.
    while done < text.len() {
        match arrival_of(stdin.read(&mut text[done..]))? {
            Some(count) => done += count,
            None => break,
        }
    }
    Ok(done)
}
