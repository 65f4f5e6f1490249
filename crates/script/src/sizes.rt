// What a block has of lengths.
ghost use Rattle.std.specs.Prelude.{◌≤◌};
ghost use Rattle.script.specs.Steps.{Within};

use crate::steps::{BLOCK, START};

#[derive(Clone, Copy, Debug, PartialEq, Eq)]
pub struct Sizes {
    // The cells that are lent, or the first cell that is changed.
    pub lent: usize,
    // The cells that are told.
    pub shown: usize,
    // The output that is lent.
    pub room: usize,
    // How many bytes its list has.
    pub count: usize,
}

// Two bytes as one number, at most so much.
fn number(bytes: [u8; 2], most: usize) -> usize
    ensures { result ≤ most }
{
    usize::from(u16::from_be_bytes(bytes)).min(most)
}

// The sizes of a block, where there are so many cells and so much output.
pub fn sizes_of(block: [u8; BLOCK], cells: usize, out: usize) -> Sizes
    ensures { Within result cells out 496 }
{
    Sizes {
        lent: number([block[8], block[9]], cells),
        shown: number([block[10], block[11]], cells),
        room: usize::from(block[12]).min(out),
        count: number([block[13], block[14]], BLOCK - START),
    }
}
