// The limits of sheets and frames; their definitions stand in specs/Limits.
use codec::value::VALUE_SIZE;

// The longest sheet, in bytes.
pub const SHEET: usize = 65536;

// A printed line, in characters: board, decision, list, place, two digits a byte, and a newline.
pub const LINE: usize = 2 + 2 * VALUE_SIZE + 2 + 2 + 1;

// The output that playing needs: a line for each of seven boards.
pub const OUTPUT: usize = 7 * LINE;

// The cells of a board, at most: those for seven boards.
pub const PART: usize = 1957;

// The cells that playing needs: a part for each of seven boards.
pub const CELLS: usize = 7 * PART;

// The most nodes of a level.
pub const NODES: usize = 720;

// The most values of a frame, and room for their bytes and one more.
pub const VALUES: usize = 120;

pub const FRAME: usize = VALUES * VALUE_SIZE + 1;
