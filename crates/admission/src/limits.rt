// The limits of a list of sets.

// The most boards.
pub const BOARDS: u8 = 7;
// The most sets.
pub const SETS: usize = 32;
