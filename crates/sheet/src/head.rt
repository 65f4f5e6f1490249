// The head of a sheet, and where its parts stand, in bytes; n stands first. Their definitions stand in specs/Sheet.
use codec::value::{VALUE_SIZE, Value};
use plan::plan::Plan;

// The span, m.
pub const SPAN: usize = 1;

// The default.
pub const DEFAULT: usize = SPAN + VALUE_SIZE;

// The dealer, d.
pub const DEALER: usize = DEFAULT + VALUE_SIZE;

// The depth, b.
pub const DEPTH: usize = DEALER + 1;

// The dealer's value.
pub const WORD: usize = DEPTH + 1;

// The number of sets, s.
pub const COUNT: usize = WORD + VALUE_SIZE;

// The first of the s sets; the faulty boards, F, stand behind them.
pub const SETS: usize = COUNT + 1;

// The head of a sheet: the plan that it names, the faulty boards, and the dealer's value.
#[derive(Clone, Copy, Debug, PartialEq, Eq)]
pub struct Head {
    pub plan: Plan,
    // The faulty boards, F.
    pub faulty: u8,
    // The dealer's value.
    pub word: Value,
}
