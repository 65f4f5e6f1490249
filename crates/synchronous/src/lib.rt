// The synchronous session, board by board: what a board's cells hold as it hears all frames of a round, in any order, and closes it. There is no
// code.
#![tactic(auto)]
