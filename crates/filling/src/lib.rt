// Filling a level where no frame is handed in: a silent board, the frames that are missing, and the board's own cells.
#![tactic(auto)]

pub mod filling;
