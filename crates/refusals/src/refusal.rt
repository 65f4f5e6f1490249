// Why a call is turned down. `refusal` in specs/Outcome.antt sets out the number of each.
#[derive(Clone, Copy, Debug, PartialEq, Eq)]
pub enum Refusal {
    // n is 0 or above 7.
    Boards,
    // Above 32 sets.
    TooManySets,
    // A set names board n or above.
    UnknownBoard,
    // Three sets cover all boards: the places of the first such triple.
    Covered(u8, u8, u8),
    // The dealer is not below n.
    Dealer,
    // The span is below 2.
    Span,
    // The depth is 1, 2, 3 or above 7.
    Depth,
    // The board's number is not below n.
    BoardNumber,
    // The board is the dealer.
    BoardIsDealer,
    // Too few cells.
    ShortCells,
    // A record that no call made.
    BadRecord,
    // The board has decided already.
    Decided,
    // No frame is due from this sender in this round.
    NotDue,
    // That sender's frame was taken this round.
    AlreadyTaken,
    // No frame is due from this board, or no other board keeps cells.
    NothingToSend,
    // The output is too short.
    ShortOutput,
    // The value is not below the span.
    BadValue,
    // The board has not decided.
    Undecided,
    // The sheet has above 65,536 bytes.
    LongSheet,
    // Another character, an odd digit count, or no final newline.
    BadText,
    // A head of the wrong length, or an empty sheet.
    BadHead,
    // The faulty boards are not a tolerated set.
    BadFaulty,
    // A frame line that no frame is due for, or out of order.
    BadFrame,
    // The default is not below the span.
    Default,
}
