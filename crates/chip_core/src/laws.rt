//! Laws of feeding. Each is the contract of a function that does nothing.

ghost use Rattle.chip_core.specs.Pieces.{EndedStaysEnded, PiecesJoin};
ghost use Rattle.chip_core.specs.Tells.{FeedsTell};

/// Feeding two pieces is feeding them joined, with places counted on where the first piece was taken whole.
pub fn pieces_join()
    ensures { PiecesJoin }
{}

/// A chip that has ended takes nothing more, answers nothing, and says what ended it at place 0 of each piece.
pub fn ended_stays_ended()
    ensures { EndedStaysEnded }
{}

/// The answer of a feed tells where the first end stands: the bytes before it are taken and end nothing.
pub fn feeds_tell()
    ensures { FeedsTell }
{}
