//! Laws of the stream's fold over the chip; `specs/StreamLaws.antt` has the statements.

ghost use Rattle.chip_laws.specs.StreamLaws.{EndedChipsTakeNothing, PiecesJoin, UnendedChipsRun};

/// Two pieces do to the chip, and are answered, as they are joined.
pub fn pieces_join()
    ensures { PiecesJoin }
{}

/// What has ended takes no byte and answers none.
pub fn ended_chips_take_nothing()
    ensures { EndedChipsTakeNothing }
{}

/// Bytes that leave a chip unended did to it what the fold without ends says.
pub fn unended_chips_run()
    ensures { UnendedChipsRun }
{}
