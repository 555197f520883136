//! Laws of a hart's turn. Each is the contract of a function that does nothing; `specs/TurnLaws.antt` has the statements.

ghost use Rattle.rv_model.specs.TurnLaws.{ResetBoardsAreBoards, ResetBoardsAreUnmasked, TurnForgetsDebugging, TurnKeepsBoard, TurnKeepsUnmasked};
ghost use Rattle.rv_model.specs.TurnLaws.{TurnLeavesOthers};

/// A turn of one hart leaves every other hart's registers and debug part alone.
pub fn turn_leaves_others()
    ensures { TurnLeavesOthers }
{}

/// What reset leaves is a board.
pub fn reset_boards_are_boards()
    ensures { ResetBoardsAreBoards }
{}

/// A turn leaves a board: every core is whole, every hart has its number and its slots.
pub fn turn_keeps_board()
    ensures { TurnKeepsBoard }
{}

/// No hart that has just been reset masks its interrupts in a step, and a turn leaves none that does.
pub fn turn_keeps_unmasked()
    ensures reset { ResetBoardsAreUnmasked }
    ensures turn { TurnKeepsUnmasked }
{}

/// Forgetting the debug parts, a turn is one execution where it is executed, and else nothing, unless a step masks interrupts.
pub fn turn_forgets_debugging()
    ensures { TurnForgetsDebugging }
{}
