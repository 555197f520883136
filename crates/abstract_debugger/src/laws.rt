//! Laws of replays and transcripts. Each is the contract of a function that does nothing; `specs/Laws.antt` has the statements.

ghost use Rattle.abstract_debugger.specs.Laws.{ChangesMayWait, CommandsAreQuiet, CommandsSpeakInOrder, CutBoards, CutLinesAreAFront, EachNoteIsRight};
ghost use Rattle.abstract_debugger.specs.Laws.{FirstMatchHolds, FrozenMayWait, FrozenStays, LinesGrow, OnlyOpenOnesGrow, PastsAreUndebugged, QuietBoards};
ghost use Rattle.abstract_debugger.specs.Laws.{FreshBoardsAreUnmasked, ReplaysKeepUnmasked, ResetIsFresh, SessionsSayQuietly, Transparent, TurnsKeepOn};

/// Memory and every hart's core end as those of a machine that nobody debugs, whatever the plan, the journal and the end, over each board on which
/// no step masks interrupts. No plan leaves a step that does, and a board that no debugger has touched has none.
pub fn transparent()
    ensures machines { Transparent }
    ensures unmasked { ReplaysKeepUnmasked }
    ensures fresh { FreshBoardsAreUnmasked }
{}

/// The machine that lives through a past is the undebugged run of the past's own entries.
pub fn pasts_are_undebugged()
    ensures { PastsAreUndebugged }
{}

/// First match holds of the trace of every script within its ranges, whatever the journal and the end; so each note of it is right over
/// what stands before it.
pub fn first_match()
    ensures holds { FirstMatchHolds }
    ensures each { EachNoteIsRight }
{}

/// A reset leaves a hart as no debugger has touched it.
pub fn reset_is_fresh()
    ensures { ResetIsFresh }
{}

/// A replay only adds lines.
pub fn lines_grow()
    ensures { LinesGrow }
{}

/// What is printed along a journal that was cut is the front of what is printed along any longer one.
pub fn cut_lines()
    ensures front { CutLinesAreAFront }
    ensures whole { OnlyOpenOnesGrow }
{}

/// The lines of a script's first commands are the front of its lines, along the same journal.
pub fn commands_speak_in_order()
    ensures { CommandsSpeakInOrder }
{}

/// Turns alone lead no plan astray.
pub fn turns_keep_on()
    ensures { TurnsKeepOn }
{}

/// Turns pass a halted hart by that nobody asks to resume.
pub fn frozen_stays()
    ensures { FrozenStays }
{}

/// A change of such a hart may be made before some turns or behind them, and so may each change that a plan makes of it.
pub fn frozen_may_wait()
    ensures any { FrozenMayWait }
    ensures plans { ChangesMayWait }
{}

/// Behind a line nothing is changed up to the next point: where no line is written any more, the board is left to the turns.
pub fn quiet_boards()
    ensures boards { QuietBoards }
    ensures commands { CommandsAreQuiet }
    ensures sessions { SessionsSayQuietly }
{}

/// Where no point follows, a plan that changes one halted hart leaves all else to the turns: what holds of a session whose link failed.
pub fn cut_boards()
    ensures { CutBoards }
{}
