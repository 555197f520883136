//! What it means that a call left a chip so. `specs/LeftLaws.antt` has the statements.

ghost use Rattle.left_laws.specs.LeftLaws.{BothAreLess, HaltedStay, JoinsBehindNothing, JoinsWhereHalted, NothingIsLess, NothingIsLost};
ghost use Rattle.left_laws.specs.LeftLaws.{OneCoreIsLost, PathsAreJournals, PathsAreUndebugged, ScratchForgets, ScratchIsLost, WipedForgets};

/// A path is the journal's where nothing else may be done; to a program it is executed instructions and what was stored, and it lets no halted hart
/// run that it may not ask.
pub fn paths()
    ensures journals { PathsAreJournals }
    ensures undebugged { PathsAreUndebugged }
    ensures halted { HaltedStay }
{}

/// Where nothing may be lost nothing is, and elsewhere one hart's registers alone: never memory, never another hart.
pub fn losses()
    ensures nothing { NothingIsLost }
    ensures core { OneCoreIsLost }
    ensures scratch { ScratchIsLost }
    ensures forgets { WipedForgets }
    ensures forgets_scratch { ScratchForgets }
{}

/// What one call left and what the next one did are what both did, where the hart whose registers are lost stands still.
pub fn joins()
    ensures less { NothingIsLess }
    ensures both { BothAreLess }
    ensures behind { JoinsBehindNothing }
    ensures halted { JoinsWhereHalted }
{}
