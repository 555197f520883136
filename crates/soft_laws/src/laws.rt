//! Laws of software breakpoints. Each is the contract of a function that does nothing; `specs/Laws.antt` has the statements.

ghost use Rattle.soft_laws.specs.CallLaws.{BytesStay, CoveringStands, ReadsHide, UncoveringStands};
ghost use Rattle.soft_laws.specs.Laws.{ChipsAreUndebugged, LoweredSessionsSayQuietly, PatchesHide, SessionsHide, SoftFirstMatchHolds, SoftTransparent};

/// One turn of a chip whose memory has ebreaks patched in is the turn that a user sees over memory without them.
pub fn patches_hide()
    ensures { PatchesHide }
{}

/// For every script with software breakpoints, every journal and every end, over each board on which no step masks interrupts, the chip says what
/// the user sees and ends so, and its board is the user's under patches, of which none is left where the session ran to its end.
pub fn sessions_hide()
    ensures { SessionsHide }
{}

/// What a user sees of memory and of every hart's core is a machine that nobody debugs, whatever the plan, over each board on which no step masks
/// interrupts; so the chip's is too, where a covered word counts as its original.
pub fn soft_transparent()
    ensures seen { SoftTransparent }
    ensures chips { ChipsAreUndebugged }
{}

/// First match holds of what a user sees: no hart runs past an armed slot, nor executes at a covered word.
pub fn soft_first_match()
    ensures { SoftFirstMatchHolds }
{}

/// Where no line is written any more, the chip's board is left to the turns up to the next point.
pub fn soft_sessions_say_quietly()
    ensures { LoweredSessionsSayQuietly }
{}

/// What memory without patches answers to a read or a store is what the chip's memory answers, with the originals in place of the ebreaks.
pub fn reads_hide()
    ensures { ReadsHide }
{}

/// A chip's memory goes on holding bytes, and none goes, along every plan, journal and end.
pub fn bytes_stay()
    ensures { BytesStay }
{}

/// An Access that stores the remembered word of a covered address uncovers it in the plan, and one that stores an ebreak covers it.
pub fn patches_stand()
    ensures uncovering { UncoveringStands }
    ensures covering { CoveringStands }
{}
