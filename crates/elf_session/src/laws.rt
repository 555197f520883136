//! Laws of sessions that load a program. Each is the contract of a function that does nothing.

ghost use Rattle.elf_session.specs.Laws.{LoadingsKeepFirstMatch, LoadingsLaySegments, LoadingsSayQuietly};

/// First match holds of the trace of every session that loads a file and runs a script within its ranges behind it, whatever the journal and the end.
pub fn loadings_keep_first_match()
    ensures { LoadingsKeepFirstMatch }
{}

/// Behind a line of such a session nothing is changed up to the next point.
pub fn loadings_say_quietly()
    ensures { LoadingsSayQuietly }
{}

/// Where memory takes each element of a file and no turn comes between, what follows the loading's elements goes on over memory with the file's segments laid in
/// order over what was there (System V ABI, "Program Header").
pub fn loadings_lay_segments()
    ensures { LoadingsLaySegments }
{}
