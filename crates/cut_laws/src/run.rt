//! What a session leaves of a told chip where a Look or a call of run control failed. `specs/RunCutLaws.antt` has the statements.

ghost use Rattle.cut_laws.specs.RunCutLaws.{HaltingCut, LookingCut, ResumingCut};

/// Where a Look failed nothing is lost but what the plan was to write behind it.
pub fn looks_cut()
    ensures { LookingCut }
{}

/// Nor where a halt failed, and behind a resume nothing.
pub fn run_cut()
    ensures halting { HaltingCut }
    ensures resuming { ResumingCut }
{}
