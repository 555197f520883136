//! What a session leaves of a told chip where a single step failed. `specs/StepCutLaws.antt` has the statements.

ghost use Rattle.cut_laws.specs.StepCutLaws.{SteppingCut, SteppingFromCut, SteppingOverCut};

/// Where a step failed nothing is lost but what the plan was to write behind it: of what a program sees the hart ran as the journal says.
pub fn steps_cut()
    ensures stepping_over { SteppingOverCut }
    ensures stepping { SteppingCut }
    ensures stepping_from { SteppingFromCut }
{}
