//! What stepping over does for a session. Each is the contract of a function that does nothing; `specs/StepLaws.antt` has the statements.

ghost use Rattle.probe_trig.specs.StepLaws.{OtherStepsLead, SingleStepsAreOver, WholeStepsLead};

/// A whole step over the slots with a hit leads from its place in a plan to what follows a whole step.
pub fn whole_steps_lead()
    ensures { WholeStepsLead }
{}

/// A step that ended for another cause leads to what follows such a one.
pub fn other_steps_lead()
    ensures { OtherStepsLead }
{}

/// A single step of a halted hart none of whose slots has a hit is a step over its slots.
pub fn single_steps_are_over()
    ensures { SingleStepsAreOver }
{}
