//! What the calls of run control do for a session. Each is the contract of a function that does nothing; `specs/SessionLaws.antt` has
//! the statements.

ghost use Rattle.probe_run.specs.SessionLaws.{HaltsLead, ResumesLead, StepsLead};

/// A halt leads from its place in a plan to the next.
pub fn halts_lead()
    ensures { HaltsLead }
{}

/// So does a resume.
pub fn resumes_lead()
    ensures { ResumesLead }
{}

/// And the run of a single step, between the changes in front of it and behind it.
pub fn steps_lead()
    ensures { StepsLead }
{}
