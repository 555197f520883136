//! What each call of run control leaves of a told chip, by its own clauses. `specs/RunLaws.antt` has the statements.

ghost use Rattle.left_laws.specs.RunLaws.{ConnectLeaves, HaltLeaves, LookLeaves, ResumeLeaves, RunOneLeaves};

/// A Look loses nothing.
pub fn look_leaves()
    ensures { LookLeaves }
{}

/// Nor does a halt.
pub fn halt_leaves()
    ensures { HaltLeaves }
{}

/// Nor a resume.
pub fn resume_leaves()
    ensures { ResumeLeaves }
{}

/// Nor the run of a single step.
pub fn run_one_leaves()
    ensures { RunOneLeaves }
{}

/// Nor the opening of a chip as it was loaded.
pub fn connect_leaves()
    ensures { ConnectLeaves }
{}
