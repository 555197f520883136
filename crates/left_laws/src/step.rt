//! What a single step leaves of a told chip, by its own clauses. `specs/StepLaws.antt` has the statement.

ghost use Rattle.left_laws.specs.StepLaws.{StepLeaves};

/// A single step loses nothing.
pub fn step_leaves()
    ensures { StepLeaves }
{}
