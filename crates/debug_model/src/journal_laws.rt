//! Laws of journals. Each is the contract of a function that does nothing; `specs/Journal.antt` has the statements.

ghost use Rattle.debug_model.specs.Journal.{PointsForgetDebugging, PointsKeepUnmasked};

/// Forgetting the debug parts, a point is one execution where it is an executed turn, and else nothing, unless a step masks interrupts.
/// No point leaves a step that does.
pub fn points_forget_debugging()
    ensures forgets { PointsForgetDebugging }
    ensures unmasked { PointsKeepUnmasked }
{}
