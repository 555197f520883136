//! What each call on a halted hart's trigger slots leaves of a told chip, and each that steps over them, by its own clauses.
//! `specs/SlotLaws.antt` has the statements.

ghost use Rattle.left_laws.specs.SlotLaws.{ArmLeaves, DisarmLeaves, ForgetHitsLeaves, LetGoLeaves, SlotsLeaves, StepOverLeaves};

/// To read the slots loses nothing.
pub fn slots_leaves()
    ensures { SlotsLeaves }
{}

/// Nor does arming one.
pub fn arm_leaves()
    ensures { ArmLeaves }
{}

/// Nor freeing one.
pub fn disarm_leaves()
    ensures { DisarmLeaves }
{}

/// Nor forgetting their hits.
pub fn forget_hits_leaves()
    ensures { ForgetHitsLeaves }
{}

/// Nor stepping over those that have one.
pub fn step_over_leaves()
    ensures { StepOverLeaves }
{}

/// Nor letting the hart go.
pub fn let_go_leaves()
    ensures { LetGoLeaves }
{}
