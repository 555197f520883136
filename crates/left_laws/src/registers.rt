//! What each call on a halted hart's registers leaves of a told chip, by its own clauses. `specs/RegisterLaws.antt` has the statements.

ghost use Rattle.left_laws.specs.RegisterLaws.{HeldRegLeaves, ReadDcsrLeaves, RegLeaves, RestoreLeaves, SaveLeaves, SetRegLeaves, StopLeaves};

/// A read of a register loses nothing.
pub fn reg_leaves()
    ensures any { RegLeaves }
    ensures held { HeldRegLeaves }
    ensures dcsr { ReadDcsrLeaves }
{}

/// A write loses that register.
pub fn set_reg_leaves()
    ensures { SetRegLeaves }
{}

/// To save x8 and x9 loses nothing.
pub fn save_leaves()
    ensures { SaveLeaves }
{}

/// To put them back loses them.
pub fn restore_leaves()
    ensures { RestoreLeaves }
{}

/// To ask where a hart stands loses nothing.
pub fn stop_leaves()
    ensures { StopLeaves }
{}
