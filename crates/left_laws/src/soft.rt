//! What each call of software breakpoints leaves of a told chip, by its own clauses. `specs/SoftLaws.antt` has the statements.

ghost use Rattle.left_laws.specs.SoftLaws.{CoverLeaves, PlantLeaves, PrepareLeaves, UncoverLeaves, UnplantLeaves};

/// To set a breakpoint loses nothing.
pub fn plant_leaves()
    ensures { PlantLeaves }
{}

/// Nor does taking it out.
pub fn unplant_leaves()
    ensures { UnplantLeaves }
{}

/// To lift it loses x8 and x9 where it breaks off.
pub fn uncover_leaves()
    ensures { UncoverLeaves }
{}

/// So does covering it again.
pub fn cover_leaves()
    ensures { CoverLeaves }
{}

/// To make every halted hart halt at an ebreak loses nothing.
pub fn prepare_leaves()
    ensures { PrepareLeaves }
{}
