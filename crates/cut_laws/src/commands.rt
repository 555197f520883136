//! What a session leaves of a told chip where a command failed. `specs/CommandLaws.antt` has the statements.

ghost use Rattle.cut_laws.specs.CommandLaws.{FirstLookCut, PlacesWrite};

/// Where the first Look of a command failed nothing is lost but the register that the command writes.
pub fn first_look_cut()
    ensures { FirstLookCut }
{}

/// And at the places behind it that commands come to, the plan writes no more than that register.
pub fn places_write()
    ensures { PlacesWrite }
{}
