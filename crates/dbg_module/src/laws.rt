//! Laws of a command that is under way: its hart stays as it needs it. Each is the contract of a function that does nothing;
//! `specs/Served.antt` has the statements.

ghost use Rattle.dbg_module.specs.Served.{BusStepsServe, CommandStepsServe, OperationsServe, ResetIsServed, TurnsServe};

/// A module that was just reset has no command under way, so nothing is needed of a hart.
pub fn reset_is_served()
    ensures { ResetIsServed }
{}

/// An operation lets no command start on a hart that does not stay halted, and takes none from its hart.
pub fn operations_serve()
    ensures { OperationsServe }
{}

/// A turn of any hart leaves the hart of a command as it is.
pub fn turns_serve()
    ensures { TurnsServe }
{}

/// A micro step leaves its hart halted, with no resume asked of it.
pub fn command_steps_serve()
    ensures { CommandStepsServe }
{}

/// An access of the bus leaves harts and commands.
pub fn bus_steps_serve()
    ensures { BusStepsServe }
{}
