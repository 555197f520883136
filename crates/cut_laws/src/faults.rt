//! What a session leaves of a told chip wherever a call of it failed. `specs/FaultLaws.antt` has the statements.

ghost use Rattle.cut_laws.specs.FaultLaws.{CommandsLeave, FaultsLeave, UndebuggedBut};
ghost use Rattle.cut_laws.specs.ScriptLaws.{LoadedAreUndebugged, ScriptsLeave};

/// By the call that failed: the machine is the replay's, but for x8, x9 and the register that was to be written. So it is of a command.
pub fn faults_leave()
    ensures calls { FaultsLeave }
    ensures commands { CommandsLeave }
{}

/// And but for these it is the machine that nobody debugs.
pub fn undebugged_but()
    ensures boards { UndebuggedBut }
    ensures loaded { LoadedAreUndebugged }
{}

/// So it is where a session of a script broke off over a chip as it was loaded, by the command that was under way.
pub fn scripts_leave()
    ensures { ScriptsLeave }
{}
