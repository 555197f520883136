//! Laws of the debug module's operations and commands; `specs/ModuleLaws.antt` has the statements.

ghost use Rattle.chip_laws.specs.ModuleLaws.{
  BusyModulesIgnoreDmcontrol,
  CommandsKeepOtherHarts,
  HaltsumShowsHaltedHarts,
  OnlyDmcontrolAsksHarts,
  PlainReadsChangeNothing,
  RunningHartsKeepNoResume,
  ServedHartsRest,
};

/// An operation other than a write of `dmcontrol` changes no hart and no memory.
pub fn only_dmcontrol_asks_harts()
    ensures { OnlyDmcontrolAsksHarts }
{}

/// A read changes nothing, but of `dmstatus`, the data words, the program buffer and the system bus.
pub fn plain_reads_change_nothing()
    ensures { PlainReadsChangeNothing }
{}

/// A micro step of a command changes at most the selected hart, and memory.
pub fn commands_keep_other_harts()
    ensures { CommandsKeepOtherHarts }
{}

/// Turns pass a hart by that a command may be under way for: it is halted, and no resume is asked of it.
pub fn served_harts_rest()
    ensures { ServedHartsRest }
{}

/// While a command is under way `dmcontrol` is ignored, but for a reset of the module.
///
/// Source: RISC-V Debug Specification 1.0, "Debug Module Control", dmactive; that a busy module ignores the rest is this project's choice.
pub fn busy_modules_ignore_dmcontrol()
    ensures { BusyModulesIgnoreDmcontrol }
{}

/// A resume that is asked of a running hart is not kept for later.
///
/// Source: RISC-V Debug Specification 1.0, "Run Control".
pub fn running_harts_keep_no_resume()
    ensures { RunningHartsKeepNoResume }
{}

/// Each bit of `haltsum0` shows whether the hart of that number is there and halted.
///
/// Source: RISC-V Debug Specification 1.0, "Halt Summary 0".
pub fn haltsum_shows_halted_harts()
    ensures { HaltsumShowsHaltedHarts }
{}
