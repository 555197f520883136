//! Laws of abstract commands; `specs/CommandLaws.antt` has the statements.

ghost use Rattle.chip_laws.specs.CommandLaws.{
  AutoexecStartsWhatIsKept,
  CmderrClearsByBits,
  CommandsAreSnapshots,
  SberrorClearsByBits,
  WritesWhileBusyAreLost,
};

/// A command under way does not see what is written to the program buffer or to `command` meanwhile.
///
/// Source: RISC-V Debug Specification 1.0, "Abstract Commands": what such a write does is left open; here it can't be told from the result.
pub fn commands_are_snapshots()
    ensures { CommandsAreSnapshots }
{}

/// What is written while a command is under way is lost: an access to a word sets cmderr 1, and any other write is noted for the command's end.
///
/// Source: RISC-V Debug Specification 1.0, "Abstract Control and Status", cmderr.
pub fn writes_while_busy_are_lost()
    ensures { WritesWhileBusyAreLost }
{}

/// An access to a word that `abstractauto` names starts the kept command, and one to any other word starts nothing.
///
/// Source: RISC-V Debug Specification 1.0, "Abstract Command Autoexec".
pub fn autoexec_starts_what_is_kept()
    ensures { AutoexecStartsWhatIsKept }
{}

/// A 1 that is written to a bit of cmderr clears that bit, and no other.
///
/// Source: RISC-V Debug Specification 1.0, "Abstract Control and Status", cmderr (R/W1C).
pub fn cmderr_clears_by_bits()
    ensures { CmderrClearsByBits }
{}

/// A 1 that is written to a bit of sberror clears that bit, and no other.
///
/// Source: RISC-V Debug Specification 1.0, "System Bus Access Control and Status", sberror (R/W1C).
pub fn sberror_clears_by_bits()
    ensures { SberrorClearsByBits }
{}
