//! Laws of what is sniffed. Each is the contract of a function that does nothing; `specs/Laws.antt` has the statements.

ghost use Rattle.wire_sniff.specs.Laws.{DataScansShowThemselves, DmiScansShowTheirOutcome, InstructionScansShowTheirCode, ResetsShowNothing};

/// The paths of a debugger show their scans: the bits of a data register and their answers, and the code of an instruction; a reset shows nothing.
pub fn paths_show_their_scans()
    ensures scans { DataScansShowThemselves }
    ensures instruction { InstructionScansShowTheirCode }
    ensures reset { ResetsShowNothing }
{}

/// A scan of dmi shows what came of it: by the status that was captured, the operation of the bits that stay.
pub fn dmi_scans_show_their_outcome()
    ensures { DmiScansShowTheirOutcome }
{}
