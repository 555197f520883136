//! The law of what is sniffed of a chip, as the contract of a function that does nothing.

ghost use Rattle.chip_sniff.specs.Shown.{LinesTellOperations};

/// The lines of a stream and of a chip's answers tell the operations that its transport put in flight.
pub fn lines_tell_operations()
    ensures { LinesTellOperations }
{}
