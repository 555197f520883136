//! Worked examples, which the definitions compute; `specs/Examples.antt` has the values.

ghost use Rattle.chip_laws.specs.Examples.{CommandExamples, ModuleExamples, TransportExamples, WordExamples};

/// Words of the debug module's registers as a reset leaves them.
pub fn word_examples()
    ensures { WordExamples }
{}

/// The transport: `dtmcs`, and `dmi` captured while an operation is in flight.
pub fn transport_examples()
    ensures { TransportExamples }
{}

/// Looks, requests, and a refused command.
pub fn module_examples()
    ensures { ModuleExamples }
{}

/// Micro steps, late writes and errors of the system bus.
pub fn command_examples()
    ensures { CommandExamples }
{}
