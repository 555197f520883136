//! Worked examples of sessions. Each is the contract of a function that does nothing; the files `specs/*Examples.antt` have the statements,
//! and `specs/ExampleCases.antt` what they are made of.

ghost use Rattle.abstract_debugger.specs.AccessExamples.{AccessesHappen};
ghost use Rattle.abstract_debugger.specs.LineExamples.{LinesRead};
ghost use Rattle.abstract_debugger.specs.LossExamples.{LossesHappen};
ghost use Rattle.abstract_debugger.specs.RefusalExamples.{RefusalsHappen};
ghost use Rattle.abstract_debugger.specs.StopExamples.{StopsHappen};

/// Single steps, breaks, a count, a watch and an ebreak, from reset.
pub fn stops_happen()
    ensures { StopsHappen }
{}

/// Slots, harts, a register and an address that a command refuses.
pub fn refusals_happen()
    ensures { RefusalsHappen }
{}

/// Looks in vain, and journals that end too soon or have a foreign point.
pub fn losses_happen()
    ensures { LossesHappen }
{}

/// Reads, writes and dumps, by what memory answers.
pub fn accesses_happen()
    ensures { AccessesHappen }
{}

/// The text of some lines.
pub fn lines_read()
    ensures { LinesRead }
{}
