//! Worked examples and laws of `dcsr` and the trigger registers, as contracts; `specs/DebugWordExamples.antt` has the statements.

ghost use Rattle.rv_model.specs.DebugWordExamples.{
  DcsrExamples,
  DcsrReadBack,
  ReleasesShown,
  TriggerReadBack,
  TriggerRegisters,
  TriggersDecoded,
  TriggersKept,
};

/// What `dcsr` shows of four harts, and what a write of all zeros and of all ones keeps.
pub fn dcsr_examples()
    ensures { DcsrExamples }
{}

/// What a word of `dcsr` holds is read back.
pub fn dcsr_read_back()
    ensures { DcsrReadBack }
{}

/// The triggers that a debugger arms, as it writes them.
pub fn triggers_decoded()
    ensures { TriggersDecoded }
{}

/// What a write of `tdata1` keeps, by its type.
pub fn triggers_kept()
    ensures { TriggersKept }
{}

/// What a word of `tdata1` holds is read back.
pub fn trigger_read_back()
    ensures { TriggerReadBack }
{}

/// A word of `tdata1` shows by which release it is to be read, and `tinfo` by which an address trigger is to be written.
pub fn releases_shown()
    ensures { ReleasesShown }
{}

/// The trigger registers after reset, and writes of three of them.
pub fn trigger_registers()
    ensures { TriggerRegisters }
{}
