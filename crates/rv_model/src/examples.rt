//! Worked examples of the definitions, as contracts; `specs/Examples.antt` has the words, the programs and the results.

ghost use Rattle.rv_model.specs.AluCorners.{AluCorners};
ghost use Rattle.rv_model.specs.Examples.{
  CounterCounts,
  Divisions,
  InterruptExamples,
  ReservedWordsMeanNothing,
  ScFailsAfterStore,
  ScSucceedsAfterLr,
  TrapExamples,
  WritesKeepTheirBits,
};

/// Six words that look like instructions and are none.
pub fn reserved_words_mean_nothing()
    ensures { ReservedWordsMeanNothing }
{}

/// From reset, three instructions of a program that counts in x5 give x5 = 6; all else is as it was.
pub fn counter_counts()
    ensures { CounterCounts }
{}

/// A debugger's writes of pc and x0.
pub fn writes_keep_their_bits()
    ensures { WritesKeepTheirBits }
{}

/// Each class of operations at corner values.
pub fn alu_corners()
    ensures { AluCorners }
{}

/// Divisions by zero, and the overflowing one.
pub fn divisions()
    ensures { Divisions }
{}

/// An instruction for each kind of trap, and what the trap sets.
pub fn trap_examples()
    ensures { TrapExamples }
{}

/// The machine software interrupt in either mode of mtvec, and mip, which memory tells.
pub fn interrupt_examples()
    ensures { InterruptExamples }
{}

/// After another hart's store into the reserved bytes, sc stores nothing.
pub fn sc_fails_after_store()
    ensures { ScFailsAfterStore }
{}

/// Right after its own lr, sc stores.
pub fn sc_succeeds_after_lr()
    ensures { ScSucceedsAfterLr }
{}
