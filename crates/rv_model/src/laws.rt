//! Laws of the definitions. Each is the contract of a function that does nothing; `specs/Laws.antt` has the statements.

ghost use Rattle.rv_model.specs.Laws.{
  ExecutionKeeps,
  ExecutionLeavesOthers,
  InterruptsAreTaken,
  MaskedExecutionKeeps,
  RefusedStoresKeepMemory,
  RowsAreApart,
};

/// No word matches two rows of the instruction table.
pub fn rows_are_apart()
    ensures { RowsAreApart }
{}

/// A store is refused exactly where a load of its bytes is, and then changes no memory.
pub fn refused_stores_keep_memory()
    ensures { RefusedStoresKeepMemory }
{}

/// Whatever an instruction is: x0 never changes, pc stays a multiple of 4, another hart's reservation is kept or cleared,
/// and an instruction that traps changes no memory, and of its core what a trap sets alone.
pub fn execution_keeps()
    ensures { ExecutionKeeps }
{}

/// The same holds of execution without interrupts, which takes none.
pub fn masked_execution_keeps()
    ensures { MaskedExecutionKeeps }
{}

/// The machine software interrupt is taken exactly where it is enabled and pends, and leaves memory as it was.
pub fn interrupts_are_taken()
    ensures { InterruptsAreTaken }
{}

/// Execution by one hart leaves every other hart's core alone.
pub fn execution_leaves_others()
    ensures { ExecutionLeavesOthers }
{}
