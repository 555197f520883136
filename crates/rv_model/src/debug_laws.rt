//! Worked examples and laws of what Debug Mode reaches, as contracts; `specs/DebugLaws.antt` has the statements.

ghost use Rattle.rv_model.specs.DebugLaws.{
  DebugNeedsCsr,
  DebugRegisterExamples,
  DebugRegisterNumbers,
  ExceptionsChangeNothing,
  MemoryNeedsAccess,
  ProgramBufferExamples,
  WordsKeep,
  WritesKeep,
  WritesReadBack,
};

/// The numbers by which the code calls the debug and trigger registers, and what it writes into a slot that is to be free.
pub fn debug_register_numbers()
    ensures { DebugRegisterNumbers }
{}

/// Registers of a hart that reset has halted, by number, and writes that change nothing.
pub fn debug_register_examples()
    ensures { DebugRegisterExamples }
{}

/// Words of the program buffer, one or more of each sort.
pub fn program_buffer_examples()
    ensures { ProgramBufferExamples }
{}

/// A write of a register leaves the hart halted or running, its requests, the release that it follows, and what is true of every core.
pub fn writes_keep()
    ensures { WritesKeep }
{}

/// What a write of a register keeps is read back.
pub fn writes_read_back()
    ensures { WritesReadBack }
{}

/// An exception in the program buffer changes no register and no memory; nor does `ebreak`.
pub fn exceptions_change_nothing()
    ensures { ExceptionsChangeNothing }
{}

/// A word of the program buffer that is no access changes no memory.
pub fn memory_needs_access()
    ensures { MemoryNeedsAccess }
{}

/// Whatever a word of the program buffer is, the hart stays halted with its requests, and its core a core.
pub fn words_keep()
    ensures { WordsKeep }
{}

/// A word of the program buffer that is no CSR instruction leaves the debug part and dpc.
pub fn debug_needs_csr()
    ensures { DebugNeedsCsr }
{}
