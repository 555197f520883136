/// What became of one instruction word of the program buffer (RISC-V Debug Specification 1.0, "Program Buffer").
#[derive(Clone, Copy, Debug, PartialEq, Eq)]
pub enum DebugDid {
    /// The next word follows.
    Next,
    /// It was an `ebreak`, which ends the command.
    Ebreak,
    /// It was an exception, which changed no register and no memory.
    Exception,
}
