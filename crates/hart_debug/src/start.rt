/// How a hart comes out of reset (RISC-V Debug Specification 1.0, "Reset Control").
#[derive(Clone, Copy, Debug, PartialEq, Eq)]
pub enum Start {
    /// It runs.
    Running,
    /// It is halted before its first instruction.
    Halted,
}
