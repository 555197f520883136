/// An operation on the debug module interface (RISC-V Debug Specification 1.0, "Debug Module Interface Access", the field `op` of `dmi`).
#[derive(Clone, Copy, Debug, PartialEq, Eq)]
pub enum DmiOp {
    /// Reads the register at this address, below 2^7.
    Read(u8),
    /// Writes this word to the register at this address, below 2^7.
    Write(u8, u32),
}
