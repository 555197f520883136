/// Where a halted hart stands, and why it halted.
#[derive(Clone, Copy, Debug, PartialEq, Eq)]
pub struct Stop {
    /// The address of the instruction that is executed next.
    pub pc: u64,
    /// The cause that `dcsr` shows, from 0 to 7 (RISC-V Debug Specification 1.0, "Debug Control and Status").
    pub cause: u8,
}
