//! The operands of each instruction format (unprivileged manual, "Base Instruction Formats").
//! Register numbers are below 32. Immediates are sign extended, modulo 2^64.

/// Two sources and a destination; also the atomic memory operations, where `rs1` is the address.
#[derive(Clone, Copy, Debug, PartialEq, Eq)]
pub struct RType {
    pub rd: u8,
    pub rs1: u8,
    pub rs2: u8,
}

/// A source, an immediate from -2048 to 2047 and a destination.
#[derive(Clone, Copy, Debug, PartialEq, Eq)]
pub struct IType {
    pub rd: u8,
    pub rs1: u8,
    pub imm: u64,
}

/// A store: the base `rs1`, the stored `rs2` and an offset from -2048 to 2047.
#[derive(Clone, Copy, Debug, PartialEq, Eq)]
pub struct SType {
    pub rs1: u8,
    pub rs2: u8,
    pub imm: u64,
}

/// A branch: two sources and an even offset from -4096 to 4094.
#[derive(Clone, Copy, Debug, PartialEq, Eq)]
pub struct BType {
    pub rs1: u8,
    pub rs2: u8,
    pub imm: u64,
}

/// A destination and a multiple of 4096 from -2^31 to 2^31 - 4096.
#[derive(Clone, Copy, Debug, PartialEq, Eq)]
pub struct UType {
    pub rd: u8,
    pub imm: u64,
}

/// A destination and an even offset from -2^20 to 2^20 - 2.
#[derive(Clone, Copy, Debug, PartialEq, Eq)]
pub struct JType {
    pub rd: u8,
    pub imm: u64,
}

/// A source, a destination and a number of bits, below 64, or below 32 in the word forms.
#[derive(Clone, Copy, Debug, PartialEq, Eq)]
pub struct ShiftType {
    pub rd: u8,
    pub rs1: u8,
    pub amount: u8,
}

/// `lr`: the address and the destination.
#[derive(Clone, Copy, Debug, PartialEq, Eq)]
pub struct LoadReservedType {
    pub rd: u8,
    pub rs1: u8,
}

/// A register of the 4,096 control and status registers, with a source and a destination.
#[derive(Clone, Copy, Debug, PartialEq, Eq)]
pub struct CsrType {
    pub rd: u8,
    pub rs1: u8,
    pub csr: u16,
}

/// The same with a number below 32 in the place of the source; it is not sign extended.
#[derive(Clone, Copy, Debug, PartialEq, Eq)]
pub struct CsrImmType {
    pub rd: u8,
    pub imm: u8,
    pub csr: u16,
}
