//! Operations on two numbers of 64 bits, by the formats of the instructions that do them.
//!
//! `a` is the first source, or what lies in memory; `b` is the second source, the immediate or the number of bits.
//! A 32-bit operation reads the low halves of both, and its result is sign extended.

use crate::width::Width;

/// An operation of a computing instruction or of an atomic memory operation.
#[derive(Clone, Copy, Debug, PartialEq, Eq)]
pub enum AluOp {
    /// On a register and an immediate.
    Immediate(ImmediateOp),
    /// A shift by a constant.
    Shift(ShiftOp),
    /// A 32-bit shift by a constant.
    WordShift(WordShiftOp),
    /// On two registers.
    Register(RegisterOp),
    /// On memory and a register.
    Amo(AmoOp, Width),
}

/// RV64I, integer register-immediate instructions.
#[derive(Clone, Copy, Debug, PartialEq, Eq)]
pub enum ImmediateOp {
    /// a + b.
    Addi,
    /// 1 if a < b, signed, else 0.
    Slti,
    /// 1 if a < b, unsigned, else 0.
    Sltiu,
    /// a ^ b.
    Xori,
    /// a | b.
    Ori,
    /// a & b.
    Andi,
    /// 32-bit a + b.
    Addiw,
}

/// RV64I, shifts by a constant.
#[derive(Clone, Copy, Debug, PartialEq, Eq)]
pub enum ShiftOp {
    /// a shifted left.
    Slli,
    /// a shifted right, zeros in.
    Srli,
    /// a shifted right, sign in.
    Srai,
}

/// RV64I, shifts of 32 bits by a constant.
#[derive(Clone, Copy, Debug, PartialEq, Eq)]
pub enum WordShiftOp {
    /// 32-bit a shifted left.
    Slliw,
    /// 32-bit a shifted right, zeros in.
    Srliw,
    /// 32-bit a shifted right, sign in.
    Sraiw,
}

/// RV64I, integer register-register instructions; M, multiplication and division.
#[derive(Clone, Copy, Debug, PartialEq, Eq)]
pub enum RegisterOp {
    // RV64I.
    /// a + b.
    Add,
    /// a shifted left.
    Sll,
    /// 1 if a < b, signed, else 0.
    Slt,
    /// 1 if a < b, unsigned, else 0.
    Sltu,
    /// a ^ b.
    Xor,
    /// a shifted right, zeros in.
    Srl,
    /// a | b.
    Or,
    /// a & b.
    And,
    /// a - b.
    Sub,
    /// a shifted right, sign in.
    Sra,
    // M, multiplication and division.
    /// low half of a * b.
    Mul,
    /// high half of a * b, signed.
    Mulh,
    /// high half of signed a * unsigned b.
    Mulhsu,
    /// high half of a * b, unsigned.
    Mulhu,
    /// a / b, signed, rounded toward 0.
    Div,
    /// a / b, unsigned.
    Divu,
    /// a % b, signed, with the sign of a.
    Rem,
    /// a % b, unsigned.
    Remu,
    // RV64I, on 32 bits.
    /// 32-bit a + b.
    Addw,
    /// 32-bit a shifted left.
    Sllw,
    /// 32-bit a shifted right, zeros in.
    Srlw,
    /// 32-bit a - b.
    Subw,
    /// 32-bit a shifted right, sign in.
    Sraw,
    // M, on 32 bits.
    /// 32-bit a * b.
    Mulw,
    /// 32-bit a / b, signed, rounded toward 0.
    Divw,
    /// 32-bit a / b, unsigned.
    Divuw,
    /// 32-bit a % b, signed, with the sign of a.
    Remw,
    /// 32-bit a % b, unsigned.
    Remuw,
}

/// A, atomic memory operations, on four bytes or on eight: `a` is what lies in memory, sign extended.
#[derive(Clone, Copy, Debug, PartialEq, Eq)]
pub enum AmoOp {
    /// b.
    Amoswap,
    /// a + b.
    Amoadd,
    /// a ^ b.
    Amoxor,
    /// a & b.
    Amoand,
    /// a | b.
    Amoor,
    /// min(a, b), signed.
    Amomin,
    /// max(a, b), signed.
    Amomax,
    /// min(a, b), unsigned.
    Amominu,
    /// max(a, b), unsigned.
    Amomaxu,
}
