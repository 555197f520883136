use crate::alu_op::{AmoOp, ImmediateOp, RegisterOp, ShiftOp, WordShiftOp};
use crate::condition::Condition;
use crate::csr_change::CsrChange;
use crate::load_op::LoadOp;
use crate::operands::{
    BType, CsrImmType, CsrType, IType, JType, LoadReservedType, RType, SType, ShiftType, UType,
};
use crate::size::Size;
use crate::width::Width;

/// An instruction of RV64IMA with Zicsr and Zifencei, of Machine Mode's `mret` and `wfi`, with its operands.
///
/// Instructions of one format that differ in their operation alone are one variant with the operation beside the operands.
/// Section names are those of the unprivileged manual.
#[derive(Clone, Copy, Debug, PartialEq, Eq)]
pub enum Insn {
    // RV64I, integer register-immediate instructions.
    /// `rd = imm`.
    Lui(UType),
    /// `rd = pc + imm`.
    Auipc(UType),
    // RV64I, unconditional jumps.
    /// `rd = pc + 4`; jump to pc + imm.
    Jal(JType),
    /// `rd = pc + 4`; jump to rs1 + imm with bit 0 cleared.
    Jalr(IType),
    // RV64I, conditional branches.
    /// Branch to pc + imm if rs1 and rs2 meet the condition.
    Branch(Condition, BType),
    // RV64I, load and store instructions.
    /// `rd` becomes what lies at rs1 + imm.
    Load(LoadOp, IType),
    /// So many bytes of rs2 go to rs1 + imm.
    Store(Size, SType),
    // RV64I, integer register-immediate instructions.
    /// `rd = rs1 op imm`.
    Immediate(ImmediateOp, IType),
    /// `rd = rs1`, shifted by a constant.
    Shift(ShiftOp, ShiftType),
    /// `rd` becomes 32-bit rs1, shifted by a constant.
    WordShift(WordShiftOp, ShiftType),
    // RV64I, integer register-register instructions; M, multiplication and division.
    /// `rd = rs1 op rs2`.
    Register(RegisterOp, RType),
    // A: load-reserved and store-conditional, atomic memory operations.
    /// `rd` becomes what lies at rs1, which is reserved.
    LoadReserved(Width, LoadReservedType),
    /// rs2 goes to rs1 if that is reserved; `rd = 0`, else 1.
    StoreConditional(Width, RType),
    /// `rd` becomes m, what lies at rs1; that becomes m op rs2.
    Amo(AmoOp, Width, RType),
    // Memory ordering instructions; Zifencei.
    /// Order memory: nothing here.
    Fence,
    /// Order fetches after stores: nothing here.
    FenceI,
    // Zicsr; environment call and breakpoint; privileged manual, trap return and wait for interrupt.
    /// `rd = csr`; the csr changes by rs1.
    Csr(CsrChange, CsrType),
    /// `rd = csr`; the csr changes by imm.
    CsrImmediate(CsrChange, CsrImmType),
    /// Trap to the environment.
    Ecall,
    /// Trap to the debugger.
    Ebreak,
    /// Return from a trap.
    Mret,
    /// Wait for an interrupt: nothing here.
    Wfi,
}
