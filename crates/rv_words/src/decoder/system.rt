//! Fences, control and status registers, and privileged instructions (unprivileged manual, "Memory Ordering Instructions" and
//! "Zicsr"; privileged manual, "Machine-Mode Privileged Instructions").

ghost use Rattle.std.specs.Prelude.{◌≡◌, IfSome};
ghost use Rattle.rv_model.specs.Rows.{meaning_in, fence_rows, system_rows};
ghost use Rattle.rv_words.specs.RowsByMask.{rows_by_mask};
ghost use Rattle.rv_model.specs.OperandsFit.{OperandsFit};

use crate::code;
use crate::fields::{csr_imm_operands, csr_operands};
use crate::mask::FUNCT3_MASK;
use rv_model::{CsrChange, Insn};

/// Opcode MISC-MEM, by funct3.
pub fn fence(word: u32) -> Option<Insn>
    ensures is { result ≡ meaning_in fence_rows word }
    ensures fit { IfSome result OperandsFit }
{
    match word & FUNCT3_MASK {
        code::FENCE => Some(Insn::Fence),
        code::FENCE_I => Some(Insn::FenceI),
        _ => None,
    }
}

/// Opcode SYSTEM, by funct3.
pub fn system(word: u32) -> Option<Insn>
    ensures is { result ≡ meaning_in system_rows word }
    ensures fit { IfSome result OperandsFit }
{
    match word & FUNCT3_MASK {
        code::CSRRW => Some(Insn::Csr(CsrChange::Replace, csr_operands(word))),
        code::CSRRS => Some(Insn::Csr(CsrChange::Set, csr_operands(word))),
        code::CSRRC => Some(Insn::Csr(CsrChange::Clear, csr_operands(word))),
        code::CSRRWI => Some(Insn::CsrImmediate(CsrChange::Replace, csr_imm_operands(word))),
        code::CSRRSI => Some(Insn::CsrImmediate(CsrChange::Set, csr_imm_operands(word))),
        code::CSRRCI => Some(Insn::CsrImmediate(CsrChange::Clear, csr_imm_operands(word))),
        _ => privileged(word),
    }
}

/// Instructions without operands, by the whole word.
fn privileged(word: u32) -> Option<Insn>
    ensures is { result ≡ meaning_in (rows_by_mask u32.MAX system_rows) word }
    ensures fit { IfSome result OperandsFit }
{
    match word {
        code::ECALL => Some(Insn::Ecall),
        code::EBREAK => Some(Insn::Ebreak),
        code::MRET => Some(Insn::Mret),
        code::WFI => Some(Insn::Wfi),
        _ => None,
    }
}
