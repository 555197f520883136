//! Operations on a register and an immediate (unprivileged manual, "Integer Register-Immediate Instructions").

ghost use Rattle.std.specs.Prelude.{◌≡◌, IfSome};
ghost use Rattle.rv_model.specs.Rows.{meaning_in, immediate_rows, immediate_word_rows};
ghost use Rattle.rv_words.specs.RowsByMask.{rows_by_mask};
ghost use Rattle.rv_model.specs.OperandsFit.{OperandsFit};

use crate::code;
use crate::fields::{i_operands, shift_operands, shift_word_operands};
use crate::mask::{FUNCT3_MASK, FUNCT6_MASK, FUNCT7_MASK};
use rv_model::{ImmediateOp, Insn, ShiftOp, WordShiftOp};

/// Opcode OP-IMM, by funct3.
pub fn immediate(word: u32) -> Option<Insn>
    ensures is { result ≡ meaning_in immediate_rows word }
    ensures fit { IfSome result OperandsFit }
{
    match word & FUNCT3_MASK {
        code::ADDI => Some(Insn::Immediate(ImmediateOp::Addi, i_operands(word))),
        code::SLTI => Some(Insn::Immediate(ImmediateOp::Slti, i_operands(word))),
        code::SLTIU => Some(Insn::Immediate(ImmediateOp::Sltiu, i_operands(word))),
        code::XORI => Some(Insn::Immediate(ImmediateOp::Xori, i_operands(word))),
        code::ORI => Some(Insn::Immediate(ImmediateOp::Ori, i_operands(word))),
        code::ANDI => Some(Insn::Immediate(ImmediateOp::Andi, i_operands(word))),
        _ => shift(word),
    }
}

/// Shifts of 64 bits, by funct3 and bits 31:26.
fn shift(word: u32) -> Option<Insn>
    ensures is { result ≡ meaning_in (rows_by_mask FUNCT6_MASK immediate_rows) word }
    ensures fit { IfSome result OperandsFit }
{
    match word & FUNCT6_MASK {
        code::SLLI => Some(Insn::Shift(ShiftOp::Slli, shift_operands(word))),
        code::SRLI => Some(Insn::Shift(ShiftOp::Srli, shift_operands(word))),
        code::SRAI => Some(Insn::Shift(ShiftOp::Srai, shift_operands(word))),
        _ => None,
    }
}

/// Opcode OP-IMM-32, by funct3.
pub fn immediate_word(word: u32) -> Option<Insn>
    ensures is { result ≡ meaning_in immediate_word_rows word }
    ensures fit { IfSome result OperandsFit }
{
    match word & FUNCT3_MASK {
        code::ADDIW => Some(Insn::Immediate(ImmediateOp::Addiw, i_operands(word))),
        _ => shift_word(word),
    }
}

/// Shifts of 32 bits, by funct3 and funct7.
fn shift_word(word: u32) -> Option<Insn>
    ensures is { result ≡ meaning_in (rows_by_mask FUNCT7_MASK immediate_word_rows) word }
    ensures fit { IfSome result OperandsFit }
{
    match word & FUNCT7_MASK {
        code::SLLIW => Some(Insn::WordShift(WordShiftOp::Slliw, shift_word_operands(word))),
        code::SRLIW => Some(Insn::WordShift(WordShiftOp::Srliw, shift_word_operands(word))),
        code::SRAIW => Some(Insn::WordShift(WordShiftOp::Sraiw, shift_word_operands(word))),
        _ => None,
    }
}
