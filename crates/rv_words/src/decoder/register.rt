//! Operations on two registers (unprivileged manual, "Integer Register-Register Operations" and "M" extension).

ghost use Rattle.std.specs.Prelude.{◌≡◌, IfSome};
ghost use Rattle.rv_model.specs.Rows.{meaning_in, register_rows, register_word_rows};
ghost use Rattle.rv_model.specs.OperandsFit.{OperandsFit};

use crate::code;
use crate::fields::r_operands;
use crate::mask::FUNCT7_MASK;
use rv_model::{Insn, RegisterOp};

/// Opcode OP, by funct3 and funct7.
pub fn register(word: u32) -> Option<Insn>
    ensures is { result ≡ meaning_in register_rows word }
    ensures fit { IfSome result OperandsFit }
{
    match word & FUNCT7_MASK {
        code::ADD => Some(Insn::Register(RegisterOp::Add, r_operands(word))),
        code::SLL => Some(Insn::Register(RegisterOp::Sll, r_operands(word))),
        code::SLT => Some(Insn::Register(RegisterOp::Slt, r_operands(word))),
        code::SLTU => Some(Insn::Register(RegisterOp::Sltu, r_operands(word))),
        code::XOR => Some(Insn::Register(RegisterOp::Xor, r_operands(word))),
        code::SRL => Some(Insn::Register(RegisterOp::Srl, r_operands(word))),
        code::OR => Some(Insn::Register(RegisterOp::Or, r_operands(word))),
        code::AND => Some(Insn::Register(RegisterOp::And, r_operands(word))),
        code::SUB => Some(Insn::Register(RegisterOp::Sub, r_operands(word))),
        code::SRA => Some(Insn::Register(RegisterOp::Sra, r_operands(word))),
        code::MUL => Some(Insn::Register(RegisterOp::Mul, r_operands(word))),
        code::MULH => Some(Insn::Register(RegisterOp::Mulh, r_operands(word))),
        code::MULHSU => Some(Insn::Register(RegisterOp::Mulhsu, r_operands(word))),
        code::MULHU => Some(Insn::Register(RegisterOp::Mulhu, r_operands(word))),
        code::DIV => Some(Insn::Register(RegisterOp::Div, r_operands(word))),
        code::DIVU => Some(Insn::Register(RegisterOp::Divu, r_operands(word))),
        code::REM => Some(Insn::Register(RegisterOp::Rem, r_operands(word))),
        code::REMU => Some(Insn::Register(RegisterOp::Remu, r_operands(word))),
        _ => None,
    }
}

/// Opcode OP-32, by funct3 and funct7.
pub fn register_word(word: u32) -> Option<Insn>
    ensures is { result ≡ meaning_in register_word_rows word }
    ensures fit { IfSome result OperandsFit }
{
    match word & FUNCT7_MASK {
        code::ADDW => Some(Insn::Register(RegisterOp::Addw, r_operands(word))),
        code::SLLW => Some(Insn::Register(RegisterOp::Sllw, r_operands(word))),
        code::SRLW => Some(Insn::Register(RegisterOp::Srlw, r_operands(word))),
        code::SUBW => Some(Insn::Register(RegisterOp::Subw, r_operands(word))),
        code::SRAW => Some(Insn::Register(RegisterOp::Sraw, r_operands(word))),
        code::MULW => Some(Insn::Register(RegisterOp::Mulw, r_operands(word))),
        code::DIVW => Some(Insn::Register(RegisterOp::Divw, r_operands(word))),
        code::DIVUW => Some(Insn::Register(RegisterOp::Divuw, r_operands(word))),
        code::REMW => Some(Insn::Register(RegisterOp::Remw, r_operands(word))),
        code::REMUW => Some(Insn::Register(RegisterOp::Remuw, r_operands(word))),
        _ => None,
    }
}
