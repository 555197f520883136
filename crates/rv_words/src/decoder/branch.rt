//! Branches, and the jump to a register (unprivileged manual, "Control Transfer Instructions").

ghost use Rattle.std.specs.Prelude.{◌≡◌, IfSome};
ghost use Rattle.rv_model.specs.Rows.{meaning_in, branch_rows, jalr_rows};
ghost use Rattle.rv_model.specs.OperandsFit.{OperandsFit};

use crate::code;
use crate::fields::{b_operands, i_operands};
use crate::mask::FUNCT3_MASK;
use rv_model::{Condition, Insn};

/// Opcode BRANCH, by funct3.
pub fn branch(word: u32) -> Option<Insn>
    ensures is { result ≡ meaning_in branch_rows word }
    ensures fit { IfSome result OperandsFit }
{
    match word & FUNCT3_MASK {
        code::BEQ => Some(Insn::Branch(Condition::Equal, b_operands(word))),
        code::BNE => Some(Insn::Branch(Condition::Different, b_operands(word))),
        code::BLT => Some(Insn::Branch(Condition::Below, b_operands(word))),
        code::BGE => Some(Insn::Branch(Condition::NotBelow, b_operands(word))),
        code::BLTU => Some(Insn::Branch(Condition::BelowUnsigned, b_operands(word))),
        code::BGEU => Some(Insn::Branch(Condition::NotBelowUnsigned, b_operands(word))),
        _ => None,
    }
}

/// Opcode JALR, by funct3.
pub fn jalr(word: u32) -> Option<Insn>
    ensures is { result ≡ meaning_in jalr_rows word }
    ensures fit { IfSome result OperandsFit }
{
    match word & FUNCT3_MASK {
        code::JALR => Some(Insn::Jalr(i_operands(word))),
        _ => None,
    }
}
