//! Loads and stores (unprivileged manual, "Load and Store Instructions").

ghost use Rattle.std.specs.Prelude.{◌≡◌, IfSome};
ghost use Rattle.rv_model.specs.Rows.{meaning_in, load_rows, store_rows};
ghost use Rattle.rv_model.specs.OperandsFit.{OperandsFit};

use crate::code;
use crate::fields::{i_operands, s_operands};
use crate::mask::FUNCT3_MASK;
use rv_model::{Insn, LoadOp, Size};

/// Opcode LOAD, by funct3.
pub fn load(word: u32) -> Option<Insn>
    ensures is { result ≡ meaning_in load_rows word }
    ensures fit { IfSome result OperandsFit }
{
    match word & FUNCT3_MASK {
        code::LB => Some(Insn::Load(LoadOp::Lb, i_operands(word))),
        code::LH => Some(Insn::Load(LoadOp::Lh, i_operands(word))),
        code::LW => Some(Insn::Load(LoadOp::Lw, i_operands(word))),
        code::LD => Some(Insn::Load(LoadOp::Ld, i_operands(word))),
        code::LBU => Some(Insn::Load(LoadOp::Lbu, i_operands(word))),
        code::LHU => Some(Insn::Load(LoadOp::Lhu, i_operands(word))),
        code::LWU => Some(Insn::Load(LoadOp::Lwu, i_operands(word))),
        _ => None,
    }
}

/// Opcode STORE, by funct3.
pub fn store(word: u32) -> Option<Insn>
    ensures is { result ≡ meaning_in store_rows word }
    ensures fit { IfSome result OperandsFit }
{
    match word & FUNCT3_MASK {
        code::SB => Some(Insn::Store(Size::B1, s_operands(word))),
        code::SH => Some(Insn::Store(Size::B2, s_operands(word))),
        code::SW => Some(Insn::Store(Size::B4, s_operands(word))),
        code::SD => Some(Insn::Store(Size::B8, s_operands(word))),
        _ => None,
    }
}
