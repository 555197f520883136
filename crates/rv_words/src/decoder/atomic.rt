//! Atomic instructions (unprivileged manual, "A" extension).

ghost use Rattle.std.specs.Prelude.{◌≡◌, IfSome};
ghost use Rattle.rv_model.specs.Rows.{meaning_in, atomic_rows};
ghost use Rattle.rv_words.specs.RowsByMask.{rows_by_mask};
ghost use Rattle.rv_model.specs.OperandsFit.{OperandsFit};

use crate::code;
use crate::fields::{load_reserved_operands, r_operands};
use crate::mask::{FUNCT5_MASK, FUNCT5_RS2_MASK};
use rv_model::{AmoOp, Insn, Width};

/// Opcode AMO, by funct3 and bits 31:27; in `lr` rs2 is 0.
pub fn atomic(word: u32) -> Option<Insn>
    ensures is { result ≡ meaning_in atomic_rows word }
    ensures fit { IfSome result OperandsFit }
{
    match word & FUNCT5_RS2_MASK {
        code::LR_W => Some(Insn::LoadReserved(Width::Word, load_reserved_operands(word))),
        code::LR_D => Some(Insn::LoadReserved(Width::DoubleWord, load_reserved_operands(word))),
        _ => store_or_operation(word),
    }
}

/// All but `lr`, by funct3 and bits 31:27.
fn store_or_operation(word: u32) -> Option<Insn>
    ensures is { result ≡ meaning_in (rows_by_mask FUNCT5_MASK atomic_rows) word }
    ensures fit { IfSome result OperandsFit }
{
    match word & FUNCT5_MASK {
        code::SC_W => Some(Insn::StoreConditional(Width::Word, r_operands(word))),
        code::AMOSWAP_W => Some(Insn::Amo(AmoOp::Amoswap, Width::Word, r_operands(word))),
        code::AMOADD_W => Some(Insn::Amo(AmoOp::Amoadd, Width::Word, r_operands(word))),
        code::AMOXOR_W => Some(Insn::Amo(AmoOp::Amoxor, Width::Word, r_operands(word))),
        code::AMOAND_W => Some(Insn::Amo(AmoOp::Amoand, Width::Word, r_operands(word))),
        code::AMOOR_W => Some(Insn::Amo(AmoOp::Amoor, Width::Word, r_operands(word))),
        code::AMOMIN_W => Some(Insn::Amo(AmoOp::Amomin, Width::Word, r_operands(word))),
        code::AMOMAX_W => Some(Insn::Amo(AmoOp::Amomax, Width::Word, r_operands(word))),
        code::AMOMINU_W => Some(Insn::Amo(AmoOp::Amominu, Width::Word, r_operands(word))),
        code::AMOMAXU_W => Some(Insn::Amo(AmoOp::Amomaxu, Width::Word, r_operands(word))),
        code::SC_D => Some(Insn::StoreConditional(Width::DoubleWord, r_operands(word))),
        code::AMOSWAP_D => Some(Insn::Amo(AmoOp::Amoswap, Width::DoubleWord, r_operands(word))),
        code::AMOADD_D => Some(Insn::Amo(AmoOp::Amoadd, Width::DoubleWord, r_operands(word))),
        code::AMOXOR_D => Some(Insn::Amo(AmoOp::Amoxor, Width::DoubleWord, r_operands(word))),
        code::AMOAND_D => Some(Insn::Amo(AmoOp::Amoand, Width::DoubleWord, r_operands(word))),
        code::AMOOR_D => Some(Insn::Amo(AmoOp::Amoor, Width::DoubleWord, r_operands(word))),
        code::AMOMIN_D => Some(Insn::Amo(AmoOp::Amomin, Width::DoubleWord, r_operands(word))),
        code::AMOMAX_D => Some(Insn::Amo(AmoOp::Amomax, Width::DoubleWord, r_operands(word))),
        code::AMOMINU_D => Some(Insn::Amo(AmoOp::Amominu, Width::DoubleWord, r_operands(word))),
        code::AMOMAXU_D => Some(Insn::Amo(AmoOp::Amomaxu, Width::DoubleWord, r_operands(word))),
        _ => None,
    }
}
