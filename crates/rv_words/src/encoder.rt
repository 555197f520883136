//! From an instruction to its word, by its format.

ghost use Rattle.std.specs.Prelude.{◌≡◌, Some, bit_and};
ghost use Rattle.rv_model.specs.Rows.{meaning};
ghost use Rattle.rv_model.specs.Means.{Means};
ghost use Rattle.rv_model.specs.OperandsFit.{OperandsFit};
ghost use Rattle.rv_words.specs.KeptBits.{kept_bits};

mod codes;
mod formats;

use crate::code;
use codes::{
    amo_code, branch_code, csr_code, csr_immediate_code, immediate_code, load_code,
    load_reserved_code, register_code, shift_code, store_code, store_conditional_code,
    word_shift_code,
};
use formats::{
    atomic_word, b_word, csr_imm_word, csr_word, i_word, j_word, load_reserved_word, r_word,
    s_word, shift_word, u_word, word_shift_word,
};
use rv_model::Insn;

/// The word of an instruction whose operands fit its format, as those of each instruction that `decode` gives do.
/// Bits that have no meaning in it (the bits aq and rl of atomics, the fields of fences) are 0.
#[tactic(auto, using(rv_model::proofs::RowMeanings::meaning_from_row))]
pub fn encode(insn: Insn) -> u32
    requires { OperandsFit insn }
    ensures means { meaning result ≡ Some insn }
    ensures plain { bit_and result (kept_bits insn) ≡ result }
{
    word_of(insn)
}

/// The same, by the instruction's own row.
#[tactic(auto, using(crate::proofs::FieldLemmas::and_word))]
fn word_of(insn: Insn) -> u32
    requires { OperandsFit insn }
    ensures means { Means result insn }
    ensures plain { bit_and result (kept_bits insn) ≡ result }
{
    match insn {
        Insn::Lui(p) => u_word(code::LUI, p),
        Insn::Auipc(p) => u_word(code::AUIPC, p),
        Insn::Jal(p) => j_word(code::JAL, p),
        Insn::Jalr(p) => i_word(code::JALR, p),
        Insn::Branch(condition, p) => b_word(branch_code(condition), p),
        Insn::Load(op, p) => i_word(load_code(op), p),
        Insn::Store(size, p) => s_word(store_code(size), p),
        Insn::Immediate(op, p) => i_word(immediate_code(op), p),
        Insn::Shift(op, p) => shift_word(shift_code(op), p),
        Insn::WordShift(op, p) => word_shift_word(word_shift_code(op), p),
        Insn::Register(op, p) => r_word(register_code(op), p),
        Insn::LoadReserved(width, p) => load_reserved_word(load_reserved_code(width), p),
        Insn::StoreConditional(width, p) => atomic_word(store_conditional_code(width), p),
        Insn::Amo(op, width, p) => atomic_word(amo_code(op, width), p),
        Insn::Fence => code::FENCE,
        Insn::FenceI => code::FENCE_I,
        Insn::Csr(change, p) => csr_word(csr_code(change), p),
        Insn::CsrImmediate(change, p) => csr_imm_word(csr_immediate_code(change), p),
        Insn::Ecall => code::ECALL,
        Insn::Ebreak => code::EBREAK,
        Insn::Mret => code::MRET,
        Insn::Wfi => code::WFI,
    }
}
