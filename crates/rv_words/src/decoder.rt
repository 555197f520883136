//! From a word to its instruction, by opcode and then by the table's rows of that opcode.

ghost use Rattle.std.specs.Prelude.{◌≡◌, IfSome};
ghost use Rattle.rv_model.specs.Rows.{meaning};
ghost use Rattle.rv_model.specs.OperandsFit.{OperandsFit};

mod atomic;
mod branch;
mod immediate;
mod memory;
mod register;
mod system;

use crate::fields::{j_operands, u_operands};
use crate::mask::OPCODE_MASK;
use crate::opcode;
use rv_model::Insn;

/// The instruction that a word means (unprivileged manual, "RV32/64G Instruction Set Listings"; privileged manual,
/// "Machine-Mode Privileged Instructions"), or `None` where no row matches: the word is an illegal instruction.
pub fn decode(word: u32) -> Option<Insn>
    ensures is { result ≡ meaning word }
    ensures fit { IfSome result OperandsFit }
{
    match word & OPCODE_MASK {
        opcode::LOAD => memory::load(word),
        opcode::MISC_MEM => system::fence(word),
        opcode::OP_IMM => immediate::immediate(word),
        opcode::AUIPC => Some(Insn::Auipc(u_operands(word))),
        opcode::OP_IMM_32 => immediate::immediate_word(word),
        opcode::STORE => memory::store(word),
        opcode::AMO => atomic::atomic(word),
        opcode::OP => register::register(word),
        opcode::LUI => Some(Insn::Lui(u_operands(word))),
        opcode::OP_32 => register::register_word(word),
        opcode::BRANCH => branch::branch(word),
        opcode::JALR => branch::jalr(word),
        opcode::JAL => Some(Insn::Jal(j_operands(word))),
        opcode::SYSTEM => system::system(word),
        _ => None,
    }
}
