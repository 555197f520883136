//! One instruction word of the program buffer (RISC-V Debug Specification 1.0, "Program Buffer").

ghost use Rattle.std.specs.Prelude.{◌≡◌, ◌<◌, true, is_some};
ghost use Rattle.rv_model.specs.Effects.{effect_of};
ghost use Rattle.rv_model.specs.Core.{x_of};
ghost use Rattle.rv_model.specs.OperandsFit.{OperandsFit};
ghost use Rattle.rv_model.specs.DebugLaws.{WriteKeeps};
ghost use Rattle.rv_model.specs.DebugRegisters.{debug_seen};
ghost use Rattle.rv_model.specs.ProgramBuffer.{csr_swap, csr_swap_by, executed, ran_insn, ran_word, swapped};
ghost use Rattle.rv_model.specs.Touch.{touch};
ghost use Rattle.hart_debug.specs.BufferWord.{ran_to, touches_memory};

use super::DebugHart;
use crate::ran_word::RanWord;
use rv_hart::{changed, writes};
use rv_mem::Ram;
use rv_model::{CsrChange, CsrImmType, CsrType, DebugDid, Did, Insn, Touch};
use rv_words::decode;

/// The word before this one was the last: this is `ebreak`.
const ENDS: RanWord = RanWord {
    did: DebugDid::Ebreak,
    accessed: false,
};

/// The word may not stand in the program buffer, or there is no such instruction or register.
const REFUSED: RanWord = RanWord {
    did: DebugDid::Exception,
    accessed: false,
};

/// The word took effect, and is no access.
const DONE: RanWord = RanWord {
    did: DebugDid::Next,
    accessed: false,
};

/// Whether an instruction that touches this is a load, a store or an atomic memory operation.
fn is_access(touch: &Touch) -> bool
    ensures { result ≡ touches_memory touch.now }
{
    touch.load.is_some() || touch.store.is_some()
}

impl DebugHart {
    #[tactic(auto, unfolding(rv_model::specs::ProgramBuffer::ran_word))]
    /// Executes one word of the program buffer; `dpc` stays. An exception changes nothing. The hart is halted.
    pub fn debug_exec(&mut self, word: u32, ram: &mut Ram) -> RanWord
        requires { is_some self.old.debug.halted ≡ true }
        ensures ran { ran_to self.new ram.new result ≡ ran_word word self.old ram.old }
        ensures keeps { WriteKeeps self.old self.new }
    {
        match decode(word) {
            Some(insn) => self.run_insn(insn, ram),
            None => REFUSED,
        }
    }

    /// Executes one instruction of the program buffer.
    fn run_insn(&mut self, insn: Insn, ram: &mut Ram) -> RanWord
        requires halted { is_some self.old.debug.halted ≡ true }
        requires fit { OperandsFit insn }
        ensures { ran_to self.new ram.new result ≡ ran_insn insn self.old ram.old }
    {
        match insn {
            Insn::Ebreak => ENDS,
            // These would need a pc, a trap or a reservation of Debug Mode's own.
            Insn::Auipc(_) => REFUSED,
            Insn::Jal(_) => REFUSED,
            Insn::Jalr(_) => REFUSED,
            Insn::Branch(_, _) => REFUSED,
            Insn::LoadReserved(_, _) => REFUSED,
            Insn::StoreConditional(_, _) => REFUSED,
            Insn::Ecall => REFUSED,
            Insn::Mret => REFUSED,
            // These reach the registers of Debug Mode too.
            Insn::Csr(change, p) => self.swap_register(change, p, ram),
            Insn::CsrImmediate(change, p) => self.swap_immediate(change, p, ram),
            _ => self.execute_in_place(insn, ram),
        }
    }

    /// An instruction on a control and status register whose operand is a register.
    fn swap_register(&mut self, change: CsrChange, p: CsrType, ram: &Ram) -> RanWord
        requires halted { is_some self.old.debug.halted ≡ true }
        requires rd { p.rd < 32 }
        requires rs1 { p.rs1 < 32 }
        ensures { ran_to self.new ram.now result
            ≡ swapped (debug_seen self.old ram.now p.csr) (csr_swap change p.rs1 p.csr (x_of self.old.core p.rs1) p.rd) self.old ram.now }
    {
        let operand = self.hart.x(p.rs1);
        self.swap(writes(change, p.rs1), change, p.csr, operand, p.rd, ram)
    }

    /// An instruction on a control and status register whose operand is an immediate.
    fn swap_immediate(&mut self, change: CsrChange, p: CsrImmType, ram: &Ram) -> RanWord
        requires halted { is_some self.old.debug.halted ≡ true }
        requires rd { p.rd < 32 }
        ensures { ran_to self.new ram.now result
            ≡ swapped (debug_seen self.old ram.now p.csr) (csr_swap change p.imm p.csr p.imm p.rd) self.old ram.now }
    {
        self.swap(
            writes(change, p.imm),
            change,
            p.csr,
            u64::from(p.imm),
            p.rd,
            ram,
        )
    }

    #[tactic(auto, using(crate::proofs::Seen::refused_seen, crate::proofs::Seen::accepted_seen))]
    /// The destination takes a register's old value, mip's from memory; where the instruction writes, the register takes the changed one.
    fn swap(
        &mut self,
        writes: bool,
        change: CsrChange,
        number: u16,
        operand: u64,
        rd: u8,
        ram: &Ram,
    ) -> RanWord
        requires halted { is_some self.old.debug.halted ≡ true }
        requires rd { rd < 32 }
        ensures { ran_to self.new ram.now result
            ≡ swapped (debug_seen self.old ram.now number) (csr_swap_by writes change number operand rd) self.old ram.now }
    {
        let Some(old) = self.reg_read_with(number, ram) else {
            return REFUSED;
        };
        if !writes {
            self.hart.set_x(rd, old);
            return DONE;
        }
        if self.reg_write(number, changed(change, old, operand)) {
            self.hart.set_x(rd, old);
            DONE
        } else {
            REFUSED
        }
    }

    /// The effect of an instruction with pc as it was, or nothing in the place of a trap.
    fn execute_in_place(&mut self, insn: Insn, ram: &mut Ram) -> RanWord
        requires { OperandsFit insn }
        ensures { ran_to self.new ram.new result
            ≡ executed (effect_of insn self.old.core ram.old) (touches_memory (touch insn self.old.core)) self.old ram.old }
    {
        let touch = self.hart.touch_by(insn);
        let accessed = is_access(&touch);
        let before = self.hart;
        match self.hart.execute(ram, insn) {
            Did::Retired => {
                self.hart.set_pc(before.pc());
                RanWord {
                    did: DebugDid::Next,
                    accessed,
                }
            }
            Did::Trapped(_) => {
                self.hart = before;
                RanWord {
                    did: DebugDid::Exception,
                    accessed,
                }
            }
            // It never is: an interrupt is taken before the fetch, and no instruction's effect is one.
            Did::Interrupted => REFUSED,
        }
    }
}
