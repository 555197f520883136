//! What each instruction does: one arm for the instructions of each format.
//!
//! The functions of the arms are inlined, so that operands stay in registers: a struct that is passed on costs at the entry of
//! `execute`, whichever arm it belongs to.

ghost use Rattle.std.specs.Prelude.{◌≡◌};
ghost use Rattle.rv_model.specs.Effects.{effect_of};
ghost use Rattle.rv_model.specs.OperandsFit.{OperandsFit};

use crate::atomic::{load_reserved, store_conditional, update};
use crate::computing::{auipc, immediate, lui, register, shift};
use crate::hart::{BREAKPOINT, ENVIRONMENT_CALL, Hart};
use crate::jumps::{branch, jal, jalr};
use crate::loads::load;
use crate::stores::store;
use crate::zicsr::{csr_immediate, csr_register};
use rv_mem::Ram;
use rv_model::{AluOp, Did, Insn};

impl Hart {
    #[tactic(auto, unfolding(rv_model::specs::Effects::effect_of))]
    /// Executes an instruction as if it stood at pc, or traps in its place. Its operands fit its format, as those that `decode` gives do.
    pub fn execute(&mut self, ram: &mut Ram, insn: Insn) -> Did
        requires { OperandsFit insn }
        ensures step { record { core = self.new; did = result } ≡ (effect_of insn self.old ram.old).step }
        ensures memory { ram.new ≡ (effect_of insn self.old ram.old).memory }
    {
        match insn {
            // RV64I, integer computation with upper immediates.
            Insn::Lui(p) => lui(self, p),
            Insn::Auipc(p) => auipc(self, p),
            // RV64I, jumps and branches.
            Insn::Jal(p) => jal(self, p),
            Insn::Jalr(p) => jalr(self, p),
            Insn::Branch(condition, p) => branch(self, condition, p),
            // RV64I, loads and stores.
            Insn::Load(op, p) => load(self, ram, op, p),
            Insn::Store(size, p) => store(self, ram, size, p),
            // RV64I and M, integer computation.
            Insn::Immediate(op, p) => immediate(self, op, p),
            Insn::Shift(op, p) => shift(self, AluOp::Shift(op), p),
            Insn::WordShift(op, p) => shift(self, AluOp::WordShift(op), p),
            Insn::Register(op, p) => register(self, op, p),
            // A.
            Insn::LoadReserved(width, p) => load_reserved(self, ram, width, p),
            Insn::StoreConditional(width, p) => store_conditional(self, ram, width, p),
            Insn::Amo(op, width, p) => update(self, ram, op, width, p),
            // Memory ordering; Zifencei.
            Insn::Fence => self.advance(),
            Insn::FenceI => self.advance(),
            // Zicsr.
            Insn::Csr(change, p) => csr_register(self, ram, change, p),
            Insn::CsrImmediate(change, p) => csr_immediate(self, ram, change, p),
            // Environment call and breakpoint; trap return and wait for interrupt.
            Insn::Ecall => self.trap(ENVIRONMENT_CALL, 0),
            Insn::Ebreak => self.trap(BREAKPOINT, 0),
            Insn::Mret => self.leave_trap(),
            Insn::Wfi => self.advance(),
        }
    }
}
