//! One turn of a core (unprivileged manual, "Programmers' Model for Base Integer ISA"; privileged manual, "Machine Cause"
//! and "Machine Interrupt Registers").

ghost use Rattle.std.specs.Prelude.{◌≡◌};
ghost use Rattle.rv_model.specs.Execute.{exec_masked_of, exec_of};

use crate::hart::{FETCH_OUTSIDE, Hart, ILLEGAL_INSTRUCTION};
use rv_mem::Ram;
use rv_model::Did;
use rv_words::decode;

impl Hart {
    #[tactic(auto, unfolding(rv_model::specs::Execute::exec_of))]
    /// Takes the machine software interrupt where it is enabled and pends, and else executes the instruction at pc, or traps in its place.
    pub fn exec(&mut self, ram: &mut Ram) -> Did
        ensures step { record { core = self.new; did = result } ≡ (exec_of self.old ram.old).step }
        ensures memory { ram.new ≡ (exec_of self.old ram.old).memory }
    {
        if self.takes_interrupt(ram) {
            return self.interrupt();
        }
        self.exec_masked(ram)
    }

    #[tactic(auto, unfolding(rv_model::specs::Execute::exec_masked_of))]
    /// Executes the instruction at pc, or traps in its place, and takes no interrupt.
    pub fn exec_masked(&mut self, ram: &mut Ram) -> Did
        ensures step { record { core = self.new; did = result } ≡ (exec_masked_of self.old ram.old).step }
        ensures memory { ram.new ≡ (exec_masked_of self.old ram.old).memory }
    {
        let pc = self.pc();
        match ram.fetch(pc) {
            Some(word) => match decode(word) {
                Some(insn) => self.execute(ram, insn),
                None => self.trap(ILLEGAL_INSTRUCTION, 0),
            },
            None => self.trap(FETCH_OUTSIDE, pc),
        }
    }
}
