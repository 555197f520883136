//! The micro steps of a command that is under way.

ghost use Rattle.std.specs.Prelude.{◌≡◌, true, false, ◌∷◌, is_some};
ghost use Rattle.rv_model.specs.DebugRegisters.{debug_seen};
ghost use Rattle.debug_model.specs.Commands.{busy, completed, failed, given_to, left_with, micro_step, step_by, taken_from, transferred, unit_behind, went_on};
ghost use Rattle.dbg_abstract.specs.Steps.{stepped_to};

use super::CommandUnit;
use super::start::SIZE_DOUBLE;
use crate::steps::take_first;
use debug_model::{AbstractCommand, Cmderr, Micro};
use hart_debug::{DebugDid, DebugHart};
use rv_mem::Ram;
use rv_model::register_number::MIP;

impl CommandUnit {
    /// One micro step of the command under way, on its hart, which is halted; nothing where none is under way.
    /// It answers whether the step made an access to memory, or tried to.
    #[inline(always)]
    #[tactic(auto, unfolding(debug_model::specs::Commands::micro_step))]
    pub fn micro(&mut self, hart: &mut DebugHart, ram: &mut Ram) -> bool
        requires { busy self.old ≡ true → is_some hart.old.debug.halted ≡ true }
        ensures { stepped_to self.new hart.new ram.new result ≡ micro_step hart.old ram.old self.old }
    {
        match take_first(&mut self.steps) {
            Some(step) => self.perform(step, hart, ram),
            None => false,
        }
    }

    /// One micro step, of a unit that has the steps behind it still to come.
    fn perform(&mut self, step: Micro, hart: &mut DebugHart, ram: &mut Ram) -> bool
        requires { is_some hart.old.debug.halted ≡ true }
        ensures { stepped_to self.new hart.new ram.new result ≡ step_by (step ∷ self.old.steps) hart.old ram.old self.old }
    {
        match step {
            Micro::Transfer(command) => self.transfer(command, hart, ram),
            Micro::Run(word) => {
                let ran = hart.debug_exec(word, ram);
                self.end_by(ran.did);
                ran.accessed
            }
        }
    }

    /// The transfer between the data words and the register of a command, and what is behind it. Is it an access? A read of mip, which memory tells, is one.
    fn transfer(&mut self, command: AbstractCommand, hart: &mut DebugHart, ram: &Ram) -> bool
        requires { is_some hart.old.debug.halted ≡ true }
        ensures { stepped_to self.new hart.new ram.now result
            ≡ transferred (debug_seen hart.old ram.now command.regno) command self.old.steps hart.old ram.now self.old }
    {
        let mut accessed = false;
        if let Some(value) = hart.reg_read_with(command.regno, ram) {
            if command.write {
                let _written = hart.reg_write(command.regno, self.given_to(value, command));
            } else {
                self.take_from(value, command);
                accessed = command.regno == MIP;
            }
        }
        self.leave();
        accessed
    }

    /// The data words take what a register holds: both, or the lower one alone.
    fn take_from(&mut self, value: u64, command: AbstractCommand)
        ensures { self.new ≡ taken_from value command self.old }
    {
        self.data0 = (value & 0xffff_ffff) as u32;
        if command.aarsize == SIZE_DOUBLE {
            self.data1 = (value >> 32) as u32;
        }
    }

    /// The value that a register takes which holds `old`: both data words, or the lower one and its own upper half.
    fn given_to(&self, old: u64, command: AbstractCommand) -> u64
        ensures { result ≡ given_to old command self.now }
    {
        let upper = if command.aarsize == SIZE_DOUBLE {
            u64::from(self.data1)
        } else {
            old >> 32
        };
        u64::from(self.data0) + (upper << 32)
    }

    /// What is behind a word of the program buffer.
    fn end_by(&mut self, did: DebugDid)
        ensures { self.new ≡ unit_behind did self.old.steps self.old }
    {
        match did {
            DebugDid::Next => self.go_on(),
            DebugDid::Ebreak => self.complete(),
            DebugDid::Exception => self.fail(),
        }
    }

    /// Behind a transfer the command completes, where no step is left.
    fn leave(&mut self)
        ensures { self.new ≡ left_with self.old.steps self.old }
    {
        if !self.is_busy() {
            self.complete();
        }
    }

    /// Behind a word of the program buffer that is no `ebreak`, the command fails where no step is left.
    fn go_on(&mut self)
        ensures { self.new ≡ went_on self.old.steps self.old }
    {
        if !self.is_busy() {
            self.fail();
        }
    }

    /// Nothing is left to be done. A late write sets its error where none is set.
    fn complete(&mut self)
        ensures { self.new ≡ completed self.old }
    {
        self.steps.clear();
        if self.late {
            self.late = false;
            self.note(Cmderr::Busy);
        }
    }

    /// The command ends by an exception, whatever error an access to the words has set meanwhile.
    fn fail(&mut self)
        ensures { self.new ≡ failed self.old }
    {
        self.error = Cmderr::Exception;
        self.complete();
    }
}
