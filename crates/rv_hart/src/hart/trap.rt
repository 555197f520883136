//! Traps, the machine software interrupt and the return from one (privileged manual, "Machine Cause", "Machine Trap Value",
//! "Machine Trap-Vector Base-Address Register", "Machine Interrupt Registers" and "Trap-Return Instructions").

ghost use Rattle.std.specs.Prelude.{◌≡◌, ◌%◌};
ghost use Rattle.rv_model.specs.Core.{handler_base};
ghost use Rattle.rv_model.specs.Effects.{traps, retires};
ghost use Rattle.rv_model.specs.Execute.{interrupted, takes_interrupt};
ghost use Rattle.rv_model.specs.Traps.{load_cause, store_cause, trap_left};

use super::mstatus::{mie, mpie, mstatus_of};
use super::{Hart, INSTRUCTION_SIZE};
use rv_mem::Ram;
use rv_model::{Did, MemFault};

/// The target of a taken jump or branch is not a multiple of 4.
pub const MISALIGNED_TARGET: u8 = 0;

/// There is no instruction word at pc.
pub const FETCH_OUTSIDE: u8 = 1;

/// The word is no instruction, or its register does not exist or is not writable.
pub const ILLEGAL_INSTRUCTION: u8 = 2;

/// `ebreak`.
pub const BREAKPOINT: u8 = 3;

/// A load's address is not a multiple of its size.
const LOAD_MISALIGNED: u8 = 4;

/// A load's bytes are not all in memory.
const LOAD_OUTSIDE: u8 = 5;

/// A store's address is not a multiple of its size.
const STORE_MISALIGNED: u8 = 6;

/// A store's bytes are not all in memory.
const STORE_OUTSIDE: u8 = 7;

/// `ecall`.
pub const ENVIRONMENT_CALL: u8 = 11;

/// The machine software interrupt: its code in mcause, and its place in mie.
const SOFTWARE_INTERRUPT: u64 = 3;

/// The bit of mcause that tells an interrupt from other traps.
const INTERRUPT: u64 = 0x8000_0000_0000_0000;

/// The mode of mtvec in which each interrupt has an instruction of its own behind the base.
const VECTORED: u64 = 1;

/// The cause of a refused load or lr.
pub fn load_cause(fault: MemFault) -> u8
    ensures { result ≡ load_cause fault }
{
    match fault {
        MemFault::Misaligned => LOAD_MISALIGNED,
        MemFault::Outside => LOAD_OUTSIDE,
    }
}

/// The cause of a refused store, sc or atomic memory operation.
pub fn store_cause(fault: MemFault) -> u8
    ensures { result ≡ store_cause fault }
{
    match fault {
        MemFault::Misaligned => STORE_MISALIGNED,
        MemFault::Outside => STORE_OUTSIDE,
    }
}

impl Hart {
    /// The base address of the trap handler.
    fn handler_base(&self) -> u64
        ensures address { result ≡ handler_base self.now }
        ensures whole { result % 4 ≡ 0 }
    {
        self.mtvec / INSTRUCTION_SIZE * INSTRUCTION_SIZE
    }

    /// Whether the hart takes the machine software interrupt: it is enabled and pends. mstatus is asked first, since few programs enable interrupts.
    #[inline(always)]
    pub(crate) fn takes_interrupt(&self, ram: &Ram) -> bool
        ensures { result ≡ takes_interrupt self.now ram.now }
    {
        mie(self.mstatus) == 1 && self.mie >> SOFTWARE_INTERRUPT & 1 == 1 && ram.msip(self.id)
    }

    /// Enters the handler of the machine software interrupt before the instruction at pc.
    pub(crate) fn interrupt(&mut self) -> Did
        ensures { record { core = self.new; did = result } ≡ interrupted self.old }
    {
        let base = self.handler_base();
        self.mepc = self.pc;
        self.mcause = INTERRUPT + SOFTWARE_INTERRUPT;
        self.mtval = 0;
        self.mstatus = mstatus_of(0, mie(self.mstatus));
        self.pc = if self.mtvec % INSTRUCTION_SIZE == VECTORED {
            base.wrapping_add(INSTRUCTION_SIZE * SOFTWARE_INTERRUPT)
        } else {
            base
        };
        Did::Interrupted
    }

    /// Enters the trap handler for the instruction at pc; the value is an address, or 0.
    pub(crate) fn trap(&mut self, cause: u8, value: u64) -> Did
        ensures { record { core = self.new; did = result } ≡ traps cause value self.old }
    {
        self.mepc = self.pc;
        self.mcause = u64::from(cause);
        self.mtval = value;
        self.mstatus = mstatus_of(0, mie(self.mstatus));
        self.pc = self.handler_base();
        Did::Trapped(cause)
    }

    /// Goes back to where the last trap came from.
    pub(crate) fn leave_trap(&mut self) -> Did
        ensures { record { core = self.new; did = result } ≡ retires (trap_left self.old) }
    {
        self.mstatus = mstatus_of(mpie(self.mstatus), 1);
        self.pc = self.mepc;
        Did::Retired
    }
}
