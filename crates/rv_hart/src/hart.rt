//! The state of a core (unprivileged manual, "Programmers' Model for Base Integer ISA"; privileged manual, "Machine-Level CSRs").

ghost use Rattle.std.specs.Prelude.{◌≡◌, ◌<◌, ◌%◌};
ghost use Rattle.rv_model.specs.Core.{IsCore, reset_core, x_of, with_x, aligned, next_pc};
ghost use Rattle.rv_model.specs.Effects.{goes_on, sets_rd};

mod csr;
mod mstatus;
mod trap;

use mstatus::mstatus_of;
use rv_model::Did;
use std::marker::Model;
pub use trap::{
    BREAKPOINT, ENVIRONMENT_CALL, FETCH_OUTSIDE, ILLEGAL_INSTRUCTION, MISALIGNED_TARGET,
    load_cause, store_cause,
};

/// How many registers x0 to x31 there are.
const REGISTERS: usize = 32;

/// How many bytes an instruction has.
pub const INSTRUCTION_SIZE: u64 = 4;

/// Where a core starts after reset.
const RESET_PC: u64 = 0x8000_0000;

/// One core: its number, x0 to x31, pc and the registers of Machine Mode.
#[derive(Clone, Copy, Debug, PartialEq, Eq)]
pub struct Hart {
    id: u8,
    x: [u64; REGISTERS],
    pc: u64,
    mstatus: u64,
    mie: u64,
    mtvec: u64,
    mscratch: u64,
    mepc: u64,
    mcause: u64,
    mtval: u64,
}

impl Model for Hart {
    ghost use Rattle.rv_model.specs.Core.{Core};
    ghost use Rattle.rv_model.specs.Codes.{core_code};

    ghost Value = { Core };

    ghost coded = { core_code };

    ghost use Rattle.rv_hart.specs.Fields.{core_of, fields_of, IsHart};

    ghost view = { core_of };

    ghost inverse = { fields_of };

    ghost invariant = { λ h. IsHart (core_of h) };
}

impl Hart {
    /// The core of a hart below 4 as reset leaves it.
    pub fn new(id: u8) -> Self
        requires { id < 4 }
        ensures { result ≡ reset_core id }
    {
        Hart {
            id,
            x: [0; REGISTERS],
            pc: RESET_PC,
            mstatus: mstatus_of(0, 0),
            mie: 0,
            mtvec: 0,
            mscratch: 0,
            mepc: 0,
            mcause: 0,
            mtval: 0,
        }
    }

    /// The hart's number, below 4.
    pub fn id(&self) -> u8
        ensures number { result ≡ self.now.id }
        ensures small { result < 4 }
    {
        self.id
    }

    /// A register's value, by its number below 32: x0 is 0.
    pub fn x(&self, r: u8) -> u64
        requires { r < 32 }
        ensures { result ≡ x_of self.now r }
    {
        if r == 0 { 0 } else { self.x[r as usize] }
    }

    /// Writes a register, by its number below 32: a write of x0 does nothing.
    pub fn set_x(&mut self, r: u8, value: u64)
        requires { r < 32 }
        ensures { self.new ≡ with_x self.old r value }
    {
        if r != 0 {
            self.x[r as usize] = value;
        }
    }

    /// The address of the next instruction, a multiple of 4.
    pub fn pc(&self) -> u64
        ensures address { result ≡ self.now.pc }
        ensures core { IsCore self.now }
    {
        self.pc
    }

    /// Puts pc at an address with its two lowest bits cleared.
    pub fn set_pc(&mut self, value: u64)
        ensures { self.new ≡ record self.old { pc = aligned value } }
    {
        self.pc = value / INSTRUCTION_SIZE * INSTRUCTION_SIZE;
    }

    /// The address behind the instruction at pc.
    pub(crate) fn next_pc(&self) -> u64
        ensures address { result ≡ next_pc self.now }
        ensures whole { result % 4 ≡ 0 }
    {
        self.pc.wrapping_add(INSTRUCTION_SIZE)
    }

    /// Puts pc at an address that is a multiple of 4.
    pub(crate) fn go_to(&mut self, target: u64)
        requires { target % 4 ≡ 0 }
        ensures { self.new ≡ record self.old { pc = target } }
    {
        self.pc = target;
    }

    /// Goes on behind the instruction at pc.
    pub(crate) fn advance(&mut self) -> Did
        ensures { record { core = self.new; did = result } ≡ goes_on self.old }
    {
        let next = self.next_pc();
        self.go_to(next);
        Did::Retired
    }

    /// Writes the destination of an instruction, and goes on behind it.
    pub(crate) fn set_rd(&mut self, rd: u8, value: u64) -> Did
        requires { rd < 32 }
        ensures { record { core = self.new; did = result } ≡ sets_rd rd value self.old }
    {
        self.set_x(rd, value);
        self.advance()
    }
}
