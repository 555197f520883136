//! A module, two harts and memory, as the tests use them.

ghost use Rattle.std.specs.Prelude.{IfOk};
ghost use Rattle.dbg_module.specs.Served.{IsServedBy};

use crate::{Module, Performed};
use debug_model::{
    AbstractCommand, Abstractauto, Abstractcs, Data0, Data1, Dmcontrol, DmiOp, Dmstatus, Haltsum0,
    Progbuf0, Sbaddress0, Sbcs, Sbdata0,
};
use hart_debug::{DebugHart, Start};
use rv_mem::{Ram, RamFault};
use std::alloc::Global;

pub const DATA0: u8 = Data0::ADDRESS;

pub const DATA1: u8 = Data1::ADDRESS;

pub const DMCONTROL: u8 = Dmcontrol::ADDRESS;

pub const DMSTATUS: u8 = Dmstatus::ADDRESS;

pub const ABSTRACTCS: u8 = Abstractcs::ADDRESS;

pub const COMMAND: u8 = AbstractCommand::ADDRESS;

pub const ABSTRACTAUTO: u8 = Abstractauto::ADDRESS;

pub const PROGBUF0: u8 = Progbuf0::ADDRESS;

pub const SBCS: u8 = Sbcs::ADDRESS;

pub const SBADDRESS0: u8 = Sbaddress0::ADDRESS;

pub const SBDATA0: u8 = Sbdata0::ADDRESS;

pub const HALTSUM0: u8 = Haltsum0::ADDRESS;

/// `ebreak`
pub const EBREAK: u32 = 0x0010_0073;

#[derive(Drop)]
pub struct Bench {
    pub module: Module,
    pub harts: [DebugHart; 2],
    pub ram: Ram,
}

impl Bench {
    /// The module as reset leaves it, hart 0 halted, and hart 1 like this.
    pub fn new(alloc: Global, second: Start) -> Result<Self, RamFault>
        ensures { IfOk result (λ b. IsServedBy b.module b.harts) }
    {
        Ok(Bench {
            module: Module::new(),
            harts: [DebugHart::new(0, Start::Halted), DebugHart::new(1, second)],
            ram: Ram::new(alloc, 65_536)?,
        })
    }

    pub fn perform(&mut self, op: DmiOp) -> Performed
        requires { IsServedBy self.old.module self.old.harts }
        ensures { IsServedBy self.new.module self.new.harts }
    {
        self.module.perform(op, &mut self.harts)
    }

    pub fn read(&mut self, address: u8) -> u32
        requires { IsServedBy self.old.module self.old.harts }
        ensures { IsServedBy self.new.module self.new.harts }
    {
        self.perform(DmiOp::Read(address)).result
    }

    pub fn write(&mut self, address: u8, word: u32)
        requires { IsServedBy self.old.module self.old.harts }
        ensures { IsServedBy self.new.module self.new.harts }
    {
        let _performed = self.perform(DmiOp::Write(address, word));
    }

    pub fn command_step(&mut self) -> bool
        requires { IsServedBy self.old.module self.old.harts }
        ensures { IsServedBy self.new.module self.new.harts }
    {
        self.module.command_step(&mut self.harts, &mut self.ram)
    }

    pub fn bus_step(&mut self) -> bool
        requires { IsServedBy self.old.module self.old.harts }
        ensures { IsServedBy self.new.module self.new.harts }
    {
        self.module.bus_step(&mut self.ram)
    }

    /// As many steps as a command can have.
    pub fn run(&mut self)
        requires { IsServedBy self.old.module self.old.harts }
        ensures { IsServedBy self.new.module self.new.harts }
    {
        self.command_step();
        self.command_step();
        self.command_step();
        self.command_step();
        self.command_step();
    }
}
