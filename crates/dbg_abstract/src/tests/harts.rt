//! Harts and memory that the tests share.

use crate::CommandUnit;
use debug_model::Cmderr;
use hart_debug::{DebugHart, Start};
use rv_mem::{Ram, RamFault};
use rv_model::Size;
use std::alloc::Global;
use std::process::Abort;

/// RAM's first address.
pub const FIRST: u64 = 0x8000_0000;

/// What stands there.
pub const FIRST_VALUE: u64 = 0x8877_6655_4433_2211;

/// `ebreak`
pub const EBREAK: u32 = 0x0010_0073;

/// `addi x8, x8, 1`
pub const ADD_ONE: u32 = 0x0014_0413;

/// Reads x8 of 64 bits into the data words.
pub const READ_X8: u32 = 0x0032_1008;

/// Writes x8 of 64 bits from the data words.
pub const WRITE_X8: u32 = 0x0033_1008;

/// Executes the program buffer.
pub const EXECUTE: u32 = 0x0004_0000;

/// The smallest RAM.
pub fn ram(alloc: Global) -> Result<Ram, RamFault> {
    let mut ram = Ram::new(alloc, 65_536)?;
    let _ = ram.store(FIRST, Size::B8, FIRST_VALUE);
    Ok(ram)
}

/// A hart as a debugger can find it.
#[derive(Clone, Copy, Debug, PartialEq, Eq)]
pub enum Found {
    Nowhere,
    Running,
    Halted,
    Resuming,
}

/// A hart that is found so; there is one behind `Nowhere` too, which nobody is told of.
pub fn hart_found(found: Found) -> DebugHart {
    let start = if found == Found::Running {
        Start::Running
    } else {
        Start::Halted
    };
    let mut hart = DebugHart::new(2, start);
    if found == Found::Resuming {
        hart.resume_request();
    }
    hart
}

/// Runs what is under way to its end, and answers how many steps it took and how many of them accessed memory.
pub fn run(
    rt: &impl Abort,
    unit: &mut CommandUnit,
    hart: &mut DebugHart,
    ram: &mut Ram,
) -> (u32, u32) {
    let mut steps = 0;
    let mut accesses = 0;
    for _ in 0..6 {
        assert!(rt; hart.is_halted());
        if unit.is_busy() && steps < 6 && accesses < 6 {
            steps += 1;
            if unit.micro(hart, ram) {
                accesses += 1;
            }
        }
    }
    assert!(rt; !unit.is_busy());
    (steps, accesses)
}

/// `cmderr` as it is shown.
pub fn cmderr(unit: &CommandUnit) -> u32 {
    unit.abstractcs() >> 8 & 7
}

/// Writes `command` and runs it to its end; the answer is `cmderr` then.
pub fn execute(
    rt: &impl Abort,
    unit: &mut CommandUnit,
    hart: &mut DebugHart,
    ram: &mut Ram,
    command: u32,
) -> Cmderr {
    unit.write_command(command, Some(hart));
    run(rt, unit, hart, ram);
    unit.cmderr()
}
