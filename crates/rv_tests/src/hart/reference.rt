//! A program of random instructions in Machine Mode, with software interrupts, and what QEMU makes of the hart in front of each of them.
//! `tools/reference_run` wrote the data, and says what it leaves out.

mod run;

use super::{MCAUSE, MEPC, MSCRATCH, MTVEC, START, put_words, set_csr};
use run::{EXECUTED, PROGRAM, SUMS, TRAP_HANDLER};
use rv_hart::Hart;
use rv_mem::Ram;
use rv_model::{Did, Size};
use std::alloc::Global;
use std::process::Abort;

/// Where the program's trap handler and its data stand, and how many 8-byte numbers those are.
const TRAP_START: u64 = 0x8001_0000;

const DATA_START: u64 = 0x8001_8000;

const DATA_COUNT: u64 = 512;

/// Of how many more states each of the sums is than the one before, but for the last.
const EVERY: u32 = 100;

/// The numbers at the start, in registers and in memory.
fn number(place: u64) -> u64 {
    place.wrapping_mul(0x9e37_79b9_7f4a_7c15)
}

fn ram_at_start(rt: &impl Abort, alloc: Global) -> Ram {
    let mut ram = Ram::with_msip(alloc, 0x2_0000, 1).expect(rt, "RAM");
    put_words(rt, &mut ram, START, &PROGRAM);
    put_words(rt, &mut ram, TRAP_START, &TRAP_HANDLER);
    for k in 0..DATA_COUNT {
        let addr = DATA_START + 8 * k;
        assert_eq!(rt; ram.store(addr, Size::B8, number(64 + k)), Ok(()));
    }
    ram
}

/// The data's middle in x8, four corner values in x26 to x29, and 0 in x30, where the trap handler folds what it sees.
fn hart_at_start(rt: &impl Abort) -> Hart {
    let mut hart = Hart::new(0);
    set_csr(rt, &mut hart, MTVEC, TRAP_START);
    for r in 1..26 {
        hart.set_x(r, number(u64::from(r)));
    }
    hart.set_x(8, DATA_START + 2048);
    hart.set_x(26, 0x8000_0000_0000_0000);
    hart.set_x(27, u64::MAX);
    hart.set_x(28, 0x8000_0000);
    hart.set_x(29, 1);
    hart
}

fn folded(sum: u64, part: u64) -> u64 {
    let sum = (sum ^ part).wrapping_mul(0x100_0000_01b3);
    sum ^ sum >> 32
}

/// pc, x1 to x30, mscratch, mcause and mepc, folded into the sum of those before.
fn with_hart(rt: &impl Abort, sum: u64, hart: &Hart) -> u64 {
    let mut sum = folded(sum, hart.pc());
    for r in 1..31 {
        sum = folded(sum, hart.x(r));
    }
    for number in [MSCRATCH, MCAUSE, MEPC] {
        sum = folded(sum, hart.csr_read(number).expect(rt, "a register"));
    }
    sum
}

/// Executes an instruction, and folds the hart in front of it into the sum. An interrupt is taken in front of an instruction, and is none.
fn execute_one(rt: &impl Abort, hart: &mut Hart, ram: &mut Ram, sum: u64) -> u64 {
    let seen = with_hart(rt, sum, hart);
    if hart.exec(ram) != Did::Interrupted {
        return seen;
    }
    let seen = with_hart(rt, sum, hart);
    assert_ne!(rt; hart.exec(ram), Did::Interrupted);
    seen
}

/// Executes this many instructions, and folds the hart in front of each into the sum.
fn execute(rt: &impl Abort, hart: &mut Hart, ram: &mut Ram, count: u32, sum: u64) -> u64 {
    let mut sum = sum;
    for _ in 0..count {
        sum = execute_one(rt, hart, ram, sum);
    }
    sum
}

#[test]
fn executes_what_another_simulator_executes(rt: HostRuntime) {
    let mut ram = ram_at_start(&rt, rt.alloc());
    let mut hart = hart_at_start(&rt);
    let mut sum = 0;
    let mut left = EXECUTED;
    for &wanted in &SUMS {
        let count = left.min(EVERY);
        sum = execute(&rt, &mut hart, &mut ram, count, sum);
        left = left.saturating_sub(count);
        assert_eq!(rt; sum, wanted, "with {left} instructions to go");
    }
    assert_eq!(rt; left, 0);
}
