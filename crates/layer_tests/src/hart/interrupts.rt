use super::{ADDI, EBREAK, FIRST, SECOND, write};
use hart_debug::{DebugHart, Start, Turned};
use rv_mem::{Ram, RamFault};
use rv_model::{Cause, DebugDid, Did, Size};
use std::alloc::Global;
use std::process::Abort;

/// The MSIP word of hart 0.
const MSIP: u64 = 0x200_0000;

/// Where an interrupt goes.
const VECTOR: u64 = 0x8000_004c;

/// dcsr with step, and with step and stepie.
const STEP: u64 = 0x4;

const STEP_AND_STEPIE: u64 = 0x804;

/// An execute trigger with an equal address, as it is written to tdata1.
const BREAK: u64 = 0x6800_0000_0000_1044;

/// The smallest RAM with MSIP words, one word at its start, and an interrupt that pends of hart 0.
fn ram_with(alloc: Global, word: u64) -> Result<Ram, RamFault> {
    let mut ram = Ram::with_msip(alloc, 65_536, 4)?;
    let _ = ram.store(FIRST, Size::B4, word);
    let _ = ram.store(MSIP, Size::B4, 1);
    Ok(ram)
}

/// Hart 0, halted, with its software interrupt enabled, and these registers.
fn hart_with(rt: &impl Abort, registers: &[(u16, u64)]) -> DebugHart {
    let mut hart = DebugHart::new(0, Start::Halted);
    for &(regno, value) in &[(0x300, 8), (0x304, 8), (0x305, 0x8000_0041)] {
        assert!(rt; write(&mut hart, regno, value));
    }
    for &(regno, value) in registers {
        assert!(rt; write(&mut hart, regno, value));
    }
    hart
}

/// The word at pc, registers, the answer of the first turn behind the resume, and pc then.
fn check_turn(
    rt: &impl Abort,
    alloc: Global,
    word: u64,
    registers: &[(u16, u64)],
    turned: Turned,
    pc: u64,
) {
    let mut ram = ram_with(alloc, word).expect(rt, "the smallest RAM");
    let mut hart = hart_with(rt, registers);
    hart.resume_request();
    assert_eq!(rt; hart.turn(&mut ram), Turned::Resumed);
    assert_eq!(rt; hart.turn(&mut ram), turned);
    assert_eq!(rt; hart.hart().pc(), pc);
}

#[test]
fn turns_take_the_interrupt_unless_a_step_masks_it(rt: HostRuntime) {
    check_turn(
        &rt,
        rt.alloc(),
        ADDI,
        &[],
        Turned::Ran(Did::Interrupted),
        VECTOR,
    );
    check_turn(
        &rt,
        rt.alloc(),
        ADDI,
        &[(0x7b0, STEP_AND_STEPIE)],
        Turned::Halted(Cause::Step),
        VECTOR,
    );
    check_turn(
        &rt,
        rt.alloc(),
        ADDI,
        &[(0x7b0, STEP)],
        Turned::Halted(Cause::Step),
        SECOND,
    );
}

#[test]
fn triggers_and_ebreak_come_before_the_interrupt(rt: HostRuntime) {
    check_turn(
        &rt,
        rt.alloc(),
        ADDI,
        &[(0x7a1, BREAK), (0x7a2, FIRST)],
        Turned::Halted(Cause::Trigger),
        FIRST,
    );
    check_turn(
        &rt,
        rt.alloc(),
        EBREAK,
        &[(0x7b0, 0x8000)],
        Turned::Halted(Cause::Ebreak),
        FIRST,
    );
}

#[test]
fn debug_mode_reads_mip_from_memory(rt: HostRuntime) {
    let mut ram = ram_with(rt.alloc(), ADDI).expect(&rt, "the smallest RAM");
    let mut hart = DebugHart::new(0, Start::Halted);
    assert!(rt; hart.is_halted());
    assert_eq!(rt; hart.reg_read_with(0x344, &ram), Some(8));
    assert_eq!(rt; hart.reg_read(0x344), Some(0));
    assert_eq!(rt; hart.reg_read_with(0x300, &ram), Some(0x1800));
    // csrrs x8, mip, x0
    let ran = hart.debug_exec(0x3440_2473, &mut ram);
    assert_eq!(rt; ran.did, DebugDid::Next);
    assert!(rt; !ran.accessed);
    assert_eq!(rt; hart.hart().x(8), 8);
    let _ = ram.store(MSIP, Size::B4, 0);
    assert!(rt; hart.is_halted());
    assert_eq!(rt; hart.reg_read_with(0x344, &ram), Some(0));
}
