//! Single instructions and short programs, with what the manuals say of them.

mod interrupts;
mod reference;
mod registers;
mod rows;

use rows::{
    BETWEEN, COMPUTING, CSR_STEPS, FETCHES, JUMPS, MEMORY, NUMBER, RETURNS, TOUCHES, TRAPS,
};
use rv_hart::Hart;
use rv_mem::Ram;
use rv_model::{Did, Size, Touch};
use std::alloc::Global;
use std::process::Abort;

/// Where the instructions of the tests stand, the number that they read and write, their trap handler, and the end of RAM.
const START: u64 = 0x8000_0000;

const DATA: u64 = 0x8000_1000;

const HANDLER: u64 = 0x8000_0200;

const END: u64 = 0x8001_0000;

const MSTATUS: u16 = 0x300;

const MTVEC: u16 = 0x305;

const MSCRATCH: u16 = 0x340;

const MEPC: u16 = 0x341;

const MCAUSE: u16 = 0x342;

const MTVAL: u16 = 0x343;

/// Puts words into RAM one behind the other.
fn put_words(rt: &impl Abort, ram: &mut Ram, start: u64, words: &[u32]) {
    let mut addr = start;
    for &word in words {
        assert_eq!(rt; ram.store(addr, Size::B4, u64::from(word)), Ok(()));
        addr = addr.wrapping_add(4);
    }
}

/// RAM with words from `START` on and the number at `DATA`.
fn ram_with(rt: &impl Abort, alloc: Global, words: &[u32]) -> Ram {
    let mut ram = Ram::new(alloc, 65_536).expect(rt, "the smallest RAM");
    put_words(rt, &mut ram, START, words);
    assert_eq!(rt; ram.store(DATA, Size::B8, NUMBER), Ok(()));
    ram
}

/// Writes a register of Machine Mode that is there and not read-only.
fn set_csr(rt: &impl Abort, hart: &mut Hart, number: u16, value: u64) {
    assert_eq!(rt; hart.csr_write(number, value), Ok(()), "{number:#x}");
}

/// Hart 2 after reset, but for x5 to x7 and registers that an instruction could change by mistake.
fn hart_with(rt: &impl Abort, x6: u64, x7: u64) -> Hart {
    let mut hart = Hart::new(2);
    hart.set_x(5, 0x55);
    hart.set_x(6, x6);
    hart.set_x(7, x7);
    set_csr(rt, &mut hart, MSTATUS, 0x8);
    set_csr(rt, &mut hart, MTVEC, HANDLER);
    set_csr(rt, &mut hart, MSCRATCH, 0xff0);
    set_csr(rt, &mut hart, MEPC, 0x1234);
    set_csr(rt, &mut hart, MCAUSE, 0x5678);
    set_csr(rt, &mut hart, MTVAL, 0x9abc);
    hart
}

#[test]
fn counts_from_reset(rt: HostRuntime) {
    let mut ram = ram_with(&rt, rt.alloc(), &[0x0050_0293, 0x0012_8293, 0xffdf_f06f]);
    let mut hart = Hart::new(0);
    for _ in 0..3 {
        assert_eq!(rt; hart.exec(&mut ram), Did::Retired);
    }
    assert_eq!(rt; (hart.id(), hart.x(5), hart.pc()), (0, 6, 0x8000_0004));
    let mut wanted = Hart::new(0);
    wanted.set_x(5, 6);
    wanted.set_pc(0x8000_0004);
    assert_eq!(rt; hart, wanted);
    assert_eq!(rt; ram.load(DATA, Size::B8), Ok(NUMBER));
}

/// Executes the word at pc.
fn exec(rt: &impl Abort, hart: &mut Hart, ram: &mut Ram, wanted: Did, text: &str) {
    assert_eq!(rt; hart.exec(ram), wanted, "{text}");
}

/// Two harts are the same.
fn same(rt: &impl Abort, hart: &Hart, wanted: &Hart, text: &str) {
    assert_eq!(rt; *hart, *wanted, "{text}");
}

/// A register of Machine Mode holds this.
fn holds(rt: &impl Abort, hart: &Hart, number: u16, wanted: u64, text: &str) {
    assert_eq!(rt; hart.csr_read(number), Some(wanted), "{text}");
}

/// This number stands at `DATA`.
fn stored(rt: &impl Abort, ram: &Ram, wanted: u64, text: &str) {
    assert_eq!(rt; ram.load(DATA, Size::B8), Ok(wanted), "{text}");
}

/// Executes the word at pc, which leaves these in x5, pc and at `DATA`, and all else as it was.
fn check_step(
    rt: &impl Abort,
    alloc: Global,
    (word, text): (u32, &str),
    (x6, x7): (u64, u64),
    (x5, pc, number): (u64, u64, u64),
) {
    let mut ram = ram_with(rt, alloc, &[word]);
    let mut hart = hart_with(rt, x6, x7);
    let mut wanted = hart;
    wanted.set_x(5, x5);
    wanted.set_pc(pc);
    exec(rt, &mut hart, &mut ram, Did::Retired, text);
    same(rt, &hart, &wanted, text);
    assert_eq!(rt; (hart.x(5), hart.pc()), (x5, pc), "{text}");
    stored(rt, &ram, number, text);
    assert_eq!(rt; ram.load(START, Size::B4), Ok(u64::from(word)), "{text}");
}

fn check_computing(
    rt: &impl Abort,
    alloc: Global,
    (word, text, x6, x7, x5): (u32, &str, i64, i64, i64),
) {
    let sources = (x6.cast_unsigned(), x7.cast_unsigned());
    let wanted = (x5.cast_unsigned(), START + 4, NUMBER);
    check_step(rt, alloc, (word, text), sources, wanted);
}

fn check_jump(
    rt: &impl Abort,
    alloc: Global,
    (word, text, x6, x7, x5, pc): (u32, &str, i64, i64, u64, u64),
) {
    let sources = (x6.cast_unsigned(), x7.cast_unsigned());
    check_step(rt, alloc, (word, text), sources, (x5, pc, NUMBER));
}

fn check_memory(
    rt: &impl Abort,
    alloc: Global,
    (word, text, behind, x5, number): (u32, &str, u64, u64, u64),
) {
    let sources = (DATA.wrapping_add(behind), 0xffff_ffff_0000_0006);
    check_step(rt, alloc, (word, text), sources, (x5, START + 4, number));
}

fn check_csr_step(
    rt: &impl Abort,
    alloc: Global,
    (word, text, x6, x5, mscratch): (u32, &str, u64, u64, u64),
) {
    let mut ram = ram_with(rt, alloc, &[word]);
    let mut hart = hart_with(rt, x6, 0);
    let mut wanted = hart;
    wanted.set_x(5, x5);
    wanted.set_pc(START + 4);
    set_csr(rt, &mut wanted, MSCRATCH, mscratch);
    exec(rt, &mut hart, &mut ram, Did::Retired, text);
    same(rt, &hart, &wanted, text);
    holds(rt, &hart, MSCRATCH, mscratch, text);
}

#[test]
fn runs_each_instruction_once(rt: HostRuntime) {
    for &row in &COMPUTING {
        check_computing(&rt, rt.alloc(), row);
    }
    for &row in &JUMPS {
        check_jump(&rt, rt.alloc(), row);
    }
    for &row in &MEMORY {
        check_memory(&rt, rt.alloc(), row);
    }
    for &row in &CSR_STEPS {
        check_csr_step(&rt, rt.alloc(), row);
    }
}

fn check_trap(
    rt: &impl Abort,
    alloc: Global,
    (word, text, x6, mcause, mtval): (u32, &str, u64, u8, u64),
) {
    let mut ram = ram_with(rt, alloc, &[word]);
    let mut hart = hart_with(rt, x6, 7);
    let mut wanted = hart;
    wanted.set_pc(HANDLER);
    set_csr(rt, &mut wanted, MSTATUS, 0x80);
    set_csr(rt, &mut wanted, MEPC, START);
    set_csr(rt, &mut wanted, MCAUSE, u64::from(mcause));
    set_csr(rt, &mut wanted, MTVAL, mtval);
    exec(rt, &mut hart, &mut ram, Did::Trapped(mcause), text);
    same(rt, &hart, &wanted, text);
    stored(rt, &ram, NUMBER, text);
}

fn check_fetch(rt: &impl Abort, alloc: Global, (pc, text): (u64, &str)) {
    let mut ram = ram_with(rt, alloc, &[]);
    let mut hart = hart_with(rt, 0, 0);
    hart.set_pc(pc);
    exec(rt, &mut hart, &mut ram, Did::Trapped(1), text);
    assert_eq!(rt; hart.pc(), HANDLER, "{text}");
    holds(rt, &hart, MEPC, pc, text);
    holds(rt, &hart, MCAUSE, 1, text);
    holds(rt, &hart, MTVAL, pc, text);
    holds(rt, &hart, MSTATUS, 0x1880, text);
}

fn check_return(rt: &impl Abort, alloc: Global, (before, after, text): (u64, u64, &str)) {
    let mut ram = ram_with(rt, alloc, &[0x3020_0073]);
    let mut hart = hart_with(rt, 0, 0);
    set_csr(rt, &mut hart, MSTATUS, before);
    let mut wanted = hart;
    wanted.set_pc(0x1234);
    set_csr(rt, &mut wanted, MSTATUS, after);
    exec(rt, &mut hart, &mut ram, Did::Retired, text);
    same(rt, &hart, &wanted, text);
    holds(rt, &hart, MSTATUS, after, text);
}

#[test]
fn traps_and_returns(rt: HostRuntime) {
    for &row in &TRAPS {
        check_trap(&rt, rt.alloc(), row);
    }
    for &row in &FETCHES {
        check_fetch(&rt, rt.alloc(), row);
    }
    for &row in &RETURNS {
        check_return(&rt, rt.alloc(), row);
    }
}

/// lr.d x5, (x6) of hart 2; what another hart does, with this in its x6; then sc.d x5, x7, (x6) and a second one.
fn check_reserved(
    rt: &impl Abort,
    alloc: Global,
    (word, text, x6, succeeds): (u32, &str, u64, bool),
) {
    let mut ram = ram_with(rt, alloc, &[0x1003_32af, 0x1873_32af, 0x1873_32af]);
    put_words(rt, &mut ram, HANDLER, &[word]);
    let mut hart = hart_with(rt, DATA, 42);
    exec(rt, &mut hart, &mut ram, Did::Retired, text);
    assert_eq!(rt; hart.x(5), NUMBER, "{text}");
    let mut other = Hart::new(1);
    other.set_x(6, x6);
    other.set_pc(HANDLER);
    exec(rt, &mut other, &mut ram, Did::Retired, text);
    let left = ram.load(DATA, Size::B8);
    exec(rt, &mut hart, &mut ram, Did::Retired, text);
    assert_eq!(rt; hart.x(5), u64::from(!succeeds), "{text}");
    let wanted = if succeeds { Ok(42) } else { left };
    assert_eq!(rt; ram.load(DATA, Size::B8), wanted, "{text}");
    exec(rt, &mut hart, &mut ram, Did::Retired, text);
    assert_eq!(rt; hart.x(5), 1, "{text}: the reservation is used up");
}

#[test]
fn stores_only_where_reserved(rt: HostRuntime) {
    for &row in &BETWEEN {
        check_reserved(&rt, rt.alloc(), row);
    }
}

/// lr.d x5, (x6); sc.d x5, x7, (x28), which traps; sc.d x5, x7, (x6).
fn check_trapping_sc(rt: &impl Abort, alloc: Global, (x28, mcause, text): (u64, u8, &str)) {
    let mut ram = ram_with(rt, alloc, &[0x1003_32af, 0x187e_32af, 0x1873_32af]);
    let mut hart = hart_with(rt, DATA, 42);
    hart.set_x(28, x28);
    exec(rt, &mut hart, &mut ram, Did::Retired, text);
    exec(rt, &mut hart, &mut ram, Did::Trapped(mcause), text);
    assert!(rt; ram.reserved(2, DATA, Size::B8), "{text}");
    hart.set_pc(START + 8);
    exec(rt, &mut hart, &mut ram, Did::Retired, text);
    assert_eq!(rt; hart.x(5), 0, "{text}");
    stored(rt, &ram, 42, text);
}

#[test]
fn trapping_sc_keeps_the_reservation(rt: HostRuntime) {
    check_trapping_sc(&rt, rt.alloc(), (DATA + 4, 6, "misaligned"));
    check_trapping_sc(&rt, rt.alloc(), (END, 7, "outside"));
}

fn check_touch(
    rt: &impl Abort,
    alloc: Global,
    (word, text, x6, addr, count, read, written): (u32, &str, u64, u64, u8, bool, bool),
) {
    let ram = ram_with(rt, alloc, &[word]);
    let hart = hart_with(rt, x6, 7);
    let wanted = Touch {
        pc: START,
        load: read.then_some((addr, count)),
        store: written.then_some((addr, count)),
    };
    assert_eq!(rt; hart.touch(&ram), wanted, "{text}");
}

#[test]
fn touches_what_it_would_read_and_write(rt: HostRuntime) {
    for &row in &TOUCHES {
        check_touch(&rt, rt.alloc(), row);
    }
}

#[test]
fn touches_nothing_outside(rt: HostRuntime) {
    let ram = ram_with(&rt, rt.alloc(), &[]);
    let mut hart = hart_with(&rt, DATA, 7);
    hart.set_pc(END);
    let wanted = Touch {
        pc: END,
        load: None,
        store: None,
    };
    assert_eq!(rt; hart.touch(&ram), wanted);
}
