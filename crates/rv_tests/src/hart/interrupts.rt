//! The machine software interrupt (privileged manual, "Machine Interrupt Registers", "Machine Cause" and "Machine Trap-Vector Base-Address Register").

use super::{MCAUSE, MEPC, MSTATUS, MTVAL, MTVEC, START, put_words, set_csr};
use rv_hart::Hart;
use rv_mem::Ram;
use rv_model::{Did, Size};
use std::alloc::Global;
use std::process::Abort;

/// The MSIP words of hart 2, of which the tests speak, and of hart 1.
const MSIP: u64 = 0x200_0008;

const OTHER_MSIP: u64 = 0x200_0004;

const MIE: u16 = 0x304;

const MIP: u16 = 0x344;

/// Bit 3 of mie and mip, and of mstatus.
const BIT_3: u64 = 0x8;

/// Where traps go, in direct mode and in vectored mode.
const DIRECT: u64 = 0x8000_0200;

const VECTORED: u64 = 0x8000_0201;

/// `addi x5, x0, 5`
const ADDI: u32 = 0x0050_0293;

const ECALL: u32 = 0x0000_0073;

/// RAM with the MSIP words of four harts and a word at `START`.
fn ram_with(rt: &impl Abort, alloc: Global, word: u32) -> Ram {
    let mut ram = Ram::with_msip(alloc, 65_536, 4).expect(rt, "the smallest RAM");
    put_words(rt, &mut ram, START, &[word]);
    ram
}

/// Writes an MSIP word.
fn set_msip(rt: &impl Abort, ram: &mut Ram, addr: u64, value: u64) {
    assert_eq!(rt; ram.store(addr, Size::B4, value), Ok(()));
}

/// Hart 2 after reset, but for these registers.
fn hart_with(rt: &impl Abort, mstatus: u64, mie: u64, mtvec: u64) -> Hart {
    let mut hart = Hart::new(2);
    set_csr(rt, &mut hart, MSTATUS, mstatus);
    set_csr(rt, &mut hart, MIE, mie);
    set_csr(rt, &mut hart, MTVEC, mtvec);
    hart
}

/// Each of these registers holds this.
fn check_held(rt: &impl Abort, hart: &Hart, held: &[(u16, u64)]) {
    for &(number, value) in held {
        assert_eq!(rt; hart.csr_read(number), Some(value), "{number:#x}");
    }
}

/// mstatus, mie and the MSIP word, and whether the interrupt is taken.
static TAKEN: [(u64, u64, u64, bool); 8] = [
    (0, 0, 0, false),
    (0, 0, 1, false),
    (0, BIT_3, 0, false),
    (0, BIT_3, 1, false),
    (BIT_3, 0, 0, false),
    (BIT_3, 0, 1, false),
    (BIT_3, BIT_3, 0, false),
    (BIT_3, BIT_3, 1, true),
];

fn check_taken(rt: &impl Abort, alloc: Global, (mstatus, mie, msip, taken): (u64, u64, u64, bool)) {
    let mut ram = ram_with(rt, alloc, ADDI);
    set_msip(rt, &mut ram, MSIP, msip);
    let mut hart = hart_with(rt, mstatus, mie, DIRECT);
    let mut masked = hart;
    let did = if taken {
        Did::Interrupted
    } else {
        Did::Retired
    };
    assert_eq!(rt; hart.exec(&mut ram), did);
    let x5 = if taken { 0 } else { 5 };
    assert_eq!(rt; hart.x(5), x5);
    assert_eq!(rt; masked.exec_masked(&mut ram), Did::Retired);
    assert_eq!(rt; (masked.x(5), masked.pc()), (5, START + 4));
}

#[test]
fn is_taken_where_it_is_enabled_and_pends(rt: HostRuntime) {
    for &row in &TAKEN {
        check_taken(&rt, rt.alloc(), row);
    }
}

#[test]
fn waits_while_only_another_hart_has_it(rt: HostRuntime) {
    let mut ram = ram_with(&rt, rt.alloc(), ADDI);
    set_msip(&rt, &mut ram, OTHER_MSIP, 1);
    let mut hart = hart_with(&rt, BIT_3, BIT_3, DIRECT);
    assert_eq!(rt; hart.exec(&mut ram), Did::Retired);
}

/// mtvec as it is written, and where the interrupt goes.
static HANDLERS: [(u64, u64); 4] = [
    (DIRECT, 0x8000_0200),
    (VECTORED, 0x8000_020c),
    (0x8000_0202, 0x8000_0200),
    (u64::MAX, 8),
];

fn check_handler(rt: &impl Abort, alloc: Global, (mtvec, pc): (u64, u64)) {
    let mut ram = ram_with(rt, alloc, ADDI);
    set_msip(rt, &mut ram, MSIP, 1);
    let mut hart = hart_with(rt, BIT_3, BIT_3, mtvec);
    assert_eq!(rt; hart.exec(&mut ram), Did::Interrupted);
    assert_eq!(rt; hart.pc(), pc);
    let held = [
        (MCAUSE, 0x8000_0000_0000_0003),
        (MEPC, START),
        (MTVAL, 0),
        (MSTATUS, 0x1880),
        (MIE, BIT_3),
    ];
    check_held(rt, &hart, &held);
    assert_eq!(rt; ram.load(MSIP, Size::B4), Ok(1));
}

#[test]
fn enters_its_handler(rt: HostRuntime) {
    for &row in &HANDLERS {
        check_handler(&rt, rt.alloc(), row);
    }
}

#[test]
fn exceptions_go_to_the_base_in_vectored_mode(rt: HostRuntime) {
    let mut ram = ram_with(&rt, rt.alloc(), ECALL);
    let mut hart = hart_with(&rt, BIT_3, BIT_3, VECTORED);
    assert_eq!(rt; hart.exec(&mut ram), Did::Trapped(11));
    assert_eq!(rt; hart.pc(), DIRECT);
}

#[test]
fn comes_before_the_fetch(rt: HostRuntime) {
    let mut ram = ram_with(&rt, rt.alloc(), ADDI);
    set_msip(&rt, &mut ram, MSIP, 1);
    let mut hart = hart_with(&rt, BIT_3, BIT_3, DIRECT);
    hart.set_pc(0x1000);
    assert_eq!(rt; hart.exec(&mut ram), Did::Interrupted);
    check_held(&rt, &hart, &[(MEPC, 0x1000)]);
}

/// Words on mip, what they leave in x5 of a hart with x6 = 0xaa55, and their text.
static READS: [(u32, u64, &str); 4] = [
    (0x3440_22f3, BIT_3, "csrrs x5, mip, x0"),
    (0x3443_12f3, BIT_3, "csrrw x5, mip, x6"),
    (0x3444_72f3, BIT_3, "csrrci x5, mip, 8"),
    (0x3440_12f3, BIT_3, "csrrw x5, mip, x0"),
];

#[test]
fn mip_reads_memory_and_ignores_writes(rt: HostRuntime) {
    for &(word, x5, text) in &READS {
        let mut ram = ram_with(&rt, rt.alloc(), word);
        set_msip(&rt, &mut ram, MSIP, 1);
        let mut hart = hart_with(&rt, 0, 0, DIRECT);
        hart.set_x(6, 0xaa55);
        assert_eq!(rt; hart.exec(&mut ram), Did::Retired, "{text}");
        assert_eq!(rt; hart.x(5), x5, "{text}");
        assert_eq!(rt; hart.csr_read_with(MIP, &ram), Some(BIT_3), "{text}");
        set_msip(&rt, &mut ram, MSIP, 0);
        assert_eq!(rt; hart.csr_read_with(MIP, &ram), Some(0), "{text}");
        assert_eq!(rt; hart.csr_read(MIP), Some(0), "{text}");
    }
}
