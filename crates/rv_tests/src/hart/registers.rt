//! The registers of a hart (privileged manual, "Machine-Level CSRs").

use super::{MCAUSE, MEPC, MSCRATCH, MSTATUS, MTVAL, MTVEC, START};
use rv_hart::{CsrFault, Hart};
use std::process::Abort;

/// Number, value at reset, whether it is read-only, value behind a write of all ones.
static REGISTERS: [(u16, u64, bool, u64); 13] = [
    (MSTATUS, 0x1800, false, 0x1888),
    (0x301, 0x8000_0000_0000_1101, false, 0x8000_0000_0000_1101),
    (0x304, 0, false, 8),
    (MTVEC, 0, false, u64::MAX - 2),
    (MSCRATCH, 0, false, u64::MAX),
    (MEPC, 0, false, u64::MAX - 3),
    (MCAUSE, 0, false, u64::MAX),
    (MTVAL, 0, false, u64::MAX),
    (0x344, 0, false, 0),
    (0xf11, 0, true, 0),
    (0xf12, 0, true, 0),
    (0xf13, 0, true, 0),
    (0xf14, 3, true, 3),
];

fn check_register(rt: &impl Abort, (number, reset, read_only, kept): (u16, u64, bool, u64)) {
    let mut hart = Hart::new(3);
    assert_eq!(rt; hart.csr_read(number), Some(reset), "{number:#x}");
    let answer = hart.csr_write(number, u64::MAX);
    let refused = read_only.then_some(CsrFault::ReadOnly);
    assert_eq!(rt; answer.err(), refused, "{number:#x}");
    assert_eq!(rt; hart.csr_read(number), Some(kept), "{number:#x}");
}

#[test]
fn has_the_registers_of_the_table(rt: HostRuntime) {
    for &row in &REGISTERS {
        check_register(&rt, row);
    }
}

fn check_absent(rt: &impl Abort, number: u16) {
    let mut hart = Hart::new(3);
    let answer = hart.csr_write(number, u64::MAX);
    assert_eq!(rt; answer, Err(CsrFault::Absent), "{number:#x}");
    assert_eq!(rt; hart.csr_read(number), None, "{number:#x}");
    assert_eq!(rt; hart, Hart::new(3), "{number:#x}");
}

#[test]
fn has_no_other_registers(rt: HostRuntime) {
    for number in [
        0, 0x302, 0x306, 0x7a0, 0x7b0, 0x7b1, 0xb00, 0xf10, 0xf15, 0xfff, 0x1000,
    ] {
        check_absent(&rt, number);
    }
}

#[test]
fn keeps_x_and_pc(rt: HostRuntime) {
    let all = u64::MAX;
    let mut hart = Hart::new(3);
    assert_eq!(rt; (hart.id(), hart.pc()), (3, START));
    for r in 0..32 {
        assert_eq!(rt; hart.x(r), 0, "x{r}");
        hart.set_x(r, all);
        assert_eq!(rt; hart.x(r), if r == 0 { 0 } else { all }, "x{r}");
    }
    hart.set_pc(all);
    assert_eq!(rt; hart.pc(), all - 3);
}
