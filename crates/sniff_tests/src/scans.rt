//! Scans and their lines, as docs/FORMATS.md has them under "Sniffed lines".

use crate::streams::{
    IDCODE_ANSWERS, RESET, TO_IDLE, TO_SHIFT_DR, check, dmi_scan, join, scan_behind, times,
    write_bits,
};
use std::alloc::Global;
use std::process::Abort;
use std::test::Fail;
use wire_sniff::SniffEnd;

#[test]
fn the_idcode_is_a_scan(rt: HostRuntime) -> Result<(), Fail> {
    let alloc = rt.alloc();
    let stream = scan_behind(alloc, 31)?;
    let line = "dr 0x01 32 0x0000000000000000 0x0000000010d64001\n";
    check(&rt, alloc, &stream, IDCODE_ANSWERS, SniffEnd::Clean, line)?;
    for given in [31, 0] {
        let end = SniffEnd::Count {
            asked: 32,
            given: given as u64,
        };
        check(&rt, alloc, &stream, &IDCODE_ANSWERS[..given], end, "")?;
    }
    let end = SniffEnd::Count {
        asked: 31,
        given: 32,
    };
    let stream = scan_behind(alloc, 30)?;
    check(&rt, alloc, &stream, IDCODE_ANSWERS, end, "")
}

/// A write of 1 to dmcontrol, with these two answers first: its taken bits, and what it shows beside them.
fn check_write(
    rt: &impl Abort,
    alloc: Global,
    status: &[u8],
    taken: &str,
    shown: &str,
) -> Result<(), Fail> {
    let bits = write_bits(alloc)?;
    let stream = dmi_scan(alloc, &bits)?;
    let zeros = times(alloc, b"0", 39)?;
    let answers = join(alloc, &[status, &zeros])?;
    let scan = "ir 0x11\ndr 0x11 41 0x0000004000000006 0x";
    let lines = format!(in alloc; "{scan}{taken}\ndmi {shown}\n")?;
    check(rt, alloc, &stream, &answers, SniffEnd::Clean, &lines)
}

#[test]
fn a_write_is_an_operation(rt: HostRuntime) -> Result<(), Fail> {
    let alloc = rt.alloc();
    let done = "write 0x10 0x00000001";
    check_write(&rt, alloc, b"00", "0000000000000000", done)?;
    check_write(&rt, alloc, b"10", "0000000000000001", "busy")?;
    check_write(&rt, alloc, b"01", "0000000000000002", "failed")?;
    check_write(&rt, alloc, b"11", "0000000000000003", "busy")
}

/// A scan of address 0x7f and value 0xffffffff behind these two bits: its given bits, and what it shows beside them.
fn check_op(
    rt: &impl Abort,
    alloc: Global,
    op: &[u8],
    given: &str,
    shown: &str,
) -> Result<(), Fail> {
    let ones = times(alloc, b"1R5", 38)?;
    let bits = join(alloc, &[op, &ones, b"3R7"])?;
    let stream = dmi_scan(alloc, &bits)?;
    let answers = times(alloc, b"0", 41)?;
    let lines = format!(in alloc; "ir 0x11\ndr 0x11 41 0x{given} 0x0000000000000000\n{shown}")?;
    check(rt, alloc, &stream, &answers, SniffEnd::Clean, &lines)
}

#[test]
fn the_field_op_tells_the_operation(rt: HostRuntime) -> Result<(), Fail> {
    let alloc = rt.alloc();
    check_op(&rt, alloc, b"0R40R4", "000001fffffffffc", "")?;
    check_op(&rt, alloc, b"1R50R4", "000001fffffffffd", "dmi read 0x7f\n")?;
    let write = "dmi write 0x7f 0xffffffff\n";
    check_op(&rt, alloc, b"0R41R5", "000001fffffffffe", write)?;
    check_op(&rt, alloc, b"1R51R5", "000001ffffffffff", "")
}

/// A read of address 0 whose first bits these are: what it shows behind its given bits.
fn check_read(
    rt: &impl Abort,
    alloc: Global,
    first: &[u8],
    answers: &[u8],
    shown: &str,
) -> Result<(), Fail> {
    let zeros = times(alloc, b"04", 38)?;
    let bits = join(alloc, &[first, &zeros, b"26"])?;
    let stream = dmi_scan(alloc, &bits)?;
    let lines = format!(in alloc; "ir 0x11\ndr 0x11 41 0x0000000000000001 -\ndmi {shown}\n")?;
    check(rt, alloc, &stream, answers, SniffEnd::Clean, &lines)
}

#[test]
fn what_nobody_asked_is_unseen(rt: HostRuntime) -> Result<(), Fail> {
    let alloc = rt.alloc();
    check_read(&rt, alloc, b"1504", b"", "unseen")?;
    check_read(&rt, alloc, b"1R504", b"0", "unseen")?;
    check_read(&rt, alloc, b"150R4", b"0", "unseen")?;
    check_read(&rt, alloc, b"1R50R4", b"00", "read 0x00")
}

#[test]
fn a_question_is_about_the_next_rise(rt: HostRuntime) -> Result<(), Fail> {
    let alloc = rt.alloc();
    // the clock of the one bit, the answers, and the taken bit
    let cases: [(&[u8], &[u8], &str); 5] = [
        (b"2R6", b"1", "0x0000000000000001"),
        (b"2RR6", b"10", "0x0000000000000000"),
        (b"2RR6", b"01", "0x0000000000000001"),
        (b"2R2b2Bs6", b"1", "0x0000000000000001"),
        (b"R26", b"1", "-"),
    ];
    for (clock, answers, taken) in cases {
        let stream = join(alloc, &[RESET, TO_SHIFT_DR, clock, TO_IDLE])?;
        let lines = format!(in alloc; "dr 0x01 1 0x0000000000000000 {taken}\n")?;
        check(&rt, alloc, &stream, answers, SniffEnd::Clean, &lines)?;
    }
    Ok(())
}
