//! What the path of a stream makes of a scan: its length, pauses, resets and captures without an update.

use crate::streams::{
    IDCODE_ANSWERS, RESET, SELECT_DMI, TO_IDLE, TO_SHIFT_DR, TO_SHIFT_IR, check, dmi_scan, join,
    scan_behind, times,
};
use std::alloc::Global;
use std::process::Abort;
use std::test::Fail;
use wire_sniff::SniffEnd;

/// A scan of so many bits of the data register of which each is answered by 1.
fn check_ones(rt: &impl Abort, alloc: Global, count: u32, line: &str) -> Result<(), Fail> {
    let stream = scan_behind(alloc, count.saturating_sub(1))?;
    let answers = times(alloc, b"1", count)?;
    check(rt, alloc, &stream, &answers, SniffEnd::Clean, line)
}

#[test]
fn long_and_empty_scans(rt: HostRuntime) -> Result<(), Fail> {
    let alloc = rt.alloc();
    let line = "dr 0x01 64 0x0000000000000000 0xffffffffffffffff\n";
    check_ones(&rt, alloc, 64, line)?;
    check_ones(&rt, alloc, 65, "dr 0x01 65 long\n")?;
    check_ones(&rt, alloc, 1000, "dr 0x01 1000 long\n")?;
    // from Capture-DR over Exit1-DR, with IDCODE and with dmi
    let empty: &[u8] = b"260426";
    let line = "dr 0x01 0 0x0000000000000000 0x0000000000000000\n";
    let stream = join(alloc, &[RESET, empty, TO_IDLE])?;
    check(&rt, alloc, &stream, b"", SniffEnd::Clean, line)?;
    let stream = join(
        alloc,
        &[RESET, TO_SHIFT_IR, SELECT_DMI, TO_IDLE, empty, TO_IDLE],
    )?;
    let lines = "ir 0x11\ndr 0x11 0 0x0000000000000000 0x0000000000000000\ndmi odd\n";
    check(&rt, alloc, &stream, b"", SniffEnd::Clean, lines)
}

/// A scan of so many zeros of dmi and one more, which is not as long as its register.
fn check_odd(rt: &impl Abort, alloc: Global, before: u32, count: &str) -> Result<(), Fail> {
    let zeros = times(alloc, b"0R4", before)?;
    let bits = join(alloc, &[&zeros, b"2R6"])?;
    let stream = dmi_scan(alloc, &bits)?;
    let answers = times(alloc, b"0", before)?;
    let answers = join(alloc, &[&answers, b"0"])?;
    let no_bits = "0x0000000000000000";
    let lines = format!(in alloc; "ir 0x11\ndr 0x11 {count} {no_bits} {no_bits}\ndmi odd\n")?;
    check(rt, alloc, &stream, &answers, SniffEnd::Clean, &lines)
}

#[test]
fn dmi_has_41_bits(rt: HostRuntime) -> Result<(), Fail> {
    let alloc = rt.alloc();
    check_odd(&rt, alloc, 39, "40")?;
    check_odd(&rt, alloc, 41, "42")
}

#[test]
fn a_scan_goes_on_behind_a_pause(rt: HostRuntime) -> Result<(), Fail> {
    let alloc = rt.alloc();
    let bits = times(alloc, b"0R4", 15)?;
    // from Exit1-DR to Pause-DR, a clock there, and over Exit2-DR back to Shift-DR
    let pause: &[u8] = b"04042604";
    let stream = join(
        alloc,
        &[
            RESET,
            TO_SHIFT_DR,
            &bits,
            b"2R6",
            pause,
            &bits,
            b"2R6",
            TO_IDLE,
        ],
    )?;
    let line = "dr 0x01 32 0x0000000000000000 0x0000000010d64001\n";
    check(&rt, alloc, &stream, IDCODE_ANSWERS, SniffEnd::Clean, line)
}

#[test]
fn an_instruction_keeps_the_last_five_bits(rt: HostRuntime) -> Result<(), Fail> {
    let alloc = rt.alloc();
    // the bits, and what five more leave of the captured 00001
    let cases: [(&[u8], &str); 4] = [
        (SELECT_DMI, "ir 0x11\n"),
        (b"151515151537", "ir 0x1f\n"),
        (b"26", "ir 0x00\n"),
        (b"37", "ir 0x10\n"),
    ];
    for (bits, line) in cases {
        let stream = join(alloc, &[RESET, TO_SHIFT_IR, bits, TO_IDLE])?;
        check(&rt, alloc, &stream, b"", SniffEnd::Clean, line)?;
    }
    // none at all: over Exit1-IR
    let stream = join(alloc, &[RESET, b"26260426", TO_IDLE])?;
    check(&rt, alloc, &stream, b"", SniffEnd::Clean, "ir 0x01\n")
}

#[test]
fn a_reset_cuts_a_scan_and_selects_idcode(rt: HostRuntime) -> Result<(), Fail> {
    let alloc = rt.alloc();
    let scan: &[u8] = b"260404262604";
    let idcode = "dr 0x01 1 0x0000000000000000 -\n";
    let dmi = "dr 0x11 1 0x0000000000000000 -\ndmi odd\n";
    // TRST in Shift-DR, with a clock under it; TRST in Update-DR, before its fall; Test-Logic-Reset over Select-IR; and TRST 0 alone
    let cases: [(&[u8], &str); 4] = [
        (b"2604040404t04r04", idcode),
        (b"2604042626us04", idcode),
        (b"26262604", idcode),
        (b"rs", dmi),
    ];
    for (between, shown) in cases {
        let stream = join(
            alloc,
            &[RESET, TO_SHIFT_IR, SELECT_DMI, TO_IDLE, between, scan],
        )?;
        let lines = format!(in alloc; "ir 0x11\n{shown}")?;
        check(&rt, alloc, &stream, b"", SniffEnd::Clean, &lines)?;
    }
    Ok(())
}

#[test]
fn a_capture_without_an_update_is_no_scan(rt: HostRuntime) -> Result<(), Fail> {
    let alloc = rt.alloc();
    // in Shift-DR, in Pause-DR, and in Update-DR before its fall
    let cases: [&[u8]; 4] = [
        b"26040404",
        b"26040426042604",
        b"2604042626",
        b"2604042626Q0",
    ];
    for cut in cases {
        let stream = join(alloc, &[RESET, cut])?;
        check(&rt, alloc, &stream, b"", SniffEnd::Clean, "")?;
    }
    Ok(())
}
