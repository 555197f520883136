//! Streams of signs, and whether they have the wanted lines. The signs are OpenOCD's, and the paths those of IEEE 1149.1.

use jt_base::MemorySink;
use std::alloc::{AllocError, Global};
use std::process::Abort;
use std::test::Fail;
use wire_sniff::{SniffEnd, sniff};

/// The room of a sink that takes all lines of a test.
pub const AMPLE: usize = 4096;

/// From anywhere to Run-Test/Idle, through Test-Logic-Reset.
pub const RESET: &[u8] = b"262626262604";

/// From Run-Test/Idle to Shift-DR.
pub const TO_SHIFT_DR: &[u8] = b"260404";

/// From Run-Test/Idle to Shift-IR.
pub const TO_SHIFT_IR: &[u8] = b"26260404";

/// From an Exit1 state to Run-Test/Idle, through the Update state.
pub const TO_IDLE: &[u8] = b"2604";

/// The five bits of the instruction 0x11, the lowest first, unasked.
pub const SELECT_DMI: &[u8] = b"1504040437";

/// The 32 answers to a scan of the IDCODE 0x10d64001.
pub const IDCODE_ANSWERS: &[u8] = b"10000000000000100110101100001000";

/// The 41 asked bits of a write of 1 to dmcontrol, at 0x10.
pub fn write_bits(alloc: Global) -> Result<Vec<u8>, AllocError> {
    let mut bits = b"0R41R51R5".to_vec(alloc)?;
    let zeros = times(alloc, b"0R4", 35)?;
    bits.extend_from_slice(&zeros)?;
    bits.extend_from_slice(b"1R50R42R6")?;
    Ok(bits)
}

/// So many copies of some bytes.
pub fn times(alloc: Global, bytes: &[u8], count: u32) -> Result<Vec<u8>, AllocError> {
    let mut all = Vec::new(alloc);
    for _ in 0..count {
        all.extend_from_slice(bytes)?;
    }
    Ok(all)
}

pub fn join(alloc: Global, pieces: &[&[u8]]) -> Result<Vec<u8>, AllocError> {
    let mut all = Vec::new(alloc);
    for piece in pieces {
        all.extend_from_slice(piece)?;
    }
    Ok(all)
}

/// A reset, and a scan of so many bits of the data register and one more, each asked, and back.
pub fn scan_behind(alloc: Global, count: u32) -> Result<Vec<u8>, AllocError> {
    let bits = times(alloc, b"0R4", count)?;
    join(alloc, &[RESET, TO_SHIFT_DR, &bits, b"2R6", TO_IDLE])
}

/// Selects dmi, and scans these bits of it.
pub fn dmi_scan(alloc: Global, bits: &[u8]) -> Result<Vec<u8>, AllocError> {
    join(
        alloc,
        &[
            RESET,
            TO_SHIFT_IR,
            SELECT_DMI,
            TO_IDLE,
            TO_SHIFT_DR,
            bits,
            TO_IDLE,
        ],
    )
}

/// The stream and its answers end so, and these lines are put.
pub fn check(
    rt: &impl Abort,
    alloc: Global,
    stream: &[u8],
    answers: &[u8],
    wanted: SniffEnd,
    lines: &str,
) -> Result<(), Fail> {
    let mut out = MemorySink::new(alloc, AMPLE, Vec::new(alloc))?;
    assert_eq!(rt; sniff(stream, answers, &mut out), wanted);
    assert_eq!(rt; out.bytes(), lines.as_bytes());
    Ok(())
}
