//! What is read of files that have no fault.

use super::files::{Header, SMALL, load, made};
use crate::{Segment, read_elf};
use std::process::Abort;
use std::rt::HostRuntime;
use std::test::Fail;

/// The file is read, with these segments.
fn check(rt: &impl Abort, file: &[u8], segments: &[Segment]) -> Result<(), Fail> {
    let elf = read_elf(file)?;
    assert_eq!(rt; elf.entry, 0x8000_0004);
    assert_eq!(rt; elf.segments.as_slice(), segments);
    Ok(())
}

#[test]
fn the_small_file(rt: HostRuntime) -> Result<(), Fail> {
    check(
        &rt,
        &SMALL,
        &[Segment {
            offset: 120,
            address: 0x8000_0000,
            in_file: 12,
            in_memory: 16,
        }],
    )
}

#[test]
fn headers_of_other_segments_are_skipped(rt: HostRuntime) -> Result<(), Fail> {
    let note = Header {
        kind: 4,
        offset: u64::MAX,
        address: u64::MAX,
        in_file: 9,
        in_memory: 8,
    };
    let attributes = Header {
        kind: 0x7000_0003,
        ..note
    };
    let odd = Header {
        kind: 0x0100_0001,
        ..note
    };
    let headers = [note, load(64, 7, 1, 2), attributes, odd, load(0, 0, 0, 0)];
    let file = made(rt.alloc(), &headers, 0)?;
    let first = Segment {
        offset: 64,
        address: 7,
        in_file: 1,
        in_memory: 2,
    };
    check(&rt, &file, &[first, Segment::default()])
}

#[test]
fn a_segment_of_zeros_needs_no_bytes(rt: HostRuntime) -> Result<(), Fail> {
    let file = made(rt.alloc(), &[load(120, 0x8000_0000, 0, 4096)], 0)?;
    check(
        &rt,
        &file,
        &[Segment {
            offset: 120,
            address: 0x8000_0000,
            in_file: 0,
            in_memory: 4096,
        }],
    )
}

#[test]
fn segments_may_overlap(rt: HostRuntime) -> Result<(), Fail> {
    let file = made(
        rt.alloc(),
        &[load(64, 16, 8, 8), load(64, 12, 8, 8), load(64, 16, 8, 8)],
        0,
    )?;
    let first = Segment {
        offset: 64,
        address: 16,
        in_file: 8,
        in_memory: 8,
    };
    let second = Segment {
        address: 12,
        ..first
    };
    check(&rt, &file, &[first, second, first])
}

#[test]
fn a_segment_may_end_with_the_addresses_and_with_the_file(rt: HostRuntime) -> Result<(), Fail> {
    let file = made(
        rt.alloc(),
        &[load(119, u64::MAX - 7, 2, 8), load(121, u64::MAX, 0, 1)],
        1,
    )?;
    let first = Segment {
        offset: 119,
        address: u64::MAX - 7,
        in_file: 2,
        in_memory: 8,
    };
    let second = Segment {
        offset: 121,
        address: u64::MAX,
        in_file: 0,
        in_memory: 1,
    };
    check(&rt, &file, &[first, second])
}

#[test]
fn a_table_of_64_headers_may_end_the_file(rt: HostRuntime) -> Result<(), Fail> {
    let file = made(rt.alloc(), &[load(0, 1, 2, 3); 64], 0)?;
    check(
        &rt,
        &file,
        &[Segment {
            offset: 0,
            address: 1,
            in_file: 2,
            in_memory: 3,
        }; 64],
    )
}

// 16,384 elements: 7 bytes up to a multiple of 8, then 16,376 of 8 bytes, then one byte.
#[test]
fn elements_are_counted_by_bytes_and_words(rt: HostRuntime) -> Result<(), Fail> {
    let size = 7 + 8 * 16_376 + 1;
    let file = made(rt.alloc(), &[load(0, 0x8000_0001, 0, size)], 0)?;
    check(
        &rt,
        &file,
        &[Segment {
            offset: 0,
            address: 0x8000_0001,
            in_file: 0,
            in_memory: size,
        }],
    )?;
    let file = made(
        rt.alloc(),
        &[load(0, 8, 0, 8 * 16_383), load(0, 8, 0, 8)],
        0,
    )?;
    let first = Segment {
        offset: 0,
        address: 8,
        in_file: 0,
        in_memory: 8 * 16_383,
    };
    check(
        &rt,
        &file,
        &[
            first,
            Segment {
                in_memory: 8,
                ..first
            },
        ],
    )
}
