//! Each fault, and which of two comes first.

use super::files::{Header, SMALL, changed, load, made};
use crate::{Elf, ElfFault, read_elf};
use std::alloc::Global;
use std::process::Abort;
use std::rt::HostRuntime;
use std::test::Fail;

/// The fault, where the file has one.
fn fault_of(answer: Result<Elf, ElfFault>) -> Option<ElfFault> {
    match answer {
        Ok(_) => None,
        Err(fault) => Some(fault),
    }
}

/// The small file with other bytes at a place has this fault.
fn check_changed(
    rt: &impl Abort,
    alloc: Global,
    at: usize,
    bytes: &[u8],
    fault: ElfFault,
) -> Result<(), Fail> {
    let file = changed(alloc, at, bytes)?;
    assert_eq!(rt; fault_of(read_elf(&file)), Some(fault), "{bytes:?} at {at}");
    Ok(())
}

/// A file with these program headers, and so many bytes behind them, has this fault or none.
fn check_made(
    rt: &impl Abort,
    alloc: Global,
    headers: &[Header],
    behind: usize,
    fault: Option<ElfFault>,
) -> Result<(), Fail> {
    let file = made(alloc, headers, behind)?;
    assert_eq!(rt; fault_of(read_elf(&file)), fault);
    Ok(())
}

#[test]
fn a_file_that_ends_within_its_header_is_short(rt: HostRuntime) {
    assert_eq!(rt; fault_of(read_elf(&[])), Some(ElfFault::Short));
    assert_eq!(rt; fault_of(read_elf(&SMALL[..63])), Some(ElfFault::Short));
    assert_eq!(rt; fault_of(read_elf(&SMALL[..64])), Some(ElfFault::Headers));
}

#[test]
fn other_first_bytes_are_no_elf(rt: HostRuntime) -> Result<(), Fail> {
    for at in 0..4 {
        check_changed(&rt, rt.alloc(), at, &[b'e'], ElfFault::NotElf)?;
    }
    Ok(())
}

#[test]
fn other_kinds_are_refused(rt: HostRuntime) -> Result<(), Fail> {
    check_changed(&rt, rt.alloc(), 4, &[1], ElfFault::Kind)?;
    check_changed(&rt, rt.alloc(), 5, &[2], ElfFault::Kind)?;
    check_changed(&rt, rt.alloc(), 6, &[0], ElfFault::Kind)?;
    check_changed(&rt, rt.alloc(), 16, &[1, 0], ElfFault::Kind)?;
    check_changed(&rt, rt.alloc(), 16, &[3, 0], ElfFault::Kind)?;
    check_changed(&rt, rt.alloc(), 16, &[2, 1], ElfFault::Kind)?;
    check_changed(&rt, rt.alloc(), 18, &[62, 0], ElfFault::Kind)?;
    check_changed(&rt, rt.alloc(), 18, &[243, 1], ElfFault::Kind)?;
    check_changed(&rt, rt.alloc(), 20, &[0], ElfFault::Kind)?;
    check_changed(&rt, rt.alloc(), 20, &[1, 0, 0, 1], ElfFault::Kind)
}

#[test]
fn headers_of_another_size_or_number_are_refused(rt: HostRuntime) -> Result<(), Fail> {
    check_changed(&rt, rt.alloc(), 54, &[55, 0], ElfFault::Headers)?;
    check_changed(&rt, rt.alloc(), 54, &[57, 0], ElfFault::Headers)?;
    check_changed(&rt, rt.alloc(), 54, &[56, 1], ElfFault::Headers)?;
    check_changed(&rt, rt.alloc(), 56, &[0, 0], ElfFault::Headers)?;
    check_changed(&rt, rt.alloc(), 56, &[0, 1], ElfFault::Headers)?;
    check_made(&rt, rt.alloc(), &[], 200, Some(ElfFault::Headers))?;
    check_made(&rt, rt.alloc(), &[load(0, 0, 0, 0); 64], 0, None)?;
    check_made(
        &rt,
        rt.alloc(),
        &[load(0, 0, 0, 0); 65],
        0,
        Some(ElfFault::Headers),
    )
}

#[test]
fn a_table_lies_within_the_file(rt: HostRuntime) -> Result<(), Fail> {
    check_changed(&rt, rt.alloc(), 32, &[77], ElfFault::Headers)?;
    check_changed(&rt, rt.alloc(), 32, &[255; 8], ElfFault::Headers)?;
    check_changed(&rt, rt.alloc(), 56, &[2, 0], ElfFault::Headers)?;
    let file = changed(rt.alloc(), 32, &[76])?;
    assert_eq!(rt;
        fault_of(read_elf(&file)),
        None,
        "the table ends with the file"
    );
    Ok(())
}

#[test]
fn segments_lie_within_file_and_addresses(rt: HostRuntime) -> Result<(), Fail> {
    let bad = Some(ElfFault::Segment);
    check_made(&rt, rt.alloc(), &[load(120, 0, 1, 1)], 0, bad)?;
    check_made(&rt, rt.alloc(), &[load(120, 0, 1, 1)], 1, None)?;
    check_made(&rt, rt.alloc(), &[load(121, 0, 0, 0)], 0, bad)?;
    check_made(&rt, rt.alloc(), &[load(u64::MAX, 0, 2, 2)], 0, bad)?;
    check_made(&rt, rt.alloc(), &[load(2, 0, u64::MAX, u64::MAX)], 0, bad)?;
    check_made(&rt, rt.alloc(), &[load(64, 0, 9, 8)], 0, bad)?;
    check_made(&rt, rt.alloc(), &[load(64, u64::MAX - 7, 8, 8)], 0, None)?;
    check_made(&rt, rt.alloc(), &[load(64, u64::MAX - 7, 8, 9)], 0, bad)?;
    check_made(
        &rt,
        rt.alloc(),
        &[load(64, 1, 0, u64::MAX)],
        0,
        Some(ElfFault::TooLarge),
    )?;
    check_made(&rt, rt.alloc(), &[load(64, 2, 0, u64::MAX)], 0, bad)?;
    check_made(
        &rt,
        rt.alloc(),
        &[load(64, 0, 8, 8), load(64, 0, 9, 8)],
        0,
        bad,
    )
}

#[test]
fn a_file_has_at_most_16384_elements(rt: HostRuntime) -> Result<(), Fail> {
    let large = Some(ElfFault::TooLarge);
    check_made(&rt, rt.alloc(), &[load(0, 8, 0, 8 * 16_384)], 0, None)?;
    check_made(&rt, rt.alloc(), &[load(0, 8, 0, 8 * 16_384 + 1)], 0, large)?;
    check_made(&rt, rt.alloc(), &[load(0, 1, 0, 7 + 8 * 16_377)], 0, None)?;
    check_made(
        &rt,
        rt.alloc(),
        &[load(0, 1, 0, 7 + 8 * 16_377 + 1)],
        0,
        large,
    )?;
    check_made(
        &rt,
        rt.alloc(),
        &[load(0, 8, 0, 8 * 16_383), load(0, 1, 0, 1)],
        0,
        None,
    )?;
    check_made(
        &rt,
        rt.alloc(),
        &[load(0, 8, 0, 8 * 16_383), load(0, 1, 0, 2)],
        0,
        large,
    )?;
    check_made(&rt, rt.alloc(), &[load(0, 0, 0, 1 << 63); 64], 0, large)
}

#[test]
fn the_first_of_two_faults_counts(rt: HostRuntime) -> Result<(), Fail> {
    let zeros = [0; 64];
    assert_eq!(rt; fault_of(read_elf(&zeros[..63])), Some(ElfFault::Short));
    assert_eq!(rt; fault_of(read_elf(&zeros)), Some(ElfFault::NotElf));
    check_changed(&rt, rt.alloc(), 3, &[0, 0], ElfFault::NotElf)?;
    let mut file = changed(rt.alloc(), 18, &[62])?;
    file.truncate(64);
    assert_eq!(rt; fault_of(read_elf(&file)), Some(ElfFault::Kind));
    let bad = load(0, 0, 2, 1);
    let large = load(0, 0, 0, 1 << 40);
    check_made(&rt, rt.alloc(), &[bad; 65], 0, Some(ElfFault::Headers))?;
    check_made(&rt, rt.alloc(), &[large, bad], 0, Some(ElfFault::Segment))?;
    check_made(&rt, rt.alloc(), &[bad, large], 0, Some(ElfFault::Segment))
}

/// The fault has this number and this text.
fn check_text(
    rt: &impl Abort,
    alloc: Global,
    fault: ElfFault,
    number: u8,
    text: &str,
) -> Result<(), Fail> {
    assert_eq!(rt; fault.number(), number);
    assert_eq!(rt; format!(in alloc; "{fault}")?.as_str(), text);
    Ok(())
}

#[test]
fn faults_have_numbers_and_say_what_to_do(rt: HostRuntime) -> Result<(), Fail> {
    check_text(
        &rt,
        rt.alloc(),
        ElfFault::Short,
        11,
        "the file ends within its header: give a whole ELF file",
    )?;
    check_text(
        &rt,
        rt.alloc(),
        ElfFault::NotElf,
        12,
        "the file isn't an ELF file: give the executable that the linker made",
    )?;
    check_text(
        &rt,
        rt.alloc(),
        ElfFault::Kind,
        13,
        "the file isn't a 64-bit executable for RISC-V: link it for riscv64 at fixed addresses, neither shared nor position-independent",
    )?;
    check_text(
        &rt,
        rt.alloc(),
        ElfFault::Headers,
        14,
        "the file hasn't 1 to 64 whole program headers of 56 bytes: link it with fewer segments, and give the whole file",
    )?;
    check_text(
        &rt,
        rt.alloc(),
        ElfFault::Segment,
        15,
        "a segment passes the end of the file or of the addresses, or is cut in memory: link it again, and give the whole file",
    )?;
    check_text(
        &rt,
        rt.alloc(),
        ElfFault::TooLarge,
        16,
        "the segments take more than 16384 stores: link a smaller program, or leave memory of zeros out of its segments",
    )
}
