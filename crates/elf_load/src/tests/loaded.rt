//! Files that are stored over operations whose answers are given beforehand: words of `sbcs` by the layout of RISC-V Debug Specification 1.0,
//! "System Bus Access Control and Status" (version 1, addresses of 64 bits, accesses of 1 to 8 bytes). Each run of stores reads one of them, its poll, and
//! behind an error the address of the element that was refused and the data, each in two words.

ghost use Rattle.std.specs.Prelude.{◌≡◌, true};

use super::files::{SMALL, load, made};
use crate::{load_elf, read_elf};
use arrayvec::ArrayVec;
use debug_model::{Dmi, DmiFault, Sbcs, ScriptedDmi, WireFault};
use probe_access::AccessFault;
use std::process::Abort;
use std::rt::HostRuntime;
use std::test::Fail;

/// No access of the bus is under way, and no error is set.
const BUS_IDLE: u32 = 0x2016_080f;

/// `sberror` 2: the address lies outside memory.
const BUS_OUTSIDE: u32 = 0x2016_280f;

/// What stands behind the answers that are wanted.
const MARK: u32 = 0x5a5a_5a5a;

/// These answers behind those to the polls of so many runs, each of which was stored.
fn answering_behind(stored: usize, words: &[u32]) -> ScriptedDmi
    ensures { result.alive ≡ true }
{
    let mut answers: ArrayVec<u32, 64> = ArrayVec::new();
    for _run in 0..stored {
        let _room = answers.try_push(BUS_IDLE);
    }
    for word in words {
        let _room = answers.try_push(*word);
    }
    ScriptedDmi::new(answers)
}

/// The file's stores are at these addresses, in order, those of one run in one call, and it has so many bytes in memory.
fn check(rt: &impl Abort, file: &[u8], runs: &[&[u64]], size: u64) -> Result<(), Fail> {
    let elf = read_elf(file)?;
    for (stored, run) in runs.iter().enumerate() {
        for address in run.iter() {
            let words = [
                BUS_OUTSIDE,
                (*address >> 32) as u32,
                (*address & 0xffff_ffff) as u32,
                0,
                0,
            ];
            let mut link = answering_behind(stored, &words);
            let refused = load_elf(&mut link, &elf, file);
            assert_eq!(rt; refused, Err(AccessFault::Memory(*address)));
        }
    }
    let mut link = answering_behind(runs.len(), &[MARK]);
    let stored = load_elf(&mut link, &elf, file)?;
    assert_eq!(rt; stored, size);
    assert_eq!(rt; link.read(Sbcs::ADDRESS), Ok(MARK));
    Ok(())
}

#[test]
fn a_small_file_takes_two_stores(rt: HostRuntime) -> Result<(), Fail> {
    check(&rt, &SMALL, &[&[0x8000_0000, 0x8000_0008]], 16)
}

#[test]
fn segments_are_stored_by_bytes_and_words(rt: HostRuntime) -> Result<(), Fail> {
    let file = made(rt.alloc(), &[load(64, 0x8000_0005, 2, 13)], 0)?;
    let runs: [&[u64]; 3] = [
        &[0x8000_0005, 0x8000_0006, 0x8000_0007],
        &[0x8000_0008],
        &[0x8000_0010, 0x8000_0011],
    ];
    check(&rt, &file, &runs, 13)
}

#[test]
fn few_bytes_at_a_multiple_of_8_are_stored_one_by_one(rt: HostRuntime) -> Result<(), Fail> {
    let file = made(rt.alloc(), &[load(64, 0x8000_0000, 3, 3)], 0)?;
    check(&rt, &file, &[&[0x8000_0000, 0x8000_0001, 0x8000_0002]], 3)
}

#[test]
fn segments_that_overlap_are_stored_in_order(rt: HostRuntime) -> Result<(), Fail> {
    let headers = [
        load(64, 16, 8, 8),
        load(0, 0, 0, 0),
        load(64, 8, 0, 16),
        load(64, 16, 1, 1),
    ];
    let file = made(rt.alloc(), &headers, 0)?;
    check(&rt, &file, &[&[16], &[8, 16], &[16]], 25)
}

#[test]
fn a_segment_is_stored_up_to_the_last_address(rt: HostRuntime) -> Result<(), Fail> {
    let file = made(rt.alloc(), &[load(64, u64::MAX - 8, 9, 9)], 0)?;
    check(&rt, &file, &[&[u64::MAX - 8], &[u64::MAX - 7]], 9)
}

// the third run is that of the word behind 1024
#[test]
fn a_run_has_at_most_512_elements(rt: HostRuntime) -> Result<(), Fail> {
    let file = made(rt.alloc(), &[load(64, 0x8000_0000, 0, 8 * 1025)], 0)?;
    let elf = read_elf(&file)?;
    let mut link = answering_behind(3, &[MARK]);
    assert_eq!(rt; load_elf(&mut link, &elf, &file), Ok(8 * 1025));
    assert_eq!(rt; link.read(Sbcs::ADDRESS), Ok(MARK));
    Ok(())
}

#[test]
fn nothing_is_stored_of_a_file_without_bytes(rt: HostRuntime) -> Result<(), Fail> {
    let file = made(rt.alloc(), &[load(64, 0x8000_0000, 0, 0)], 0)?;
    check(&rt, &file, &[], 0)
}

#[test]
fn a_link_that_fails_ends_the_loading(rt: HostRuntime) -> Result<(), Fail> {
    let elf = read_elf(&SMALL)?;
    let mut link = ScriptedDmi::new(ArrayVec::new());
    let lost = Err(AccessFault::Dmi(DmiFault::Wire(WireFault::RecvFailed)));
    assert_eq!(rt; load_elf(&mut link, &elf, &SMALL), lost);
    Ok(())
}
