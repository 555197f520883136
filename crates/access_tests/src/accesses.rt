//! Accesses over operations whose answers are given beforehand: words of `abstractcs` by the layout of RISC-V Debug Specification 1.0,
//! "Abstract Control and Status" (four words of program buffer, two of data).

ghost use Rattle.std.specs.Prelude.{◌≡◌, true};

use crate::scripted::{Fault, halted};
use arrayvec::ArrayVec;
use debug_model::{DmiFault, ScriptedDmi, WireFault};
use probe_access::{AccessFault, OddStatus, is_aligned, load, reg, set_reg, store};
use rv_model::Size;

/// No command is under way, and no error is set.
const IDLE: u32 = 0x0400_0002;

/// A command is under way.
const BUSY: u32 = 0x0400_1002;

/// `cmderr` 3.
const EXCEPTION: u32 = 0x0400_0302;

/// `cmderr` 1: a data word was accessed while a command was under way.
const EARLY: u32 = 0x0400_0102;

/// No answer is left.
const ENDED: AccessFault = AccessFault::Dmi(DmiFault::Wire(WireFault::RecvFailed));

/// Operations that answer these words first, then so many busy polls, and then these words.
fn around_busy(first: &[u32], busy: usize, words: &[u32]) -> ScriptedDmi
    ensures { result.alive ≡ true }
{
    let mut answers: ArrayVec<u32, 64> = ArrayVec::new();
    for word in first {
        let _room = answers.try_push(*word);
    }
    for _poll in 0..busy {
        let _room = answers.try_push(BUSY);
    }
    for word in words {
        let _room = answers.try_push(*word);
    }
    ScriptedDmi::new(answers)
}

/// Words, busy polls and words, and how the read of a register ends.
type Read<'w> = (&'w [u32], usize, &'w [u32], Result<u64, Fault>);

/// How a call ends by a fault of an access.
fn failed<T>(fault: AccessFault) -> Result<T, Fault> {
    Err(Fault::Access(fault))
}

/// The fault of an `abstractcs` that no other names.
fn odd(word: u32) -> Result<u64, Fault> {
    failed(AccessFault::Odd(OddStatus::Abstractcs(word)))
}

/// What a read of `dpc` answers over operations that answer these words, so many busy polls, and then these words.
fn read(first: &[u32], busy: usize, words: &[u32]) -> Result<u64, Fault> {
    let halted = halted()?;
    let mut link = around_busy(first, busy, words);
    let value = reg(&mut link, &halted, 0x7b1)?;
    Ok(value)
}

/// What a write of `mhartid`, which is read-only, answers.
fn write(busy: usize, words: &[u32]) -> Result<(), Fault> {
    let halted = halted()?;
    let mut link = around_busy(&[], busy, words);
    set_reg(&mut link, &halted, 0xf14, 1)?;
    Ok(())
}

/// The address of the accesses.
const PLACE: u64 = 0x8000_0010;

/// What a load of eight bytes answers.
fn load_eight(words: &[u32]) -> Result<u64, Fault> {
    let halted = halted()?;
    let mut link = around_busy(&[], 0, words);
    let value = load(&mut link, &halted, Size::B8, PLACE)?;
    Ok(value)
}

/// What a store of a byte answers.
fn store_byte(words: &[u32]) -> Result<(), Fault> {
    let halted = halted()?;
    let mut link = around_busy(&[], 0, words);
    store(&mut link, &halted, Size::B1, PLACE, 0xff)?;
    Ok(())
}

#[test]
fn reads_a_register(rt: HostRuntime) {
    let refused = failed(AccessFault::Register(0x7b1));
    let cases: [Read; 9] = [
        (
            &[0x0123_4567, 0x89ab_cdef],
            0,
            &[IDLE],
            Ok(0x0123_4567_89ab_cdef),
        ),
        (&[0, 7], 1, &[IDLE], Ok(7)),
        (&[1, 0], 61, &[IDLE], Ok(0x1_0000_0000)),
        (&[0, 0], 60, &[EXCEPTION, EXCEPTION], refused),
        (&[0, 0], 0, &[0x0400_0202, 0x0400_0202], odd(0x0400_0202)),
        (&[0, 0], 0, &[EXCEPTION, 0x0400_0402], odd(0x0400_0402)),
        (&[0, 0], 0, &[0x0400_0702, 0x0400_0702], odd(0x0400_0702)),
        (&[0], 0, &[], failed(ENDED)),
        (&[0, 7], 2, &[], failed(ENDED)),
    ];
    for (first, busy, words, wanted) in cases {
        assert_eq!(rt; read(first, busy, words), wanted);
    }
}

#[test]
fn reads_a_register_again_that_was_touched_too_early(rt: HostRuntime) {
    let cases: [Read; 6] = [
        (&[5, 5], 0, &[EARLY, IDLE, 7, 0], Ok(7)),
        (&[5, 5], 3, &[EARLY, BUSY, IDLE, 7, 1], Ok(0x1_0000_0007)),
        (&[5, 5], 0, &[EARLY, EARLY], odd(EARLY)),
        (
            &[5, 5],
            0,
            &[EARLY, EXCEPTION],
            failed(AccessFault::Register(0x7b1)),
        ),
        (&[5, 5], 0, &[EARLY], failed(ENDED)),
        (&[5, 5], 0, &[EARLY, IDLE, 7], failed(ENDED)),
    ];
    for (first, busy, words, wanted) in cases {
        assert_eq!(rt; read(first, busy, words), wanted);
    }
}

#[test]
fn writes_a_register(rt: HostRuntime) {
    let cases: [(usize, &[u32], Result<(), Fault>); 5] = [
        (0, &[IDLE], Ok(())),
        (63, &[IDLE], Ok(())),
        (64, &[], failed(AccessFault::StillBusy)),
        (0, &[EXCEPTION], failed(AccessFault::Register(0xf14))),
        (3, &[], failed(ENDED)),
    ];
    for (busy, words, wanted) in cases {
        assert_eq!(rt; write(busy, words), wanted);
    }
}

#[test]
fn loads(rt: HostRuntime) {
    let cases: [(&[u32], Result<u64, Fault>); 7] = [
        (&[0, 8, IDLE, IDLE, 0x66, 0x55, IDLE], Ok(0x66_0000_0055)),
        (
            &[0, 8, IDLE, IDLE, 0x66, 0x55, BUSY, IDLE],
            Ok(0x66_0000_0055),
        ),
        (
            &[0, 8, IDLE, EXCEPTION, IDLE],
            failed(AccessFault::Memory(PLACE)),
        ),
        (
            &[0, 8, IDLE, 0x0400_0102],
            failed(AccessFault::Odd(OddStatus::Abstractcs(0x0400_0102))),
        ),
        (
            &[0, 8, IDLE, EXCEPTION, 0x0400_0402],
            failed(AccessFault::Odd(OddStatus::Abstractcs(0x0400_0402))),
        ),
        (&[0, 8, IDLE, IDLE, 0x66, 0x55], failed(ENDED)),
        (
            &[0, 0, EXCEPTION, EXCEPTION],
            failed(AccessFault::Register(0x1008)),
        ),
    ];
    for (words, wanted) in cases {
        assert_eq!(rt; load_eight(words), wanted);
    }
}

#[test]
fn loads_again_what_was_touched_too_early(rt: HostRuntime) {
    let loaded = Ok(0x66_0000_0055);
    let cases: [(&[u32], Result<u64, Fault>); 6] = [
        (
            &[0, 8, IDLE, IDLE, 5, 5, EARLY, 0x66, 0x55, IDLE, IDLE],
            loaded,
        ),
        (&[5, 5, EARLY, IDLE, 8, 0, IDLE, 0x66, 0x55, IDLE], loaded),
        (
            &[
                0, 8, IDLE, IDLE, 5, 5, BUSY, EARLY, 5, 5, EARLY, IDLE, 0x55, 0x66, IDLE,
            ],
            loaded,
        ),
        (&[0, 8, IDLE, IDLE, 5, 5, EARLY], failed(ENDED)),
        (
            &[0, 8, IDLE, IDLE, 5, 5, EARLY, 0x66, 0x55, IDLE],
            failed(ENDED),
        ),
        (
            &[0, 8, IDLE, IDLE, 5, 5, EARLY, 0x66, 0x55, IDLE, 0x0400_0402],
            odd(0x0400_0402),
        ),
    ];
    for (words, wanted) in cases {
        assert_eq!(rt; load_eight(words), wanted);
    }
}

#[test]
fn stores(rt: HostRuntime) {
    let cases: [(&[u32], Result<(), Fault>); 3] = [
        (&[0, 8, IDLE, 0, 9, IDLE, IDLE, IDLE, IDLE, IDLE], Ok(())),
        (
            &[0, 8, IDLE, 0, 9, IDLE, IDLE, EXCEPTION, IDLE, IDLE],
            failed(AccessFault::Memory(PLACE)),
        ),
        (
            &[0, 8, IDLE, 0, 9, IDLE, IDLE, EXCEPTION, IDLE],
            failed(ENDED),
        ),
    ];
    for (words, wanted) in cases {
        assert_eq!(rt; store_byte(words), wanted);
    }
}

#[test]
fn aligns(rt: HostRuntime) {
    let cases = [
        (Size::B1, 0x8000_0001, true),
        (Size::B2, 0x8000_0001, false),
        (Size::B4, 0x8000_0004, true),
        (Size::B8, 0x8000_0004, false),
        (Size::B8, u64::MAX - 7, true),
    ];
    for (size, address, wanted) in cases {
        assert_eq!(rt; is_aligned(size, address), wanted);
    }
}
