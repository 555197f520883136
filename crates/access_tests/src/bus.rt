//! Accesses by the system bus over operations whose answers are given beforehand: words of `sbcs` by the layout of RISC-V Debug Specification 1.0,
//! "System Bus Access Control and Status" (version 1, addresses of 64 bits, accesses of 1 to 8 bytes).

ghost use Rattle.std.specs.Prelude.{◌≡◌, true};

use crate::scripted::ENDED;
use arrayvec::ArrayVec;
use debug_model::ScriptedDmi;
use probe_access::{AccessFault, OddStatus, bus_load, bus_store};
use rv_model::Size;

/// No access of the bus is under way, and no error is set.
const BUS_IDLE: u32 = 0x2016_080f;

/// An access is under way.
const BUS_BUSY: u32 = 0x2036_080f;

/// The address of the accesses by the bus, and the eight bytes there.
const PLACE: u64 = 0x8000_0010;

const LOADED: u64 = 0x0123_4567_89ab_cdef;

/// `sberror` 2.
const BUS_OUTSIDE: u32 = 0x2016_280f;

/// Operations that answer so many times the first word, and then these.
fn behind(times: usize, first: u32, words: &[u32]) -> ScriptedDmi
    ensures { result.alive ≡ true }
{
    let mut answers: ArrayVec<u32, 64> = ArrayVec::new();
    for _time in 0..times {
        let _room = answers.try_push(first);
    }
    for word in words {
        let _room = answers.try_push(*word);
    }
    ScriptedDmi::new(answers)
}

/// What a load of the bus answers, behind so many words that show an access under way.
fn bus_loaded(size: Size, busy: usize, words: &[u32]) -> Result<u64, AccessFault> {
    let mut link = behind(busy, BUS_BUSY, words);
    bus_load(&mut link, size, PLACE)
}

#[test]
fn loads_by_the_bus(rt: HostRuntime) {
    let cases: [(Size, usize, &[u32], u64); 4] = [
        (Size::B8, 0, &[BUS_IDLE, 0x89ab_cdef, 0x0123_4567], LOADED),
        (Size::B4, 1, &[BUS_IDLE, 0x89ab_cdef, 7], 0x89ab_cdef),
        (Size::B2, 0, &[BUS_IDLE, 0x89ab_cdef, 7], 0xcdef),
        (Size::B1, 61, &[BUS_IDLE, 0x89ab_cdef, 7], 0xef),
    ];
    for (size, busy, words, wanted) in cases {
        assert_eq!(rt; bus_loaded(size, busy, words), Ok(wanted));
    }
}

#[test]
fn loads_by_the_bus_in_vain(rt: HostRuntime) {
    let cases: [(usize, &[u32], AccessFault); 8] = [
        (63, &[BUS_OUTSIDE], AccessFault::Memory(PLACE)),
        (64, &[], AccessFault::StillBusy),
        (
            0,
            &[0x2016_380f],
            AccessFault::Odd(OddStatus::Sbcs(0x2016_380f)),
        ),
        (
            3,
            &[0x2016_480f],
            AccessFault::Odd(OddStatus::Sbcs(0x2016_480f)),
        ),
        (
            0,
            &[0x2016_780f],
            AccessFault::Odd(OddStatus::Sbcs(0x2016_780f)),
        ),
        (
            0,
            &[0x2056_080f],
            AccessFault::Odd(OddStatus::Sbcs(0x2056_080f)),
        ),
        (0, &[0x2056_280f], AccessFault::Memory(PLACE)),
        (2, &[BUS_IDLE, 7], ENDED),
    ];
    for (busy, words, wanted) in cases {
        assert_eq!(rt; bus_loaded(Size::B8, busy, words), Err(wanted));
    }
}

#[test]
fn stores_by_the_bus(rt: HostRuntime) {
    let cases: [(usize, &[u32], Result<(), AccessFault>); 5] = [
        (0, &[BUS_IDLE], Ok(())),
        (63, &[BUS_IDLE], Ok(())),
        (64, &[], Err(AccessFault::StillBusy)),
        (63, &[BUS_OUTSIDE], Err(AccessFault::Memory(PLACE))),
        (1, &[], Err(ENDED)),
    ];
    for (busy, words, wanted) in cases {
        let mut link = behind(busy, BUS_BUSY, words);
        assert_eq!(rt; bus_store(&mut link, Size::B2, PLACE, 0xffff), wanted);
    }
}
