//! The table and its calls over operations whose answers are given beforehand: words of `sbcs` by the layout of RISC-V Debug Specification 1.0, "System Bus
//! Access Control and Status" (version 1, addresses of 64 bits, accesses of 1 to 8 bytes), and of memory by the unprivileged manual's encodings.

ghost use Rattle.std.specs.Prelude.{◌≡◌, true};

use crate::fault::SoftFault;
use crate::table::{PATCHES_MOST, SoftTable};
use arrayvec::ArrayVec;
use debug_model::ScriptedDmi;
use probe_access::AccessFault;
use rv_model::Size;

/// Where RAM begins.
const RAM_BASE: u64 = 0x8000_0000;

/// No access of the bus is under way, and no error is set.
const BUS_IDLE: u32 = 0x2016_080f;

/// `sberror` 2.
const BUS_OUTSIDE: u32 = 0x2016_280f;

/// `jal x0, -4`, and the address that it stands at.
const JUMP: u32 = 0xffdf_f06f;

const PLACE: u64 = 0x8000_0008;

/// A word was read by the bus, and one stored.
const TAKEN: [u32; 4] = [BUS_IDLE, JUMP, 0, BUS_IDLE];

/// Operations that answer these words.
fn answering(words: &[u32]) -> ScriptedDmi
    ensures { result.alive ≡ true }
{
    let mut answers: ArrayVec<u32, 64> = ArrayVec::new();
    for word in words {
        let _room = answers.try_push(*word);
    }
    ScriptedDmi::new(answers)
}

/// What setting a breakpoint answers, over operations with these answers; none at an address that may have none.
fn set(table: &mut SoftTable, at: u64, words: &[u32]) -> Option<Result<(), SoftFault>> {
    if at % 4 != 0 || at < RAM_BASE {
        return None;
    }
    let mut link = answering(words);
    Some(table.plant(&mut link, at))
}

/// What taking one out answers.
fn clear(table: &mut SoftTable, at: u64, words: &[u32]) -> Option<Result<(), SoftFault>> {
    if at % 4 != 0 || at < RAM_BASE {
        return None;
    }
    let mut link = answering(words);
    Some(table.unplant(&mut link, at))
}

#[test]
fn sets_thirty_two_and_no_more(rt: HostRuntime) {
    let mut table = SoftTable::new();
    for number in 0..32 {
        let at = 0x8000_0100 - 4 * number;
        assert_eq!(rt; set(&mut table, at, &TAKEN), Some(Ok(())));
    }
    assert_eq!(rt; table.patches().len(), PATCHES_MOST);
    assert_eq!(rt; table.patches().first().copied(), Some(0x8000_0084));
    assert_eq!(rt; table.patches().last().copied(), Some(0x8000_0100));
    assert_eq!(rt;
        set(&mut table, 0x8000_0104, &TAKEN),
        Some(Err(SoftFault::Full))
    );
    assert_eq!(rt;
        set(&mut table, 0x8000_0100, &TAKEN),
        Some(Err(SoftFault::Set))
    );
    assert_eq!(rt; table.planted(0x8000_0104), false);
    assert_eq!(rt; clear(&mut table, 0x8000_0100, &[BUS_IDLE]), Some(Ok(())));
    assert_eq!(rt; set(&mut table, 0x8000_0104, &TAKEN), Some(Ok(())));
    assert_eq!(rt;
        clear(&mut table, 0x8000_0100, &[BUS_IDLE]),
        Some(Err(SoftFault::NotSet))
    );
}

#[test]
fn leaves_the_table_behind_a_fault(rt: HostRuntime) {
    let mut table = SoftTable::new();
    let refused = Some(Err(SoftFault::Access(AccessFault::Memory(PLACE))));
    assert_eq!(rt; set(&mut table, PLACE, &[BUS_OUTSIDE]), refused);
    assert_eq!(rt;
        set(&mut table, PLACE, &[BUS_IDLE, JUMP, 0, BUS_OUTSIDE]),
        refused
    );
    assert_eq!(rt; table.planted(PLACE), false);
    assert_eq!(rt; set(&mut table, PLACE, &TAKEN), Some(Ok(())));
    assert_eq!(rt; clear(&mut table, PLACE, &[BUS_OUTSIDE]), refused);
    assert_eq!(rt; table.planted(PLACE), true);
    assert_eq!(rt; table.hide(Size::B4, PLACE, 0x0010_0073), 0xffdf_f06f);
}

#[test]
fn hides_the_ebreak_from_what_is_read(rt: HostRuntime) {
    let mut table = SoftTable::new();
    assert_eq!(rt; set(&mut table, PLACE, &TAKEN), Some(Ok(())));
    assert_eq!(rt; table.hide(Size::B4, 0x8000_0008, 0x0010_0073), 0xffdf_f06f);
    assert_eq!(rt;
        table.hide(Size::B8, 0x8000_0008, 0x1122_3344_0010_0073),
        0x1122_3344_ffdf_f06f
    );
    assert_eq!(rt; table.hide(Size::B2, 0x8000_0008, 0x0073), 0xf06f);
    assert_eq!(rt; table.hide(Size::B2, 0x8000_000a, 0x0010), 0xffdf);
    assert_eq!(rt; table.hide(Size::B1, 0x8000_0009, 0), 0xf0);
    assert_eq!(rt;
        table.hide(Size::B8, 0x8000_0000, 0x0010_0073_0010_0073),
        0x0010_0073_0010_0073
    );
    assert_eq!(rt; table.hide(Size::B4, 0x8000_000c, 0x0010_0073), 0x0010_0073);
}

#[test]
fn keeps_the_ebreak_in_what_is_written(rt: HostRuntime) {
    let mut table = SoftTable::new();
    assert_eq!(rt; set(&mut table, PLACE, &TAKEN), Some(Ok(())));
    assert_eq!(rt; table.merge(Size::B2, 0x8000_000a, 0x1234), 0x0010);
    assert_eq!(rt; table.hide(Size::B4, PLACE, 0x0010_0073), 0x1234_f06f);
    assert_eq!(rt;
        table.merge(Size::B8, 0x8000_0008, 0x1122_3344_5566_7788),
        0x1122_3344_0010_0073
    );
    assert_eq!(rt; table.hide(Size::B4, PLACE, 0x0010_0073), 0x5566_7788);
    assert_eq!(rt; table.merge(Size::B1, 0x8000_000b, 0x99), 0);
    assert_eq!(rt; table.hide(Size::B4, PLACE, 0x0010_0073), 0x9966_7788);
    assert_eq!(rt;
        table.merge(Size::B4, 0x8000_0004, 0x5566_7788),
        0x5566_7788
    );
}
