use crate::Slots;
use rv_model::register_number::{TDATA1, TDATA2, TINFO, TSELECT};
use rv_model::{SlotSet, Touch, Version};

/// `tdata1` of a free slot.
const FREE: u64 = 0xf800_0000_0000_0000;

/// `tdata1` of a breakpoint, and of watches of loads, stores and both.
const BREAK: u64 = 0x6800_0000_0000_1044;

const WATCH_LOAD: u64 = 0x6800_0000_0000_1041;

const WATCH_STORE: u64 = 0x6800_0000_0000_1042;

const WATCH_ACCESS: u64 = 0x6800_0000_0000_1043;

/// `match` 2, or 3, in place of 0.
const AT_LEAST: u64 = 0x100;

const BELOW: u64 = 0x180;

/// `hit0` of an address trigger.
const HIT: u64 = 0x40_0000;

/// `tdata1` of the same on a hart of release 0.13: type 2, with `hit` in bit 20
/// (RISC-V External Debug Support 0.13.2, "Match Control").
const BREAK_V013: u64 = 0x2800_0000_0000_1044;

const WATCH_LOAD_V013: u64 = 0x2800_0000_0000_1041;

const WATCH_STORE_V013: u64 = 0x2800_0000_0000_1042;

const WATCH_ACCESS_V013: u64 = 0x2800_0000_0000_1043;

const HIT_V013: u64 = 0x10_0000;

/// `tdata1` of a count of 3, and of what is left of it.
const COUNT_OF_THREE: u64 = 0x3800_0000_0000_0e01;

const COUNT_OF_TWO: u64 = 0x3800_0000_0000_0a01;

const COUNT_OF_ONE: u64 = 0x3800_0000_0000_0601;

const PENDING: u64 = 0x3800_0000_0000_0301;

const COUNTED: u64 = 0x3800_0000_0100_0201;

/// The address of the first word of RAM.
const FIRST: u64 = 0x8000_0000;

/// Where an access goes on at address 0 behind its fourth byte.
const LAST_WORD: u64 = 0xffff_ffff_ffff_fffc;

/// Slots of which one has these registers.
fn with_slot(place: u64, tdata1: u64, tdata2: u64) -> Slots {
    let mut slots = Slots::new();
    let _ = slots.write_csr(TSELECT, place);
    let _ = slots.write_csr(TDATA1, tdata1);
    let _ = slots.write_csr(TDATA2, tdata2);
    slots
}

fn executes(pc: u64) -> Touch {
    Touch {
        pc,
        load: None,
        store: None,
    }
}

fn loads(addr: u64, count: u8) -> Touch {
    Touch {
        pc: FIRST,
        load: Some((addr, count)),
        store: None,
    }
}

fn stores(addr: u64, count: u8) -> Touch {
    Touch {
        pc: FIRST,
        load: None,
        store: Some((addr, count)),
    }
}

/// What an atomic memory operation touches.
fn updates(addr: u64, count: u8) -> Touch {
    Touch {
        pc: FIRST,
        load: Some((addr, count)),
        store: Some((addr, count)),
    }
}

#[test]
fn tdata1_keeps_what_is_writable(rt: HostRuntime) {
    let cases = [
        (0x6fff_ffff_ffff_ffff, 0x6800_0000_0040_1047),
        (0x6000_0000_0000_0000, 0x6800_0000_0000_1000),
        (0x6000_0000_0000_0080, 0x6800_0000_0000_1000),
        (0x6000_0000_0000_0100, 0x6800_0000_0000_1100),
        (0x6000_0000_0000_0180, 0x6800_0000_0000_1180),
        (BREAK, BREAK),
        (WATCH_LOAD, WATCH_LOAD),
        (WATCH_STORE, WATCH_STORE),
        (WATCH_ACCESS, WATCH_ACCESS),
        (0x3fff_ffff_ffff_ffff, 0x3800_0000_01ff_ff01),
        (0x3000_0000_0000_0000, 0x3800_0000_0000_0001),
        (COUNT_OF_THREE, COUNT_OF_THREE),
        (u64::MAX, FREE),
        (FREE, FREE),
        (0x2fff_ffff_ffff_ffff, FREE),
        (0x7fff_ffff_ffff_ffff, FREE),
        (0, FREE),
    ];
    for (written, kept) in cases {
        let slots = with_slot(2, written, u64::MAX);
        assert_eq!(rt; slots.read_csr(TDATA1), Some(kept));
        assert_eq!(rt; slots.read_csr(TDATA2), Some(u64::MAX));
    }
}

#[test]
fn tdata1_of_release_0_13_keeps_what_is_writable(rt: HostRuntime) {
    let cases = [
        (0x2fff_ffff_ffff_ffff, 0x2800_0000_0010_1047),
        (0x2000_0000_0000_0000, 0x2800_0000_0000_1000),
        (0x2000_0000_0000_0080, 0x2800_0000_0000_1000),
        (0x2000_0000_0000_0100, 0x2800_0000_0000_1100),
        (0x2000_0000_0000_0180, 0x2800_0000_0000_1180),
        (0x2000_0000_0040_0000, 0x2800_0000_0000_1000),
        (BREAK_V013, BREAK_V013),
        (BREAK_V013 + HIT_V013, BREAK_V013 + HIT_V013),
        (WATCH_LOAD_V013, WATCH_LOAD_V013),
        (WATCH_STORE_V013, WATCH_STORE_V013),
        (WATCH_ACCESS_V013, WATCH_ACCESS_V013),
        (COUNT_OF_THREE, COUNT_OF_THREE),
        (FREE, FREE),
        (BREAK, FREE),
        (0x6fff_ffff_ffff_ffff, FREE),
        (0x7fff_ffff_ffff_ffff, FREE),
        (0, FREE),
    ];
    for (written, kept) in cases {
        let mut slots = Slots::of_version(Version::V013);
        assert!(rt; slots.write_csr(TDATA1, written));
        assert_eq!(rt; slots.read_csr(TDATA1), Some(kept));
    }
    let mut slots = Slots::of_version(Version::V013);
    assert_eq!(rt; slots.read_csr(TINFO), Some(0x800c));
    assert!(rt; slots.write_csr(TDATA1, BREAK_V013));
    assert!(rt; slots.write_csr(TDATA2, FIRST));
    assert_eq!(rt; slots.fires(&executes(FIRST)), SlotSet(1));
    slots.mark(SlotSet(1));
    assert_eq!(rt; slots.read_csr(TDATA1), Some(BREAK_V013 + HIT_V013));
}

#[test]
fn tselect_names_the_slot(rt: HostRuntime) {
    let mut slots = Slots::new();
    for place in 0..4 {
        assert!(rt; slots.write_csr(TSELECT, place));
        assert_eq!(rt; slots.read_csr(TDATA1), Some(FREE));
        assert_eq!(rt; slots.read_csr(TDATA2), Some(0));
        assert!(rt; slots.write_csr(TDATA2, place + 10));
    }
    for (written, kept) in [(4, 0), (7, 3), (2, 2), (0xffff_fffd, 1)] {
        assert!(rt; slots.write_csr(TSELECT, written));
        assert_eq!(rt; slots.read_csr(TSELECT), Some(kept));
        assert_eq!(rt; slots.read_csr(TDATA2), Some(kept + 10));
    }
    assert!(rt; slots.write_csr(TINFO, 0));
    assert_eq!(rt; slots.read_csr(TINFO), Some(0x0100_8048));
    for number in [0x79f, 0x7a3, 0x7a5, 0x7b0, 0x300] {
        assert!(rt; !slots.write_csr(number, 0));
        assert_eq!(rt; slots.read_csr(number), None);
    }
    assert_eq!(rt; slots.read_csr(TSELECT), Some(1));
    assert_eq!(rt; slots.read_csr(TDATA2), Some(11));
}

#[test]
fn a_slot_fires_at_each_byte(rt: HostRuntime) {
    let cases = [
        (BREAK, FIRST, executes(FIRST), true),
        (BREAK, FIRST, executes(FIRST + 4), false),
        (BREAK + AT_LEAST, FIRST, executes(FIRST - 4), false),
        (BREAK + AT_LEAST, FIRST, executes(FIRST), true),
        (BREAK + BELOW, FIRST, executes(FIRST - 4), true),
        (BREAK + BELOW, FIRST, executes(FIRST), false),
        (WATCH_LOAD, FIRST + 7, loads(FIRST, 8), true),
        (WATCH_LOAD, FIRST + 7, loads(FIRST, 4), false),
        (WATCH_LOAD, FIRST + 7, loads(FIRST + 4, 4), true),
        (WATCH_LOAD, FIRST + 7, loads(FIRST + 7, 1), true),
        (WATCH_LOAD, FIRST + 7, stores(FIRST, 8), false),
        (WATCH_LOAD, FIRST + 7, executes(FIRST + 7), false),
        (WATCH_LOAD - 0x40, FIRST + 7, loads(FIRST, 8), false),
        (WATCH_STORE, FIRST - 1, stores(FIRST, 8), false),
        (WATCH_STORE, FIRST, stores(FIRST, 8), true),
        (WATCH_STORE, FIRST + 1, stores(FIRST, 8), true),
        (WATCH_STORE, FIRST + 2, stores(FIRST, 8), true),
        (WATCH_STORE, FIRST + 3, stores(FIRST, 8), true),
        (WATCH_STORE, FIRST + 4, stores(FIRST, 8), true),
        (WATCH_STORE, FIRST + 5, stores(FIRST, 8), true),
        (WATCH_STORE, FIRST + 6, stores(FIRST, 8), true),
        (WATCH_STORE, FIRST + 7, stores(FIRST, 8), true),
        (WATCH_STORE, FIRST + 8, stores(FIRST, 8), false),
        (WATCH_LOAD, FIRST, updates(FIRST, 4), true),
        (WATCH_STORE, FIRST, updates(FIRST, 4), true),
        (WATCH_ACCESS, FIRST, loads(FIRST, 1), true),
        (WATCH_ACCESS, FIRST, stores(FIRST, 1), true),
        (WATCH_ACCESS, FIRST, executes(FIRST), false),
        (WATCH_LOAD + AT_LEAST, FIRST + 8, loads(FIRST, 8), false),
        (WATCH_LOAD + AT_LEAST, FIRST + 8, loads(FIRST + 1, 8), true),
        (WATCH_LOAD + BELOW, FIRST, loads(FIRST, 8), false),
        (WATCH_LOAD + BELOW, FIRST, loads(FIRST - 1, 8), true),
        (WATCH_LOAD, 3, loads(LAST_WORD, 8), true),
        (WATCH_LOAD, 4, loads(LAST_WORD, 8), false),
        (WATCH_LOAD, u64::MAX, loads(LAST_WORD, 8), true),
        (WATCH_LOAD, LAST_WORD - 1, loads(LAST_WORD, 8), false),
        (WATCH_LOAD + AT_LEAST, u64::MAX, loads(LAST_WORD, 8), true),
        (WATCH_LOAD + BELOW, 1, loads(LAST_WORD, 8), true),
        (WATCH_LOAD + BELOW, 0, loads(LAST_WORD, 8), false),
        (WATCH_LOAD + BELOW, 1, loads(LAST_WORD, 4), false),
        (COUNT_OF_THREE, FIRST, executes(FIRST), false),
        (PENDING, FIRST, executes(FIRST), true),
        (PENDING - 0x200, FIRST, executes(FIRST), false),
        (FREE, FIRST, executes(FIRST), false),
    ];
    for (tdata1, tdata2, touch, fires) in cases {
        let expected = if fires { SlotSet(2) } else { SlotSet(0) };
        assert_eq!(rt; with_slot(1, tdata1, tdata2).fires(&touch), expected);
    }
}

#[test]
fn a_count_stops_once(rt: HostRuntime) {
    let mut slots = with_slot(3, COUNT_OF_THREE, 0);
    for left in [COUNT_OF_THREE, COUNT_OF_TWO, COUNT_OF_ONE] {
        assert_eq!(rt; slots.read_csr(TDATA1), Some(left));
        assert_eq!(rt; slots.fires(&executes(FIRST)), SlotSet(0));
        slots.retired();
    }
    assert_eq!(rt; slots.read_csr(TDATA1), Some(PENDING));
    assert_eq!(rt; slots.fires(&executes(FIRST)), SlotSet(8));
    slots.mark(SlotSet(8));
    for _ in 0..2 {
        assert_eq!(rt; slots.read_csr(TDATA1), Some(COUNTED));
        assert_eq!(rt; slots.fires(&executes(FIRST)), SlotSet(0));
        slots.retired();
    }
    // A count that is off stays.
    let mut off = with_slot(0, COUNT_OF_THREE - 0x200, 0);
    off.retired();
    assert_eq!(rt; off.read_csr(TDATA1), Some(COUNT_OF_THREE - 0x200));
}

#[test]
fn slots_that_fire_together_take_their_hits(rt: HostRuntime) {
    let mut slots = with_slot(0, BREAK, FIRST);
    let _ = slots.write_csr(TSELECT, 1);
    let _ = slots.write_csr(TDATA1, BREAK);
    let _ = slots.write_csr(TSELECT, 2);
    let _ = slots.write_csr(TDATA1, PENDING);
    let fired = slots.fires(&executes(FIRST));
    assert_eq!(rt; fired, SlotSet(5));
    assert!(rt; slots.any_armed());
    slots.mark(fired);
    for (place, tdata1) in [
        (0, BREAK + HIT),
        (1, BREAK),
        (2, 0x3800_0000_0100_0201),
        (3, FREE),
    ] {
        let _ = slots.write_csr(TSELECT, place);
        assert_eq!(rt; slots.read_csr(TDATA1), Some(tdata1));
    }
    // A hit does not keep a slot from firing.
    assert_eq!(rt; slots.fires(&executes(FIRST)), SlotSet(1));
    assert!(rt; !Slots::new().any_armed());
}
