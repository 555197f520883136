use crate::BusUnit;
use rv_mem::{Ram, RamFault};
use rv_model::Size;
use std::alloc::Global;
use std::process::Abort;

/// RAM's first address, and the one behind its last byte.
const FIRST: u64 = 0x8000_0000;

const RAM_SIZE: u64 = 65_536;

const END: u64 = FIRST + RAM_SIZE;

/// `sbcs` after reset, with `sbaccess` for 1, 4 and 8 bytes, and the bits of its other fields.
const RESET: u32 = 0x2004_080f;

const BYTES: u32 = 0;

const WORDS: u32 = 0x0004_0000;

const DOUBLES: u32 = 0x0006_0000;

const BUSY_ERROR: u32 = 0x0040_0000;

const BUSY: u32 = 0x0020_0000;

const READ_ON_ADDRESS: u32 = 0x0010_0000;

const AUTOINCREMENT: u32 = 0x0001_0000;

const READ_ON_DATA: u32 = 0x0000_8000;

const ALL_ERRORS: u32 = 0x0000_7000;

fn ram(alloc: Global) -> Result<Ram, RamFault> {
    let mut ram = Ram::new(alloc, RAM_SIZE)?;
    let _ = ram.store(FIRST, Size::B8, 0x8877_6655_4433_2211);
    let _ = ram.store(END - 8, Size::B8, 0xffee_ddcc_bbaa_9988);
    Ok(ram)
}

/// Puts an address without a read.
fn aim(bus: &mut BusUnit, address: u64) {
    bus.write_sbaddress1((address >> 32) as u32);
    bus.write_sbaddress0((address & 0xffff_ffff) as u32);
}

fn address(bus: &mut BusUnit) -> u64 {
    u64::from(bus.read_sbaddress0()) + (u64::from(bus.read_sbaddress1()) << 32)
}

/// The data, without a read of sbdata0 that could start an access: `sbreadondata` is 0.
fn data(bus: &mut BusUnit) -> u64 {
    u64::from(bus.read_sbdata0()) + (u64::from(bus.read_sbdata1()) << 32)
}

/// A bus with these bits of `sbcs` and this address.
fn bus_with(sbcs: u32, address: u64) -> BusUnit {
    let mut bus = BusUnit::new();
    aim(&mut bus, address);
    bus.write_sbcs(sbcs);
    bus
}

#[test]
fn reads_back_what_was_written(rt: HostRuntime) {
    let mut bus = BusUnit::new();
    assert_eq!(rt; bus.sbcs(), RESET);
    aim(&mut bus, 0x0123_4567_89ab_cdef);
    bus.write_sbdata1(0xfedc_ba98);
    assert_eq!(rt; address(&mut bus), 0x0123_4567_89ab_cdef);
    assert_eq!(rt; data(&mut bus), 0xfedc_ba98_0000_0000);
    // Version, sizes and widths are not written, and without errors none is cleared.
    bus.write_sbcs(0xffff_ffff);
    assert_eq!(rt; bus.sbcs(), 0x201f_880f);
    bus.write_sbcs(0);
    assert_eq!(rt; bus.sbcs(), 0x2000_080f);
}

#[test]
fn reads_each_size_where_it_is_asked(rt: HostRuntime) {
    let mut ram = ram(rt.alloc()).expect(&rt, "the smallest RAM");
    // sbaccess, the address, and what a read of that size gives, zero extended.
    let cases = [
        (BYTES, FIRST + 7, 0x88),
        (0x0002_0000, FIRST + 6, 0x8877),
        (WORDS, FIRST + 4, 0x8877_6655),
        (DOUBLES, FIRST, 0x8877_6655_4433_2211),
        (BYTES, END - 1, 0xff),
        (DOUBLES, END - 8, 0xffee_ddcc_bbaa_9988),
    ];
    for (size, at, value) in cases {
        // A write of sbaddress0 starts the read, one of sbaddress1 does not, and the address grows only where that is set.
        let mut bus = bus_with(size | READ_ON_ADDRESS, 0);
        bus.write_sbaddress1((at >> 32) as u32);
        assert!(rt; !bus.done(&mut ram));
        bus.write_sbaddress0((at & 0xffff_ffff) as u32);
        assert_eq!(rt; bus.sbcs(), 0x2000_080f | size | READ_ON_ADDRESS | BUSY);
        assert!(rt; bus.done(&mut ram));
        assert!(rt; !bus.done(&mut ram));
        assert_eq!(rt; data(&mut bus), value);
        assert_eq!(rt; address(&mut bus), at);
        assert_eq!(rt; bus.sbcs(), 0x2000_080f | size | READ_ON_ADDRESS);
    }
    // A read of sbdata0 gives the value before the access that it starts.
    let mut bus = bus_with(BYTES | READ_ON_DATA | AUTOINCREMENT, FIRST);
    for (before, behind) in [(0x00, 1), (0x11, 2), (0x22, 3)] {
        assert_eq!(rt; bus.read_sbdata0(), before);
        assert!(rt; bus.done(&mut ram));
        assert_eq!(rt; address(&mut bus), FIRST + behind);
    }
}

#[test]
fn writes_each_size_where_it_is_asked(rt: HostRuntime) {
    let cases = [
        (BYTES, FIRST, 1, 0x8877_6655_4433_22a0),
        (0x0002_0000, FIRST, 2, 0x8877_6655_4433_b1a0),
        (WORDS, FIRST, 4, 0x8877_6655_d3c2_b1a0),
        (DOUBLES, FIRST, 8, 0x1716_1514_d3c2_b1a0),
    ];
    for (size, at, grown, value) in cases {
        let mut ram = ram(rt.alloc()).expect(&rt, "the smallest RAM");
        let mut bus = bus_with(size | AUTOINCREMENT, at);
        bus.write_sbdata1(0x1716_1514);
        assert!(rt; !bus.is_busy());
        bus.write_sbdata0(0xd3c2_b1a0);
        assert!(rt; bus.is_busy());
        assert!(rt; bus.done(&mut ram));
        assert_eq!(rt; ram.load(FIRST, Size::B8), Ok(value));
        assert_eq!(rt; address(&mut bus), at + grown);
    }
}

/// What a write of sbdata0 leaves at an address: the bits of `sberror`, and the address.
fn try_write(rt: &impl Abort, ram: &mut Ram, sbcs: u32, at: u64, accessed: bool) -> (u32, u64) {
    let mut bus = bus_with(sbcs, at);
    bus.write_sbdata1(0x0102_0304);
    bus.write_sbdata0(0x0506_0708);
    assert_eq!(rt; bus.done(ram), accessed, "{at}");
    (bus.sbcs() & ALL_ERRORS, address(&mut bus))
}

#[test]
fn tells_why_an_access_failed(rt: HostRuntime) {
    let mut ram = ram(rt.alloc()).expect(&rt, "the smallest RAM");
    // sbcs, the address, whether an access was made, sberror in its place, the address behind.
    let cases = [
        (DOUBLES | AUTOINCREMENT, END, true, 0x2000, END),
        (BYTES | AUTOINCREMENT, FIRST - 1, true, 0x2000, FIRST - 1),
        (WORDS | AUTOINCREMENT, END - 4, true, 0, END),
        (BYTES | AUTOINCREMENT, u64::MAX, true, 0x2000, u64::MAX),
        (WORDS | AUTOINCREMENT, FIRST + 2, false, 0x3000, FIRST + 2),
        (DOUBLES, END - 4, false, 0x3000, END - 4),
        (0x0008_0000, FIRST, false, 0x4000, FIRST),
        (0x000e_0000, FIRST + 1, false, 0x4000, FIRST + 1),
    ];
    for (sbcs, at, accessed, error, behind) in cases {
        let left = try_write(&rt, &mut ram, sbcs, at, accessed);
        assert_eq!(rt; left, (error, behind));
    }
    assert_eq!(rt; ram.load(FIRST, Size::B8), Ok(0x8877_6655_4433_2211));
    assert_eq!(rt; ram.load(END - 8, Size::B8), Ok(0x0506_0708_bbaa_9988));
}

#[test]
fn does_nothing_while_an_error_is_set(rt: HostRuntime) {
    let mut ram = ram(rt.alloc()).expect(&rt, "the smallest RAM");
    // sbcs and an address that leave the error, and the bits of sberror that a write of 1 to each of its bits leaves.
    let cases = [
        (WORDS, END, 0x2000, [0x2000, 0, 0x2000]),
        (WORDS, FIRST + 1, 0x3000, [0x2000, 0x1000, 0x3000]),
        (0x0008_0000, FIRST, 0x4000, [0x4000, 0x4000, 0]),
    ];
    for (sbcs, at, error, cleared) in cases {
        for (bit, left) in [
            (0x1000, cleared[0]),
            (0x2000, cleared[1]),
            (0x4000, cleared[2]),
        ] {
            let mut bus = bus_with(sbcs, at);
            bus.write_sbdata0(5);
            bus.done(&mut ram);
            assert_eq!(rt; bus.sbcs() & ALL_ERRORS, error);
            bus.write_sbcs(DOUBLES | READ_ON_ADDRESS | READ_ON_DATA);
            bus.write_sbdata0(6);
            assert_eq!(rt; bus.read_sbdata0(), 5);
            aim(&mut bus, FIRST);
            assert!(rt; !bus.is_busy());
            bus.write_sbcs(bit);
            assert_eq!(rt; bus.sbcs() & ALL_ERRORS, left);
        }
    }
}

#[test]
fn notes_each_access_while_busy(rt: HostRuntime) {
    let mut ram = ram(rt.alloc()).expect(&rt, "the smallest RAM");
    for case in 0..10 {
        let mut bus = bus_with(DOUBLES, FIRST);
        bus.write_sbdata1(2);
        bus.write_sbdata0(1);
        let word = match case {
            0 => bus.read_sbaddress0(),
            1 => bus.read_sbaddress1(),
            2 => bus.read_sbdata0(),
            3 => bus.read_sbdata1(),
            _ => 0,
        };
        let wanted = if case == 0 {
            0x8000_0000
        } else if case == 2 {
            1
        } else if case == 3 {
            2
        } else {
            0
        };
        assert_eq!(rt; word, wanted);
        match case {
            4 => bus.write_sbcs(BUSY_ERROR | AUTOINCREMENT),
            5 => bus.write_sbaddress0(0x8000_0010),
            6 => bus.write_sbaddress1(1),
            7 => bus.write_sbdata0(7),
            8 => bus.write_sbdata1(7),
            _ => {}
        }
        // A read of sbcs is no such access.
        let noted = if case < 9 { BUSY_ERROR } else { 0 };
        assert_eq!(rt; bus.sbcs(), 0x2000_080f | DOUBLES | BUSY | noted);
        assert!(rt; bus.done(&mut ram));
        assert_eq!(rt; ram.load(FIRST, Size::B8), Ok(0x0000_0002_0000_0001));
        assert_eq!(rt; address(&mut bus), FIRST);
        // With it set nothing starts, until it is written 1.
        bus.write_sbdata0(9);
        assert_eq!(rt; bus.is_busy(), case == 9);
        bus.write_sbcs(DOUBLES);
        assert_eq!(rt;
            bus.sbcs() & BUSY_ERROR,
            if case == 9 { BUSY_ERROR } else { noted }
        );
        bus.write_sbcs(DOUBLES | BUSY_ERROR);
        assert_eq!(rt;
            bus.sbcs() & BUSY_ERROR,
            if case == 9 { BUSY_ERROR } else { 0 }
        );
    }
}
