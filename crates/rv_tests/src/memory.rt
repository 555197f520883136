//! RAM and its reservations.

use rv_mem::{Ram, RamFault};
use rv_model::{MemFault, Size};
use std::alloc::Global;
use std::process::Abort;

/// The first address of RAM, and the first one past the smallest RAM.
const FIRST: u64 = 0x8000_0000;

const END: u64 = 0x8001_0000;

const SIZES: [Size; 4] = [Size::B1, Size::B2, Size::B4, Size::B8];

/// Accesses that are refused: size, address, why.
static REFUSED: [(Size, u64, MemFault); 16] = [
    (Size::B1, END, MemFault::Outside),
    (Size::B2, END, MemFault::Outside),
    (Size::B4, END, MemFault::Outside),
    (Size::B8, END, MemFault::Outside),
    (Size::B1, FIRST - 1, MemFault::Outside),
    (Size::B8, FIRST - 8, MemFault::Outside),
    (Size::B8, 0, MemFault::Outside),
    (Size::B1, u64::MAX, MemFault::Outside),
    (Size::B8, u64::MAX - 7, MemFault::Outside),
    (Size::B2, FIRST + 1, MemFault::Misaligned),
    (Size::B4, FIRST + 2, MemFault::Misaligned),
    (Size::B8, FIRST + 4, MemFault::Misaligned),
    (Size::B2, END - 1, MemFault::Misaligned),
    (Size::B8, END - 4, MemFault::Misaligned),
    (Size::B8, END + 4, MemFault::Misaligned),
    (Size::B2, u64::MAX, MemFault::Misaligned),
];

/// Stores beside and into the reservation of the eight bytes from the ninth on: address, size, and whether it stays.
static STORES: [(u64, Size, bool); 7] = [
    (FIRST + 8, Size::B8, false),
    (FIRST + 15, Size::B1, false),
    (FIRST + 12, Size::B4, false),
    (FIRST + 7, Size::B1, true),
    (FIRST + 16, Size::B8, true),
    (END, Size::B8, true),
    (FIRST + 14, Size::B4, true),
];

/// The smallest RAM.
fn smallest(rt: &impl Abort, alloc: Global) -> Ram {
    Ram::new(alloc, 65_536).expect(rt, "the smallest RAM")
}

fn check_good_size(rt: &impl Abort, alloc: Global, size: u64) {
    let ram = Ram::new(alloc, size).expect(rt, "a good size");
    assert_eq!(rt; ram.size(), size, "{size}");
    let last = FIRST.wrapping_add(size).wrapping_sub(8);
    assert_eq!(rt; ram.load(last, Size::B8), Ok(0), "{size}");
}

fn check_bad_size(rt: &impl Abort, alloc: Global, size: u64) {
    let answer = Ram::new(alloc, size);
    assert_eq!(rt; answer.err(), Some(RamFault::BadSize), "{size}");
}

#[test]
fn makes_ram_of_a_good_size(rt: HostRuntime) {
    for size in [65_536, 69_632, 16_777_216] {
        check_good_size(&rt, rt.alloc(), size);
    }
    for size in [0, 4096, 61_440, 65_535, 65_537, 16_781_312, u64::MAX - 4095] {
        check_bad_size(&rt, rt.alloc(), size);
    }
}

/// Stores a number, reads its lowest bytes back, and then its lowest byte.
fn check_place(rt: &impl Abort, ram: &mut Ram, addr: u64, size: Size, part: u64) {
    let answer = ram.store(addr, size, 0x8877_6655_4433_2211);
    assert_eq!(rt; answer, Ok(()), "{size:?} at {addr}");
    assert_eq!(rt; ram.load(addr, size), Ok(part), "{size:?} at {addr}");
    assert_eq!(rt; ram.load(addr, Size::B1), Ok(0x11), "{size:?} at {addr}");
}

#[test]
fn reaches_the_first_and_the_last_place(rt: HostRuntime) {
    let mut ram = smallest(&rt, rt.alloc());
    let parts = [0x11, 0x2211, 0x4433_2211, 0x8877_6655_4433_2211];
    for (size, part) in SIZES.into_iter().zip(parts) {
        check_place(&rt, &mut ram, FIRST, size, part);
        check_place(&rt, &mut ram, END - u64::from(size.count()), size, part);
    }
}

fn check_refused(rt: &impl Abort, ram: &mut Ram, (size, addr, fault): (Size, u64, MemFault)) {
    assert_eq!(rt; ram.load(addr, size), Err(fault), "{size:?} at {addr}");
    let answer = ram.store(addr, size, u64::MAX);
    assert_eq!(rt; answer, Err(fault), "{size:?} at {addr}");
}

#[test]
fn refuses_what_is_misaligned_or_outside(rt: HostRuntime) {
    let mut ram = smallest(&rt, rt.alloc());
    for &row in &REFUSED {
        check_refused(&rt, &mut ram, row);
    }
    assert_eq!(rt; ram.load(FIRST, Size::B8), Ok(0));
    assert_eq!(rt; ram.load(END - 8, Size::B8), Ok(0));
}

fn check_store(rt: &impl Abort, ram: &mut Ram, (addr, size, stays): (u64, Size, bool)) {
    ram.reserve(0, FIRST + 12);
    ram.reserve(3, FIRST + 64);
    let _answer = ram.store(addr, size, 1);
    let left = ram.reserved(0, FIRST + 8, Size::B8);
    assert_eq!(rt; left, stays, "{size:?} at {addr}");
    assert!(rt; ram.reserved(3, FIRST + 64, Size::B8), "{size:?} at {addr}");
}

#[test]
fn keeps_a_reservation_until_it_is_touched(rt: HostRuntime) {
    let mut ram = smallest(&rt, rt.alloc());
    for &row in &STORES {
        check_store(&rt, &mut ram, row);
    }
}

#[test]
fn covers_eight_bytes_of_one_hart(rt: HostRuntime) {
    let mut ram = smallest(&rt, rt.alloc());
    ram.reserve(1, FIRST + 12);
    assert!(rt; ram.reserved(1, FIRST + 8, Size::B4));
    assert!(rt; ram.reserved(1, FIRST + 15, Size::B1));
    assert!(rt; !ram.reserved(1, FIRST + 16, Size::B1));
    assert!(rt; !ram.reserved(2, FIRST + 8, Size::B4));
    ram.drop_reservation(1);
    assert!(rt; !ram.reserved(1, FIRST + 8, Size::B4));
}

#[test]
fn puts_an_image_at_the_first_address(rt: HostRuntime) {
    let mut ram = smallest(&rt, rt.alloc());
    let _answer = ram.store(FIRST, Size::B8, u64::MAX);
    ram.reserve(0, FIRST);
    ram.reserve(1, FIRST + 8);
    let room = ram.size();
    assert!(rt; room >= 5);
    ram.fill(b"\x13\x05\xa0\x02\x73");
    assert_eq!(rt; ram.load(FIRST, Size::B8), Ok(0xffff_ff73_02a0_0513));
    assert!(rt; !ram.reserved(0, FIRST, Size::B1));
    assert!(rt; ram.reserved(1, FIRST + 8, Size::B8));
}
