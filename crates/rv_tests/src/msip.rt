//! The MSIP words of software interrupts, beside RAM.

use rv_mem::{Ram, RamFault};
use rv_model::{MemFault, Size};
use std::alloc::Global;
use std::process::Abort;

/// The first address of RAM, and the first one past the smallest RAM.
const FIRST: u64 = 0x8000_0000;

const END: u64 = 0x8001_0000;

/// The MSIP word of hart 0.
const MSIP: u64 = 0x200_0000;

/// Stores to MSIP words: harts, address, size, value, and what the same bytes hold then.
static STORES: [(u8, u64, Size, u64, u64); 13] = [
    (1, MSIP, Size::B1, 0xff, 1),
    (1, MSIP, Size::B1, 0xfe, 0),
    (1, MSIP, Size::B2, 0xffff, 1),
    (1, MSIP, Size::B4, 0xffff_ffff, 1),
    (1, MSIP, Size::B4, 0xffff_fffe, 0),
    (1, MSIP + 1, Size::B1, 0xff, 0),
    (1, MSIP + 2, Size::B1, 0xff, 0),
    (1, MSIP + 2, Size::B2, 0xffff, 0),
    (1, MSIP + 3, Size::B1, 0xff, 0),
    (2, MSIP, Size::B8, u64::MAX, 0x1_0000_0001),
    (2, MSIP, Size::B8, 0x1_0000_0000, 0x1_0000_0000),
    (4, MSIP + 8, Size::B8, 0xffff_fffe_ffff_ffff, 1),
    (4, MSIP + 12, Size::B4, 3, 1),
];

/// Accesses that are refused: harts, address, size, why.
static REFUSED: [(u8, u64, Size, MemFault); 9] = [
    (1, MSIP + 4, Size::B1, MemFault::Outside),
    (1, MSIP + 4, Size::B4, MemFault::Outside),
    (1, MSIP, Size::B8, MemFault::Outside),
    (3, MSIP + 8, Size::B8, MemFault::Outside),
    (4, MSIP + 16, Size::B1, MemFault::Outside),
    (4, MSIP - 1, Size::B1, MemFault::Outside),
    (4, END, Size::B1, MemFault::Outside),
    (4, MSIP + 2, Size::B4, MemFault::Misaligned),
    (4, MSIP + 4, Size::B8, MemFault::Misaligned),
];

/// The smallest RAM with the MSIP words of so many harts.
fn with_msip(rt: &impl Abort, alloc: Global, harts: u8) -> Ram {
    assert!(rt; harts >= 1 && harts <= 4);
    Ram::with_msip(alloc, 65_536, harts).expect(rt, "the smallest RAM")
}

fn check_store(
    rt: &impl Abort,
    alloc: Global,
    (harts, addr, size, value, kept): (u8, u64, Size, u64, u64),
) {
    let mut ram = with_msip(rt, alloc, harts);
    assert_eq!(rt; ram.load(addr, size), Ok(0), "{value} at {addr}");
    let answer = ram.store(addr, size, value);
    assert_eq!(rt; answer, Ok(()), "{value} at {addr}");
    assert_eq!(rt; ram.load(addr, size), Ok(kept), "{value} at {addr}");
}

#[test]
fn keeps_bit_0_of_each_word(rt: HostRuntime) {
    for &row in &STORES {
        check_store(&rt, rt.alloc(), row);
    }
}

fn check_refused(
    rt: &impl Abort,
    alloc: Global,
    (harts, addr, size, fault): (u8, u64, Size, MemFault),
) {
    let mut ram = with_msip(rt, alloc, harts);
    assert_eq!(rt; ram.load(addr, size), Err(fault), "{size:?} at {addr}");
    let answer = ram.store(addr, size, u64::MAX);
    assert_eq!(rt; answer, Err(fault), "{size:?} at {addr}");
}

#[test]
fn refuses_what_lies_beside_the_words(rt: HostRuntime) {
    for &row in &REFUSED {
        check_refused(&rt, rt.alloc(), row);
    }
}

#[test]
fn tells_the_bit_of_each_hart(rt: HostRuntime) {
    let mut ram = with_msip(&rt, rt.alloc(), 2);
    assert!(rt; !ram.msip(0));
    let _answer = ram.store(MSIP + 4, Size::B4, 1);
    assert!(rt; !ram.msip(0));
    assert!(rt; ram.msip(1));
    assert!(rt; !ram.msip(2));
    assert!(rt; !ram.msip(255));
    let _answer = ram.store(MSIP, Size::B8, 1);
    assert!(rt; ram.msip(0));
    assert!(rt; !ram.msip(1));
}

#[test]
fn has_no_words_unless_they_are_asked_for(rt: HostRuntime) {
    let ram = Ram::new(rt.alloc(), 65_536).expect(&rt, "the smallest RAM");
    assert_eq!(rt; ram.load(MSIP, Size::B4), Err(MemFault::Outside));
    assert!(rt; !ram.msip(0));
}

#[test]
fn counts_ram_alone(rt: HostRuntime) {
    let ram = with_msip(&rt, rt.alloc(), 4);
    assert_eq!(rt; ram.size(), 65_536);
    let answer = Ram::with_msip(rt.alloc(), 65_537, 4);
    assert_eq!(rt; answer.err(), Some(RamFault::BadSize));
}

#[test]
fn a_store_to_a_word_clears_the_reservation_that_it_touches(rt: HostRuntime) {
    let mut ram = with_msip(&rt, rt.alloc(), 4);
    ram.reserve(0, MSIP);
    ram.reserve(1, MSIP + 8);
    let _answer = ram.store(MSIP + 4, Size::B1, 0);
    assert!(rt; !ram.reserved(0, MSIP, Size::B4));
    assert!(rt; ram.reserved(1, MSIP + 8, Size::B4));
}

#[test]
fn an_image_leaves_the_words(rt: HostRuntime) {
    let mut ram = with_msip(&rt, rt.alloc(), 1);
    let _answer = ram.store(MSIP, Size::B4, 1);
    let room = ram.size();
    assert!(rt; room >= 5);
    ram.fill(b"\x13\x05\xa0\x02\x73");
    assert_eq!(rt; ram.load(MSIP, Size::B4), Ok(1));
    assert_eq!(rt; ram.load(FIRST, Size::B8), Ok(0x0000_0073_02a0_0513));
}

/// What is fetched, where RAM begins with the two words 0x02a00513 and 0x00000073, and hart 0's MSIP word is 1.
static FETCHES: [(u64, Option<u32>); 8] = [
    (FIRST, Some(0x02a0_0513)),
    (FIRST + 4, Some(0x0000_0073)),
    (FIRST + 2, None),
    (END - 4, Some(0)),
    (END, None),
    (FIRST - 4, None),
    (MSIP, None),
    (MSIP + 4, None),
];

#[test]
fn fetches_from_ram_alone(rt: HostRuntime) {
    let mut ram = with_msip(&rt, rt.alloc(), 4);
    let _answer = ram.store(FIRST, Size::B8, 0x0000_0073_02a0_0513);
    let _answer = ram.store(MSIP, Size::B4, 1);
    for &(pc, word) in &FETCHES {
        assert_eq!(rt; ram.fetch(pc), word, "{pc}");
    }
}
