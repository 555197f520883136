//! Chips to run sessions on, and what their memory holds.

ghost use Rattle.std.specs.Prelude.{◌≤◌, IfOk, IfSome, IsSome};
ghost use Rattle.debug_model.specs.Loaded.{AsLoaded};

use chip_core::Bench;
use debug_model::Schedule;
use hart_debug::Start;
use rv_model::Size;
use std::alloc::Global;
use std::test::Fail;
use sys_events::SeedSchedule;

/// The start of RAM.
pub const RAM: u64 = 0x8000_0000;

/// The bytes of the smallest RAM.
const RAM_LEAST: u64 = 65_536;

/// The bytes of a piece.
pub const PIECE: usize = 256;

/// Room for everything that a session here prints.
pub const AMPLE: usize = 65_536;

/// The instruction `ebreak` (RISC-V Unprivileged ISA, "Environment Call and Breakpoints").
pub const EBREAK: u64 = 0x0010_0073;

/// `addi x5, x0, 5`; then `addi x5, x5, 1` at 0x80000004 and `jal x0, -4` again and again.
pub const PROGRAM: &[u8] = &[
    0x93, 0x02, 0x50, 0x00, 0x93, 0x82, 0x12, 0x00, 0x6f, 0xf0, 0xdf, 0xff,
];

/// A chip with so many halted harts that holds the image, and whose parts do something once in so many rounds.
pub fn halted_chip(
    alloc: Global,
    image: &[u8],
    harts: u8,
    busy: u8,
) -> Result<Bench<SeedSchedule>, Fail>
    requires some { 1 ≤ harts }
    requires few { harts ≤ 4 }
    requires busy_some { 1 ≤ busy }
    requires busy_few { busy ≤ 32 }
    ensures loaded { IfOk result IsSome }
    ensures fresh { IfOk result (λ bench. IfSome bench AsLoaded) }
{
    let mut bench = Bench::blank();
    bench.load(
        alloc,
        image,
        u64::from(harts),
        RAM_LEAST,
        Start::Halted,
        SeedSchedule::new(1, busy, harts),
    )?;
    Ok(bench)
}

/// The word at an address, where memory has one.
pub fn word_at<Q: Schedule>(bench: &Bench<Q>, address: u64) -> Option<u64> {
    if !bench.is_loaded() {
        return None;
    }
    bench.ram().load(address, Size::B4).ok()
}

/// The first word of RAM at which two chips differ, but for those at these addresses. A chip that isn't there differs at the first one.
pub fn first_difference<Q: Schedule, R: Schedule>(
    one: &Bench<Q>,
    other: &Bench<R>,
    beside: &[u64],
) -> Option<u64> {
    if !one.is_loaded() || !other.is_loaded() {
        return Some(RAM);
    }
    let (left, right) = (one.ram(), other.ram());
    for place in 0..RAM_LEAST / 8 {
        let lower = RAM + 8 * place;
        if left.load(lower, Size::B8).ok() == right.load(lower, Size::B8).ok() {
            continue;
        }
        for address in [lower, lower + 4] {
            let is_same = left.load(address, Size::B4).ok() == right.load(address, Size::B4).ok();
            if !is_same && !beside.contains(&address) {
                return Some(address);
            }
        }
    }
    None
}
