//! Registers and memory of loaded chips, by abstract commands and the program buffer. What is read is what was loaded or written.

ghost use Rattle.std.specs.Prelude.{◌<◌, ◌≤◌, ◌^◌, IfSome, IsSome};
ghost use Rattle.debug_model.specs.Kept.{CanCall};
ghost use Rattle.debug_model.specs.Loaded.{AsLoaded};
ghost use Rattle.debug_model.specs.Told.{IsAsLoaded};
ghost use Rattle.debug_model.specs.Wire.{piece_most};
ghost use Rattle.probe_run.specs.Told.{Serving};

use crate::fault::Fault;
use chip_core::{Bench, BenchWire};
use debug_model::{Dmi, Schedule};
use hart_debug::Start;
use probe_access::{AccessFault, load, reg, set_reg, stop, store};
use probe_dmi::Link;
use probe_run::{Halted, Seen, connect};
use probe_scan::Scanner;
use rv_model::Size;
use std::alloc::Global;
use std::process::Abort;
use std::test::Fail;
use sys_events::SeedSchedule;

/// x5 = 5; then x5 = x5 + 1 again and again.
const PROGRAM: &[u8] = &[
    0x93, 0x02, 0x50, 0x00, 0x93, 0x82, 0x12, 0x00, 0x6f, 0xf0, 0xdf, 0xff,
];

/// The bytes of the smallest RAM.
const RAM_LEAST: u64 = 65_536;

/// Register numbers of the standard: x8, x9, x5 and misa.
const X8: u16 = 0x1008;

const X9: u16 = 0x1009;

const X5: u16 = 0x1005;

const MISA: u16 = 0x301;

/// What is read in a session with a halted hart.
#[derive(Clone, Copy, Debug, PartialEq, Eq)]
struct Found {
    pc: u64,
    cause: u8,
    first_words: u64,
    stored: u64,
    last_byte: u64,
    x5: u64,
    misa: u64,
    outside: Result<u64, AccessFault>,
    x8: u64,
    x9: u64,
}

/// The probe's calls on a halted hart.
fn visit<D: Dmi>(link: &mut D, halted: &Halted) -> Result<Found, Fault>
    requires callable { CanCall (D.seen link.old) }
    requires serving { Serving halted.now.number (D.seen link.old).far }
{
    let at = stop(link, halted)?;
    set_reg(link, halted, X8, 0x11)?;
    set_reg(link, halted, X9, 0x22)?;
    set_reg(link, halted, X5, 0x8877_6655_4433_2211)?;
    let first_words = load(link, halted, Size::B8, 0x8000_0000)?;
    store(link, halted, Size::B4, 0x8000_0104, 0xdead_beef)?;
    let stored = load(link, halted, Size::B8, 0x8000_0100)?;
    store(link, halted, Size::B1, 0x8000_ffff, 0x7f)?;
    let last_byte = load(link, halted, Size::B1, 0x8000_ffff)?;
    let x5 = reg(link, halted, X5)?;
    let misa = reg(link, halted, MISA)?;
    let outside = load(link, halted, Size::B8, 0x8001_0000);
    if let Err(AccessFault::Memory(_)) = outside {
        let x8 = reg(link, halted, X8)?;
        let x9 = reg(link, halted, X9)?;
        return Ok(Found {
            pc: at.pc,
            cause: at.cause,
            first_words,
            stored,
            last_byte,
            x5,
            misa,
            outside,
            x8,
            x9,
        });
    }
    Err(Fault::SeenOtherwise)
}

fn open_and_visit<D: Dmi>(link: &mut D, hart: u16) -> Result<Found, Fault>
    requires hart { hart < 2 ^ 10 }
    requires callable { CanCall (D.seen link.old) }
    requires loaded { IsAsLoaded (D.seen link.old).far }
{
    let target = connect(link)?;
    let Seen::Halted(halted) = target.look(link, hart)? else {
        return Err(Fault::SeenOtherwise);
    };
    visit(link, &halted)
}

fn visit_over<Q: Schedule>(bench: &mut Bench<Q>, piece: usize, hart: u16) -> Result<Found, Fault>
    requires piece { (1 ≤ piece) × (piece ≤ piece_most) }
    requires hart { hart < 2 ^ 10 }
    requires loaded { IsSome bench.old }
    requires fresh { IfSome bench.old AsLoaded }
{
    let mut link = Link::new(Scanner::new(BenchWire::new(bench, piece)));
    open_and_visit(&mut link, hart)
}

fn check(rt: &impl Abort, alloc: Global, harts: u8, busy: u8, piece: usize) -> Result<(), Fail>
    requires harts { (1 ≤ harts) × (harts ≤ 4) }
    requires busy { (1 ≤ busy) × (busy ≤ 32) }
    requires piece { (1 ≤ piece) × (piece ≤ piece_most) }
{
    let schedule = SeedSchedule::new(7, busy, harts);
    let mut bench = Bench::blank();
    bench.load(
        alloc,
        PROGRAM,
        u64::from(harts),
        RAM_LEAST,
        Start::Halted,
        schedule,
    )?;
    let found = visit_over(&mut bench, piece, u16::from(harts) - 1);
    let wanted = Found {
        pc: 0x8000_0000,
        cause: 5,
        first_words: 0x0012_8293_0050_0293,
        stored: 0xdead_beef_0000_0000,
        last_byte: 0x7f,
        x5: 0x8877_6655_4433_2211,
        misa: 0x8000_0000_0000_1101,
        outside: Err(AccessFault::Memory(0x8001_0000)),
        x8: 0x11,
        x9: 0x22,
    };
    assert_eq!(rt; found, Ok(wanted));
    Ok(())
}

#[test]
fn registers_and_memory_are_what_was_loaded_or_written(rt: HostRuntime) -> Result<(), Fail> {
    for harts in 1..=4 {
        for busy in [1, 5, 32] {
            check(&rt, rt.alloc(), harts, busy, 256)?;
        }
    }
    check(&rt, rt.alloc(), 2, 3, 1)?;
    Ok(())
}
