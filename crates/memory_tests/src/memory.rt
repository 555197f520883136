//! Memory at its edges, on both paths. What lies outside is refused, and x8 and x9 stay as they were.

ghost use Rattle.std.specs.Prelude.{◌≡◌, OnOk, IfSome, IsSome, true};
ghost use Rattle.rv_model.specs.Memory.{is_aligned};
ghost use Rattle.debug_model.specs.Kept.{CanCall};
ghost use Rattle.debug_model.specs.Loaded.{AsLoaded};
ghost use Rattle.debug_model.specs.Told.{IsAsLoaded, IsReady};
ghost use Rattle.probe_run.specs.Told.{Serving};

use chip_core::{Bench, BenchWire};
use debug_model::{Dmi, Schedule};
use hart_debug::Start;
use link_tests::Fault;
use probe_access::{AccessFault, bus_load, bus_store, is_aligned, load, reg, set_reg, store};
use probe_dmi::Link;
use probe_run::{Halted, Seen, connect};
use probe_scan::Scanner;
use rv_model::Size;
use std::test::Fail;
use sys_events::SeedSchedule;

/// The bytes of the smallest RAM, and its first address and the one behind its last.
pub const RAM_LEAST: u64 = 65_536;

pub const RAM_FIRST: u64 = 0x8000_0000;

pub const RAM_END: u64 = 0x8001_0000;

/// The bytes of a piece.
pub const PIECE: usize = 256;

/// Register numbers of the standard.
pub const X8: u16 = 0x1008;

pub const X9: u16 = 0x1009;

/// What is stored by the program buffer, and what by the bus.
pub const FIRST: u64 = 0x8877_6655_4433_2211;

const SECOND: u64 = 0x00ff_eedd_ccbb_aa99;

/// Stores by the program buffer. False where memory refused it.
fn try_store<D: Dmi>(
    link: &mut D,
    halted: &Halted,
    size: Size,
    address: u64,
    value: u64,
) -> Result<bool, Fault>
    requires callable { CanCall (D.seen link.old) }
    requires serving { Serving halted.now.number (D.seen link.old).far }
    requires aligned { is_aligned address size ≡ true }
    ensures callable { OnOk result (CanCall (D.seen link.new)) }
    ensures serving { OnOk result (Serving halted.now.number (D.seen link.new).far) }
{
    match store(link, halted, size, address, value) {
        Ok(()) => Ok(true),
        Err(AccessFault::Memory(_)) => Ok(false),
        Err(fault) => Err(Fault::Access(fault)),
    }
}

/// Loads by the program buffer. None where memory refused it.
fn try_load<D: Dmi>(
    link: &mut D,
    halted: &Halted,
    size: Size,
    address: u64,
) -> Result<Option<u64>, Fault>
    requires callable { CanCall (D.seen link.old) }
    requires serving { Serving halted.now.number (D.seen link.old).far }
    requires aligned { is_aligned address size ≡ true }
    ensures callable { OnOk result (CanCall (D.seen link.new)) }
    ensures serving { OnOk result (Serving halted.now.number (D.seen link.new).far) }
{
    match load(link, halted, size, address) {
        Ok(value) => Ok(Some(value)),
        Err(AccessFault::Memory(_)) => Ok(None),
        Err(fault) => Err(Fault::Access(fault)),
    }
}

/// Stores by the bus. False where memory refused it.
fn try_bus_store<D: Dmi>(link: &mut D, size: Size, address: u64, value: u64) -> Result<bool, Fault>
    requires callable { CanCall (D.seen link.old) }
    requires ready { IsReady (D.seen link.old).far }
    requires aligned { is_aligned address size ≡ true }
    ensures callable { OnOk result (CanCall (D.seen link.new)) }
    ensures ready { OnOk result (IsReady (D.seen link.new).far) }
{
    match bus_store(link, size, address, value) {
        Ok(()) => Ok(true),
        Err(AccessFault::Memory(_)) => Ok(false),
        Err(fault) => Err(Fault::Access(fault)),
    }
}

/// Loads by the bus. None where memory refused it.
fn try_bus_load<D: Dmi>(link: &mut D, size: Size, address: u64) -> Result<Option<u64>, Fault>
    requires callable { CanCall (D.seen link.old) }
    requires ready { IsReady (D.seen link.old).far }
    requires aligned { is_aligned address size ≡ true }
    ensures callable { OnOk result (CanCall (D.seen link.new)) }
    ensures ready { OnOk result (IsReady (D.seen link.new).far) }
{
    match bus_load(link, size, address) {
        Ok(value) => Ok(Some(value)),
        Err(AccessFault::Memory(_)) => Ok(None),
        Err(fault) => Err(Fault::Access(fault)),
    }
}

/// What was seen of one place in memory: by the program buffer, and then by the bus.
#[derive(Clone, Copy, Debug, PartialEq, Eq)]
struct Place {
    stored: bool,
    loaded: Option<u64>,
    x8: u64,
    x9: u64,
    seen_by_bus: Option<u64>,
    stored_by_bus: bool,
    loaded_by_bus: Option<u64>,
}

/// Stores and loads there, on both paths.
fn visit<D: Dmi>(link: &mut D, size: Size, address: u64) -> Result<Place, Fault>
    requires callable { CanCall (D.seen link.old) }
    requires loaded { IsAsLoaded (D.seen link.old).far }
    requires aligned { is_aligned address size ≡ true }
{
    let target = connect(link)?;
    let Seen::Halted(halted) = target.look(link, 0)? else {
        return Err(Fault::SeenOtherwise);
    };
    set_reg(link, &halted, X8, 0x11)?;
    set_reg(link, &halted, X9, 0x22)?;
    let stored = try_store(link, &halted, size, address, FIRST)?;
    let loaded = try_load(link, &halted, size, address)?;
    let x8 = reg(link, &halted, X8)?;
    let x9 = reg(link, &halted, X9)?;
    let seen_by_bus = try_bus_load(link, size, address)?;
    let stored_by_bus = try_bus_store(link, size, address, SECOND)?;
    let loaded_by_bus = try_bus_load(link, size, address)?;
    Ok(Place {
        stored,
        loaded,
        x8,
        x9,
        seen_by_bus,
        stored_by_bus,
        loaded_by_bus,
    })
}

fn visit_over<Q: Schedule>(bench: &mut Bench<Q>, size: Size, address: u64) -> Result<Place, Fault>
    requires loaded { IsSome bench.old }
    requires fresh { IfSome bench.old AsLoaded }
    requires aligned { is_aligned address size ≡ true }
{
    let mut link = Link::new(Scanner::new(BenchWire::new(bench, PIECE)));
    visit(&mut link, size, address)
}

/// The place as it must be: nothing there, or the lowest bytes of what was stored.
fn wanted(inside: bool, first: u64, second: u64) -> Place {
    if inside {
        return Place {
            stored: true,
            loaded: Some(first),
            x8: 0x11,
            x9: 0x22,
            seen_by_bus: Some(first),
            stored_by_bus: true,
            loaded_by_bus: Some(second),
        };
    }
    Place {
        stored: false,
        loaded: None,
        x8: 0x11,
        x9: 0x22,
        seen_by_bus: None,
        stored_by_bus: false,
        loaded_by_bus: None,
    }
}

#[test]
fn memory_ends_at_its_edges_on_both_paths(rt: HostRuntime) -> Result<(), Fail> {
    let sizes = [
        (Size::B1, 0x11, 0x99),
        (Size::B2, 0x2211, 0xaa99),
        (Size::B4, 0x4433_2211, 0xccbb_aa99),
        (Size::B8, FIRST, SECOND),
    ];
    for busy in [1, 32] {
        for (size, first, second) in sizes {
            let count = u64::from(size.count());
            let places = [
                (RAM_FIRST - count, false),
                (RAM_FIRST, true),
                (RAM_END - count, true),
                (RAM_END, false),
            ];
            for (address, inside) in places {
                if is_aligned(size, address) {
                    let mut bench = Bench::blank();
                    let schedule = SeedSchedule::new(7, busy, 2);
                    bench.load(rt.alloc(), &[], 2, RAM_LEAST, Start::Halted, schedule)?;
                    assert_eq!(rt;
                        visit_over(&mut bench, size, address),
                        Ok(wanted(inside, first, second))
                    );
                }
            }
        }
    }
    Ok(())
}
