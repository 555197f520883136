//! A debugger's store ends the reservation of another hart where it touches the reserved bytes, and leaves it where it does not.

ghost use Rattle.std.specs.Prelude.{◌≡◌, OnOk, IfSome, IsSome, true};
ghost use Rattle.rv_model.specs.Memory.{is_aligned};
ghost use Rattle.rv_model.specs.declared.size.Size.TheVariants.{B8};
ghost use Rattle.debug_model.specs.Kept.{CanCall};
ghost use Rattle.debug_model.specs.Loaded.{AsLoaded};
ghost use Rattle.debug_model.specs.Told.{IsAsLoaded, IsReady};

use chip_core::{Bench, BenchWire};
use debug_model::{Dmi, Schedule};
use hart_debug::Start;
use link_tests::Fault;
use probe_access::{bus_store, reg, step, store};
use probe_dmi::Link;
use probe_run::{Seen, Target, connect};
use probe_scan::Scanner;
use rv_model::Size;
use std::test::Fail;
use sys_events::SeedSchedule;

/// x6 = 0x80000100; lr.d x5 there; then sc.d there, whose answer goes to x7.
const PROGRAM: &[u8] = &[
    0x17, 0x03, 0x00, 0x00, 0x13, 0x03, 0x03, 0x10, 0xaf, 0x32, 0x03, 0x10, 0xaf, 0x33, 0x53, 0x18,
];

/// The eight bytes that are reserved, and those behind them.
const RESERVED: u64 = 0x8000_0100;

const BESIDE: u64 = 0x8000_0108;

/// What is stored.
const VALUE: u64 = 9;

/// The bytes of the smallest RAM.
const RAM_LEAST: u64 = 65_536;

/// The bytes of a piece.
const PIECE: usize = 256;

/// The register number of x7.
const X7: u16 = 0x1007;

/// Hart 1, which is halted at its first instruction, makes its reservation.
fn reserve<D: Dmi>(link: &mut D, target: &Target) -> Result<(), Fault>
    requires callable { CanCall (D.seen link.old) }
    requires ready { IsReady (D.seen link.old).far }
    ensures callable { OnOk result (CanCall (D.seen link.new)) }
    ensures ready { OnOk result (IsReady (D.seen link.new).far) }
{
    let Seen::Halted(halted) = target.look(link, 1)? else {
        return Err(Fault::SeenOtherwise);
    };
    let once = step(link, halted)?;
    let twice = step(link, once)?;
    let _reserved = step(link, twice)?;
    Ok(())
}

/// Hart 1 makes its conditional store. The answer is 0 where it had its reservation, and else 1.
fn store_conditionally<D: Dmi>(link: &mut D, target: &Target) -> Result<u64, Fault>
    requires callable { CanCall (D.seen link.old) }
    requires ready { IsReady (D.seen link.old).far }
{
    let Seen::Halted(halted) = target.look(link, 1)? else {
        return Err(Fault::SeenOtherwise);
    };
    let stored = step(link, halted)?;
    Ok(reg(link, &stored, X7)?)
}

/// Hart 0 stores to this address by its program buffer between the two.
fn with_store<D: Dmi>(link: &mut D, address: u64) -> Result<u64, Fault>
    requires callable { CanCall (D.seen link.old) }
    requires loaded { IsAsLoaded (D.seen link.old).far }
    requires aligned { is_aligned address B8 ≡ true }
{
    let target = connect(link)?;
    reserve(link, &target)?;
    let Seen::Halted(halted) = target.look(link, 0)? else {
        return Err(Fault::SeenOtherwise);
    };
    store(link, &halted, Size::B8, address, VALUE)?;
    store_conditionally(link, &target)
}

/// The same by the system bus.
fn with_bus_store<D: Dmi>(link: &mut D, address: u64) -> Result<u64, Fault>
    requires callable { CanCall (D.seen link.old) }
    requires loaded { IsAsLoaded (D.seen link.old).far }
    requires aligned { is_aligned address B8 ≡ true }
{
    let target = connect(link)?;
    reserve(link, &target)?;
    bus_store(link, Size::B8, address, VALUE)?;
    store_conditionally(link, &target)
}

fn store_over<Q: Schedule>(bench: &mut Bench<Q>, address: u64) -> Result<u64, Fault>
    requires loaded { IsSome bench.old }
    requires fresh { IfSome bench.old AsLoaded }
    requires aligned { is_aligned address B8 ≡ true }
{
    let mut link = Link::new(Scanner::new(BenchWire::new(bench, PIECE)));
    with_store(&mut link, address)
}

fn bus_store_over<Q: Schedule>(bench: &mut Bench<Q>, address: u64) -> Result<u64, Fault>
    requires loaded { IsSome bench.old }
    requires fresh { IfSome bench.old AsLoaded }
    requires aligned { is_aligned address B8 ≡ true }
{
    let mut link = Link::new(Scanner::new(BenchWire::new(bench, PIECE)));
    with_bus_store(&mut link, address)
}

#[test]
fn a_store_ends_the_reservation_that_it_touches(rt: HostRuntime) -> Result<(), Fail> {
    for (address, answer) in [(RESERVED, 1), (BESIDE, 0)] {
        let mut bench = Bench::blank();
        let schedule = SeedSchedule::new(1, 1, 2);
        bench.load(rt.alloc(), PROGRAM, 2, RAM_LEAST, Start::Halted, schedule)?;
        let mut other = Bench::blank();
        let schedule = SeedSchedule::new(1, 1, 2);
        other.load(rt.alloc(), PROGRAM, 2, RAM_LEAST, Start::Halted, schedule)?;
        if address % 8 == 0 {
            assert_eq!(rt; store_over(&mut bench, address), Ok(answer));
            assert_eq!(rt; bus_store_over(&mut other, address), Ok(answer));
        }
    }
    Ok(())
}
