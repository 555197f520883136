//! Blocks of 512 elements by the bus at RAM's end, up to the first that is refused: what the journal counts is one access for each, whatever came too early.

ghost use Rattle.std.specs.Prelude.{◌≡◌, ◌≤◌, ◌+◌, ◌*◌, [], OnOk, IfSome, IsSome, true};
ghost use Rattle.rv_model.specs.Memory.{is_aligned};
ghost use Rattle.rv_model.specs.Size.{count_of};
ghost use Rattle.debug_model.specs.Command.{most_elements, all_addresses};
ghost use Rattle.debug_model.specs.Kept.{CanCall};
ghost use Rattle.debug_model.specs.Loaded.{AsLoaded};
ghost use Rattle.debug_model.specs.Told.{IsAsLoaded, IsReady};

use crate::memory::{FIRST, PIECE, RAM_END, RAM_LEAST};
use arrayvec::ArrayVec;
use chip_core::{Bench, BenchWire};
use debug_model::{Dmi, Schedule};
use hart_debug::Start;
use link_tests::Fault;
use probe_access::{AccessFault, bus_load_block, bus_store_block};
use probe_dmi::Link;
use probe_run::connect;
use probe_scan::Scanner;
use rv_model::Size;
use std::alloc::Global;
use std::process::Abort;
use std::test::Fail;
use sys_events::SeedSchedule;

/// What became of a block: where the store and the load were refused, how many elements were loaded, and whether each held what was stored.
#[derive(Clone, Copy, Debug, PartialEq, Eq)]
struct Block {
    stored: Result<(), AccessFault>,
    loaded: Result<(), AccessFault>,
    count: usize,
    alike: bool,
}

/// Stores a block. An error where another fault than one of memory came.
pub fn try_store<D: Dmi>(
    link: &mut D,
    size: Size,
    address: u64,
    count: u16,
) -> Result<Result<(), AccessFault>, Fault>
    requires callable { CanCall (D.seen link.old) }
    requires ready { IsReady (D.seen link.old).far }
    requires aligned { is_aligned address size ≡ true }
    requires some { (1 ≤ count) × (count ≤ most_elements) }
    requires ends { address + count * count_of size ≤ all_addresses }
    ensures callable { OnOk result (CanCall (D.seen link.new)) }
    ensures ready { OnOk result (IsReady (D.seen link.new).far) }
{
    match bus_store_block(link, size, address, count, FIRST) {
        Ok(()) => Ok(Ok(())),
        Err(AccessFault::Memory(at)) => Ok(Err(AccessFault::Memory(at))),
        Err(fault) => Err(Fault::Access(fault)),
    }
}

/// Loads a block. An error where another fault than one of memory came.
pub fn try_load<D: Dmi>(
    link: &mut D,
    size: Size,
    address: u64,
    count: u16,
    into: &mut ArrayVec<u64, 512>,
) -> Result<Result<(), AccessFault>, Fault>
    requires callable { CanCall (D.seen link.old) }
    requires ready { IsReady (D.seen link.old).far }
    requires aligned { is_aligned address size ≡ true }
    requires some { (1 ≤ count) × (count ≤ most_elements) }
    requires ends { address + count * count_of size ≤ all_addresses }
    requires empty { into.old.items ≡ [] }
    ensures callable { OnOk result (CanCall (D.seen link.new)) }
    ensures ready { OnOk result (IsReady (D.seen link.new).far) }
{
    match bus_load_block(link, size, address, count, into) {
        Ok(()) => Ok(Ok(())),
        Err(AccessFault::Memory(at)) => Ok(Err(AccessFault::Memory(at))),
        Err(fault) => Err(Fault::Access(fault)),
    }
}

/// Whether each element holds this value.
fn are_alike(values: &[u64], value: u64) -> bool {
    let mut alike = true;
    for held in values {
        if *held != value {
            alike = false;
        }
    }
    alike
}

/// Stores a block and loads it again.
fn visit_block<D: Dmi>(
    link: &mut D,
    size: Size,
    address: u64,
    count: u16,
    value: u64,
) -> Result<Block, Fault>
    requires callable { CanCall (D.seen link.old) }
    requires loaded { IsAsLoaded (D.seen link.old).far }
    requires aligned { is_aligned address size ≡ true }
    requires some { (1 ≤ count) × (count ≤ most_elements) }
    requires ends { address + count * count_of size ≤ all_addresses }
{
    let _target = connect(link)?;
    let stored = try_store(link, size, address, count)?;
    let mut into: ArrayVec<u64, 512> = ArrayVec::new();
    let loaded = try_load(link, size, address, count, &mut into)?;
    Ok(Block {
        stored,
        loaded,
        count: into.len(),
        alike: are_alike(&into, value),
    })
}

fn visit_block_over<Q: Schedule>(
    bench: &mut Bench<Q>,
    paced: bool,
    size: Size,
    address: u64,
    count: u16,
    value: u64,
) -> Result<Block, Fault>
    requires loaded { IsSome bench.old }
    requires fresh { IfSome bench.old AsLoaded }
    requires aligned { is_aligned address size ≡ true }
    requires some { (1 ≤ count) × (count ≤ most_elements) }
    requires ends { address + count * count_of size ≤ all_addresses }
{
    let scanner = Scanner::new(BenchWire::new(bench, PIECE));
    if paced {
        let mut link = Link::paced(scanner);
        visit_block(&mut link, size, address, count, value)
    } else {
        let mut link = Link::new(scanner);
        visit_block(&mut link, size, address, count, value)
    }
}

/// A block of 512 elements of which so many lie in front of RAM's end: what became of it, and the accesses of its store and its load.
fn check_block(
    rt: &impl Abort,
    alloc: Global,
    busy: u8,
    paced: bool,
    address: u64,
    done: u64,
) -> Result<(), Fail>
    requires busy { (1 ≤ busy) × (busy ≤ 32) }
    requires aligned { is_aligned address Size.B8 ≡ true }
    requires ends { address + 512 * 8 ≤ all_addresses }
{
    let mut bench = Bench::blank();
    let schedule = SeedSchedule::new(7, busy, 1);
    bench.load(alloc, &[], 1, RAM_LEAST, Start::Halted, schedule)?;
    let end = if done == 512 {
        Ok(())
    } else {
        Err(AccessFault::Memory(RAM_END))
    };
    let wanted = Block {
        stored: end,
        loaded: end,
        count: done as usize,
        alike: true,
    };
    assert_eq!(rt;
        visit_block_over(&mut bench, paced, Size::B8, address, 512, FIRST),
        Ok(wanted)
    );
    let each = if done == 512 {
        512
    } else {
        done.wrapping_add(1)
    };
    assert_eq!(rt; bench.journal().accesses(), each.wrapping_mul(2));
    Ok(())
}

/// The three places of a block: whole in front of RAM's end, across it, and behind it.
fn check_places(rt: &impl Abort, alloc: Global, busy: u8, paced: bool) -> Result<(), Fail>
    requires busy { (1 ≤ busy) × (busy ≤ 32) }
{
    check_block(rt, alloc, busy, paced, 0x8000_f000, 512)?;
    check_block(rt, alloc, busy, paced, 0x8000_f010, 510)?;
    check_block(rt, alloc, busy, paced, RAM_END, 0)?;
    Ok(())
}

#[test]
fn a_block_by_the_bus_has_one_access_for_each_element(rt: HostRuntime) -> Result<(), Fail> {
    check_places(&rt, rt.alloc(), 1, false)?;
    check_places(&rt, rt.alloc(), 1, true)?;
    check_places(&rt, rt.alloc(), 8, true)?;
    check_places(&rt, rt.alloc(), 32, false)?;
    check_places(&rt, rt.alloc(), 32, true)?;
    Ok(())
}

/// The rises of TCK of an opening and a store of so many elements of 8 bytes.
fn rises(rt: &impl Abort, alloc: Global, busy: u8, count: u16) -> Result<u64, Fail>
    requires busy { (1 ≤ busy) × (busy ≤ 32) }
    requires some { (1 ≤ count) × (count ≤ most_elements) }
{
    let mut bench = Bench::blank();
    let schedule = SeedSchedule::new(7, busy, 1);
    bench.load(alloc, &[], 1, RAM_LEAST, Start::Halted, schedule)?;
    assert_eq!(rt; store_over(&mut bench, count), Ok(Ok(())));
    Ok(bench.counts().rounds)
}

fn store_over<Q: Schedule>(
    bench: &mut Bench<Q>,
    count: u16,
) -> Result<Result<(), AccessFault>, Fault>
    requires loaded { IsSome bench.old }
    requires fresh { IfSome bench.old AsLoaded }
    requires some { (1 ≤ count) × (count ≤ most_elements) }
{
    let mut link = Link::paced(Scanner::new(BenchWire::new(bench, PIECE)));
    let _target = connect(&mut link)?;
    try_store(&mut link, Size::B8, 0x8000_0000, count)
}

// a scan of dmi takes 46 rises, and a call of 128 operations one scan more
#[test]
fn an_element_stored_by_the_bus_costs_one_scan(rt: HostRuntime) -> Result<(), Fail> {
    let whole = rises(&rt, rt.alloc(), 1, 512)?;
    let one = rises(&rt, rt.alloc(), 1, 1)?;
    assert_eq!(rt; whole.wrapping_sub(one), 46 * (511 + 3));
    Ok(())
}

/// The rises of TCK of an opening and a load of so many elements of 8 bytes.
fn load_rises(rt: &impl Abort, alloc: Global, busy: u8, count: u16) -> Result<u64, Fail>
    requires busy { (1 ≤ busy) × (busy ≤ 32) }
    requires some { (1 ≤ count) × (count ≤ most_elements) }
{
    let mut bench = Bench::blank();
    let schedule = SeedSchedule::new(7, busy, 1);
    bench.load(alloc, &[], 1, RAM_LEAST, Start::Halted, schedule)?;
    let mut into = ArrayVec::new();
    assert_eq!(rt; load_over(&mut bench, count, &mut into), Ok(Ok(())));
    Ok(bench.counts().rounds)
}

fn load_over<Q: Schedule>(
    bench: &mut Bench<Q>,
    count: u16,
    into: &mut ArrayVec<u64, 512>,
) -> Result<Result<(), AccessFault>, Fault>
    requires loaded { IsSome bench.old }
    requires fresh { IfSome bench.old AsLoaded }
    requires some { (1 ≤ count) × (count ≤ most_elements) }
    requires empty { into.old.items ≡ [] }
{
    let mut link = Link::paced(Scanner::new(BenchWire::new(bench, PIECE)));
    let _target = connect(&mut link)?;
    try_load(&mut link, Size::B8, 0x8000_0000, count, into)
}

// two scans a double word, a scan more for each call of 64 of them, and nine for a run's start and its end, which has its last element: at most 94 rises each
#[test]
fn a_double_loaded_by_the_bus_costs_two_scans(rt: HostRuntime) -> Result<(), Fail> {
    let whole = load_rises(&rt, rt.alloc(), 1, 512)?;
    let one = load_rises(&rt, rt.alloc(), 1, 1)?;
    assert_eq!(rt; whole.wrapping_sub(one), 46 * (2 * 510 + 8 + 9));
    Ok(())
}
