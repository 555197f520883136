//! Blocks of elements at the edges of memory: up to the first that is refused, and x8 and x9 stay as they were.

ghost use Rattle.std.specs.Prelude.{◌≡◌, ◌≤◌, ◌+◌, ◌*◌, [], OnOk, IfSome, IsSome, true};
ghost use Rattle.rv_model.specs.Memory.{is_aligned};
ghost use Rattle.rv_model.specs.Size.{count_of};
ghost use Rattle.debug_model.specs.Command.{most_elements, all_addresses};
ghost use Rattle.debug_model.specs.Kept.{CanCall};
ghost use Rattle.debug_model.specs.Loaded.{AsLoaded};
ghost use Rattle.debug_model.specs.Told.{IsAsLoaded};
ghost use Rattle.probe_run.specs.Told.{Serving};

use crate::memory::{FIRST, PIECE, RAM_END, RAM_FIRST, RAM_LEAST, X8, X9};
use arrayvec::ArrayVec;
use chip_core::{Bench, BenchWire};
use debug_model::{Dmi, Schedule};
use hart_debug::Start;
use link_tests::Fault;
use probe_access::{AccessFault, is_aligned, load_block, reg, set_reg, store_block};
use probe_dmi::Link;
use probe_run::{Halted, Seen, connect};
use probe_scan::Scanner;
use rv_model::Size;
use std::alloc::Global;
use std::process::Abort;
use std::test::Fail;
use sys_events::SeedSchedule;

/// What became of a block: where the store and the load were refused, and what was loaded.
#[derive(Clone, Copy, Debug, PartialEq, Eq)]
struct Block {
    stored: Result<(), AccessFault>,
    loaded: Result<(), AccessFault>,
    count: usize,
    last: Option<u64>,
    x8: u64,
    x9: u64,
}

/// Stores a block. An error where another fault than one of memory came.
pub fn try_store_block<D: Dmi>(
    link: &mut D,
    halted: &Halted,
    size: Size,
    address: u64,
    count: u16,
) -> Result<Result<(), AccessFault>, Fault>
    requires callable { CanCall (D.seen link.old) }
    requires serving { Serving halted.now.number (D.seen link.old).far }
    requires aligned { is_aligned address size ≡ true }
    requires some { (1 ≤ count) × (count ≤ most_elements) }
    requires ends { address + count * count_of size ≤ all_addresses }
    ensures callable { OnOk result (CanCall (D.seen link.new)) }
    ensures serving { OnOk result (Serving halted.now.number (D.seen link.new).far) }
{
    match store_block(link, halted, size, address, count, FIRST) {
        Ok(()) => Ok(Ok(())),
        Err(AccessFault::Memory(at)) => Ok(Err(AccessFault::Memory(at))),
        Err(fault) => Err(Fault::Access(fault)),
    }
}

/// Loads a block. An error where another fault than one of memory came.
pub fn try_load_block<D: Dmi>(
    link: &mut D,
    halted: &Halted,
    size: Size,
    address: u64,
    count: u16,
    into: &mut ArrayVec<u64, 512>,
) -> Result<Result<(), AccessFault>, Fault>
    requires callable { CanCall (D.seen link.old) }
    requires serving { Serving halted.now.number (D.seen link.old).far }
    requires aligned { is_aligned address size ≡ true }
    requires some { (1 ≤ count) × (count ≤ most_elements) }
    requires ends { address + count * count_of size ≤ all_addresses }
    requires empty { into.old.items ≡ [] }
    ensures callable { OnOk result (CanCall (D.seen link.new)) }
    ensures serving { OnOk result (Serving halted.now.number (D.seen link.new).far) }
{
    match load_block(link, halted, size, address, count, into) {
        Ok(()) => Ok(Ok(())),
        Err(AccessFault::Memory(at)) => Ok(Err(AccessFault::Memory(at))),
        Err(fault) => Err(Fault::Access(fault)),
    }
}

/// Stores a block and loads it again.
fn visit_block<D: Dmi>(link: &mut D, size: Size, address: u64, count: u16) -> Result<Block, Fault>
    requires callable { CanCall (D.seen link.old) }
    requires loaded { IsAsLoaded (D.seen link.old).far }
    requires aligned { is_aligned address size ≡ true }
    requires some { (1 ≤ count) × (count ≤ most_elements) }
    requires ends { address + count * count_of size ≤ all_addresses }
{
    let target = connect(link)?;
    let Seen::Halted(halted) = target.look(link, 0)? else {
        return Err(Fault::SeenOtherwise);
    };
    set_reg(link, &halted, X8, 0x11)?;
    set_reg(link, &halted, X9, 0x22)?;
    let stored = try_store_block(link, &halted, size, address, count)?;
    let mut into: ArrayVec<u64, 512> = ArrayVec::new();
    let loaded = try_load_block(link, &halted, size, address, count, &mut into)?;
    let x8 = reg(link, &halted, X8)?;
    let x9 = reg(link, &halted, X9)?;
    Ok(Block {
        stored,
        loaded,
        count: into.len(),
        last: into.last().copied(),
        x8,
        x9,
    })
}

fn visit_block_over<Q: Schedule>(
    bench: &mut Bench<Q>,
    size: Size,
    address: u64,
    count: u16,
) -> Result<Block, Fault>
    requires loaded { IsSome bench.old }
    requires fresh { IfSome bench.old AsLoaded }
    requires aligned { is_aligned address size ≡ true }
    requires some { (1 ≤ count) × (count ≤ most_elements) }
    requires ends { address + count * count_of size ≤ all_addresses }
{
    let mut link = Link::new(Scanner::new(BenchWire::new(bench, PIECE)));
    visit_block(&mut link, size, address, count)
}

fn check_block(
    rt: &impl Abort,
    alloc: Global,
    busy: u8,
    address: u64,
    count: u16,
    wanted: Block,
) -> Result<(), Fail>
    requires busy { (1 ≤ busy) × (busy ≤ 32) }
    requires aligned { is_aligned address Size.B8 ≡ true }
    requires some { (1 ≤ count) × (count ≤ most_elements) }
    requires ends { address + count * 8 ≤ all_addresses }
{
    let mut bench = Bench::blank();
    let schedule = SeedSchedule::new(7, busy, 1);
    bench.load(alloc, &[], 1, RAM_LEAST, Start::Halted, schedule)?;
    assert_eq!(rt;
        visit_block_over(&mut bench, Size::B8, address, count),
        Ok(wanted)
    );
    Ok(())
}

#[test]
fn a_block_ends_at_the_element_that_is_refused(rt: HostRuntime) -> Result<(), Fail> {
    let cases = [
        (0x8001_0000, Some(0x8001_0000), 0),
        (0x8000_fff8, Some(0x8001_0000), 1),
        (0x8000_fff0, Some(0x8001_0000), 2),
        (0x8000_ffe8, Some(0x8001_0000), 3),
        (0x8000_ffe0, Some(0x8001_0000), 4),
        (0x8000_ffd8, None, 5),
        (0x7fff_fff8, Some(0x7fff_fff8), 0),
    ];
    for (address, refused, count) in cases {
        for busy in [1, 32] {
            let end = match refused {
                Some(at) => Err(AccessFault::Memory(at)),
                None => Ok(()),
            };
            let last = if count == 0 { None } else { Some(FIRST) };
            let wanted = Block {
                stored: end,
                loaded: end,
                count,
                last,
                x8: 0x11,
                x9: 0x22,
            };
            if is_aligned(Size::B8, address) && address < RAM_END + 1 {
                check_block(&rt, rt.alloc(), busy, address, 5, wanted)?;
            }
        }
    }
    let whole = Block {
        stored: Ok(()),
        loaded: Ok(()),
        count: 512,
        last: Some(FIRST),
        x8: 0x11,
        x9: 0x22,
    };
    check_block(&rt, rt.alloc(), 1, RAM_FIRST, 512, whole)?;
    Ok(())
}
