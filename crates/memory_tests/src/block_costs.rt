//! What blocks by a halted hart cost in rises of TCK, where no capture finds the transport busy: 46 for each scan of `dmi`, and each call has one scan more than
//! operations.

ghost use Rattle.std.specs.Prelude.{◌≤◌, IfSome, IsSome};
ghost use Rattle.debug_model.specs.Command.{most_elements};
ghost use Rattle.debug_model.specs.Loaded.{AsLoaded};

use crate::blocks::{try_load_block, try_store_block};
use crate::memory::{PIECE, RAM_FIRST, RAM_LEAST};
use arrayvec::ArrayVec;
use chip_core::{Bench, BenchWire};
use debug_model::Schedule;
use hart_debug::Start;
use link_tests::Fault;
use probe_access::AccessFault;
use probe_dmi::Link;
use probe_run::{Seen, connect};
use probe_scan::Scanner;
use rv_model::Size;
use std::alloc::Global;
use std::process::Abort;
use std::test::Fail;
use sys_events::SeedSchedule;

/// A scan of `dmi`, from Run-Test/Idle and back.
const SCAN: u64 = 46;

/// A store, or a load, of so many elements of 8 bytes.
fn block_over<Q: Schedule>(
    bench: &mut Bench<Q>,
    stores: bool,
    count: u16,
) -> Result<Result<(), AccessFault>, Fault>
    requires loaded { IsSome bench.old }
    requires fresh { IfSome bench.old AsLoaded }
    requires some { (1 ≤ count) × (count ≤ most_elements) }
{
    let mut link = Link::paced(Scanner::new(BenchWire::new(bench, PIECE)));
    let target = connect(&mut link)?;
    let Seen::Halted(halted) = target.look(&mut link, 0)? else {
        return Err(Fault::SeenOtherwise);
    };
    if stores {
        return try_store_block(&mut link, &halted, Size::B8, RAM_FIRST, count);
    }
    let mut into = ArrayVec::new();
    try_load_block(&mut link, &halted, Size::B8, RAM_FIRST, count, &mut into)
}

/// The rises of TCK of an opening, a Look and a block.
fn rises(rt: &impl Abort, alloc: Global, stores: bool, count: u16) -> Result<u64, Fail>
    requires some { (1 ≤ count) × (count ≤ most_elements) }
{
    let mut bench = Bench::blank();
    let schedule = SeedSchedule::new(7, 1, 1);
    bench.load(alloc, &[], 1, RAM_LEAST, Start::Halted, schedule)?;
    assert_eq!(rt; block_over(&mut bench, stores, count), Ok(Ok(())));
    Ok(bench.counts().rounds)
}

// a run is a call with one operation for each element but its first and three more, and a call that ends autoexec: one of 5 elements, and four of 126;
// two more elements have a call of two operations each
#[test]
fn a_double_stored_by_a_hart_costs_one_scan(rt: HostRuntime) -> Result<(), Fail> {
    let whole = rises(&rt, rt.alloc(), true, 512)?;
    let one = rises(&rt, rt.alloc(), true, 1)?;
    assert_eq!(rt;
        whole.wrapping_sub(one),
        SCAN * (8 + 2 + 4 * (129 + 2) + 2 * 3)
    );
    Ok(())
}

// a run has two operations for each element but its first and three more, a call that ends autoexec, and one that takes the data words: one of 5 elements,
// and eight of 63; two more elements have a call of two operations each and take the data words by one
#[test]
fn a_double_loaded_by_a_hart_costs_two_scans(rt: HostRuntime) -> Result<(), Fail> {
    let whole = rises(&rt, rt.alloc(), false, 512)?;
    let one = rises(&rt, rt.alloc(), false, 1)?;
    assert_eq!(rt;
        whole.wrapping_sub(one),
        SCAN * (12 + 2 + 3 + 8 * (128 + 2 + 3) + 2 * (3 + 3))
    );
    Ok(())
}
