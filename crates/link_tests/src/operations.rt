//! Operations on the debug module of a loaded chip. Expected values are the standard's: what is written to data0 and data1 is read there, and each
//! operation is performed once, however often the transport answers that it is busy.

ghost use Rattle.std.specs.Prelude.{◌≤◌, IfSome, IsSome};
ghost use Rattle.debug_model.specs.Kept.{CanCall};
ghost use Rattle.debug_model.specs.Loaded.{AsLoaded};
ghost use Rattle.debug_model.specs.Wire.{piece_most};

use chip_core::{Bench, BenchWire};
use debug_model::{Dmi, DmiFault, Schedule};
use hart_debug::Start;
use probe_dmi::Link;
use probe_scan::Scanner;
use std::alloc::Global;
use std::process::Abort;
use std::test::Fail;
use sys_events::SeedSchedule;

const DMCONTROL: u8 = 0x10;

const DMACTIVE: u32 = 1;

const DATA0: u8 = 0x04;

const DATA1: u8 = 0x05;

/// The bytes of the smallest RAM.
const RAM_LEAST: u64 = 65_536;

/// Activates the module, writes both data words and reads them.
fn five_operations<D: Dmi>(link: &mut D) -> Result<(u32, u32), DmiFault>
    requires callable { CanCall (D.seen link.old) }
{
    link.write(DMCONTROL, DMACTIVE)?;
    link.write(DATA0, 7)?;
    link.write(DATA1, 9)?;
    let first = link.read(DATA0)?;
    let second = link.read(DATA1)?;
    Ok((first, second))
}

/// The same over a loaded chip, in pieces of at most so many bytes.
fn over_a_bench<Q: Schedule>(bench: &mut Bench<Q>, piece: usize) -> Result<(u32, u32), DmiFault>
    requires piece { (1 ≤ piece) × (piece ≤ piece_most) }
    requires loaded { IsSome bench.old }
    requires fresh { IfSome bench.old AsLoaded }
{
    let mut link = Link::new(Scanner::new(BenchWire::new(bench, piece)));
    five_operations(&mut link)
}

fn check(rt: &impl Abort, alloc: Global, seed: u64, busy: u8, piece: usize) -> Result<u64, Fail>
    requires busy { (1 ≤ busy) × (busy ≤ 32) }
    requires piece { (1 ≤ piece) × (piece ≤ piece_most) }
{
    let mut bench = Bench::blank();
    bench.load(
        alloc,
        &[],
        1,
        RAM_LEAST,
        Start::Running,
        SeedSchedule::new(seed, busy, 1),
    )?;
    assert_eq!(rt; over_a_bench(&mut bench, piece), Ok((7, 9)));
    let counts = bench.counts();
    assert_eq!(rt; (counts.dmi_done, counts.dmi_failed), (5, 0));
    Ok(counts.dmi_busy)
}

#[test]
fn each_operation_is_performed_once(rt: HostRuntime) -> Result<(), Fail> {
    let mut found_busy = false;
    for busy in 1..=32 {
        for seed in 0..8 {
            found_busy = check(&rt, rt.alloc(), seed, busy, 256)? > 0 || found_busy;
        }
    }
    assert!(rt; found_busy);
    check(&rt, rt.alloc(), 7, 32, 1)?;
    Ok(())
}
