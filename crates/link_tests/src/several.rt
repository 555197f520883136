//! Several operations in one call on the debug module of a loaded chip. Expected values are the standard's: what is written to data0 and data1 is read there,
//! a write's own result is its data, and each operation is performed once, wherever the transport answers that it is busy or that it failed.

ghost use Rattle.std.specs.Prelude.{◌≡◌, ◌<◌, ◌≤◌, All, IfSome, IsSome, length};
ghost use Rattle.debug_model.specs.Dmi.{IsOperation};
ghost use Rattle.debug_model.specs.Loaded.{AsLoaded};
ghost use Rattle.debug_model.specs.Many.{operations_most};

use arrayvec::ArrayVec;
use chip_core::{Bench, BenchWire};
use debug_model::{Counts, Dmi, DmiFault, DmiOp, Event, OPERATIONS_MOST, Round, Schedule};
use hart_debug::Start;
use probe_dmi::Link;
use probe_scan::Scanner;
use std::alloc::Global;
use std::process::Abort;
use std::test::Fail;
use sys_events::{ListSchedule, SeedSchedule};

const DMCONTROL: u8 = 0x10;

const DATA0: u8 = 0x04;

const DATA1: u8 = 0x05;

/// The bytes of the smallest RAM.
const RAM_LEAST: u64 = 65_536;

/// Three operations as a link's first call: a reset, the instruction, and four scans.
const FIRST_CALL_RISES: u64 = 201;

/// A busy answer costs two scans more, and so many rises of TCK.
const BUSY_RISES: u64 = 105;

const THREE: [DmiOp; 3] = [
    DmiOp::Write(DMCONTROL, 1),
    DmiOp::Write(DATA0, 7),
    DmiOp::Read(DATA0),
];

const FIVE: [DmiOp; 5] = [
    DmiOp::Write(DMCONTROL, 1),
    DmiOp::Write(DATA0, 7),
    DmiOp::Write(DATA1, 9),
    DmiOp::Read(DATA0),
    DmiOp::Read(DATA1),
];

/// What a link's first call came to.
#[derive(Drop)]
struct Came {
    answer: Result<(), DmiFault>,
    results: ArrayVec<u32, OPERATIONS_MOST>,
    alive: bool,
    counts: Counts,
}

/// These operations as a link's first call, on a bench that was loaded; and whether the link learns to wait.
fn first_call<Q: Schedule>(bench: &mut Bench<Q>, operations: &[DmiOp], paced: bool) -> Came
    requires some { 0 < length operations.now }
    requires few { length operations.now ≤ operations_most }
    requires operations { All IsOperation operations.now }
    requires loaded { IsSome bench.old }
    requires fresh { IfSome bench.old AsLoaded }
{
    let mut results = ArrayVec::new();
    let scan = Scanner::new(BenchWire::new(bench, 256));
    let mut link = if paced {
        Link::paced(scan)
    } else {
        Link::new(scan)
    };
    let answer = link.many(operations, &mut results);
    let alive = link.alive();
    drop(link);
    Came {
        answer,
        results,
        alive,
        counts: bench.counts(),
    }
}

fn seeded(
    alloc: Global,
    operations: &[DmiOp],
    paced: bool,
    harts: u8,
    seed: u64,
    busy: u8,
) -> Result<Came, Fail>
    requires some { 0 < length operations.now }
    requires few { length operations.now ≤ operations_most }
    requires operations { All IsOperation operations.now }
    requires harts { (1 ≤ harts) × (harts ≤ 4) }
    requires busy { (1 ≤ busy) × (busy ≤ 32) }
{
    let mut bench = Bench::blank();
    bench.load(
        alloc,
        &[],
        u64::from(harts),
        RAM_LEAST,
        Start::Running,
        SeedSchedule::new(seed, busy, harts),
    )?;
    Ok(first_call(&mut bench, operations, paced))
}

fn listed(alloc: Global, rounds: Vec<Round>) -> Result<Came, Fail> {
    let mut bench = Bench::blank();
    bench.load(
        alloc,
        &[],
        1,
        RAM_LEAST,
        Start::Running,
        ListSchedule::new(rounds),
    )?;
    Ok(first_call(&mut bench, &THREE, false))
}

/// So many rounds, each with this event but for 50 from `first` on, which have that one, where there is one.
fn windowed(alloc: Global, first: usize, within: Option<Event>) -> Result<Vec<Round>, Fail> {
    let mut rounds = Vec::new(alloc);
    for place in 0..500 {
        let mut round = Round::new();
        if place < first || first + 50 <= place {
            round.push(Event::DmiDone);
        } else if let Some(event) = within {
            round.push(event);
        }
        rounds.push(round)?;
    }
    Ok(rounds)
}

#[test]
fn three_operations_take_four_scans(rt: HostRuntime) -> Result<(), Fail> {
    for seed in 0..8 {
        let came = seeded(rt.alloc(), &THREE, false, 1, seed, 1)?;
        assert_eq!(rt; came.answer, Ok(()));
        assert_eq!(rt; came.results.as_slice(), [1, 7, 7].as_slice());
        assert_eq!(rt; (came.counts.dmi_done, came.counts.dmi_busy), (3, 0));
        assert!(rt; came.counts.rounds <= FIRST_CALL_RISES);
    }
    Ok(())
}

fn check(rt: &impl Abort, came: Came) -> u64 {
    assert_eq!(rt; came.answer, Ok(()));
    assert!(rt; came.alive);
    assert_eq!(rt; came.results.as_slice(), [1, 7, 9, 7, 9].as_slice());
    assert_eq!(rt; (came.counts.dmi_done, came.counts.dmi_failed), (5, 0));
    came.counts.dmi_busy
}

#[test]
fn each_operation_is_performed_once_and_in_order(rt: HostRuntime) -> Result<(), Fail> {
    let mut found_busy = false;
    for busy in 1..=32 {
        for harts in 1..=4 {
            for seed in 0..2 {
                let came = seeded(rt.alloc(), &FIVE, false, harts, seed, busy)?;
                found_busy = check(&rt, came) > 0 || found_busy;
                let came = seeded(rt.alloc(), &FIVE, true, harts, seed, busy)?;
                found_busy = check(&rt, came) > 0 || found_busy;
            }
        }
    }
    assert!(rt; found_busy);
    Ok(())
}

#[test]
fn a_busy_answer_at_any_place(rt: HostRuntime) -> Result<(), Fail> {
    let mut most = 0;
    for first in 0..240 {
        let came = listed(rt.alloc(), windowed(rt.alloc(), first, None)?)?;
        assert_eq!(rt; came.answer, Ok(()));
        assert_eq!(rt; came.results.as_slice(), [1, 7, 7].as_slice());
        assert_eq!(rt; (came.counts.dmi_done, came.counts.dmi_failed), (3, 0));
        let busy_rises = BUSY_RISES.saturating_mul(came.counts.dmi_busy);
        assert!(rt; came.counts.rounds <= busy_rises.saturating_add(FIRST_CALL_RISES));
        most = came.counts.dmi_busy.max(most);
    }
    assert!(rt; most > 0);
    Ok(())
}

#[test]
fn a_failed_operation_at_any_place(rt: HostRuntime) -> Result<(), Fail> {
    // behind none, one and two operations, and of none
    let mut seen = [false; 4];
    for first in 0..240 {
        let came = listed(
            rt.alloc(),
            windowed(rt.alloc(), first, Some(Event::DmiFail))?,
        )?;
        let done = came.counts.dmi_done;
        if done == 3 {
            assert_eq!(rt; came.answer, Ok(()));
            assert_eq!(rt; came.results.as_slice(), [1, 7, 7].as_slice());
            assert_eq!(rt; came.counts.dmi_failed, 0);
        } else {
            assert_eq!(rt; came.answer, Err(DmiFault::Failed));
            assert!(rt; !came.alive && came.results.is_empty());
            assert_eq!(rt; came.counts.dmi_failed, 1);
        }
        if let Some(place) = seen.get_mut(done as usize) {
            *place = true;
        }
    }
    assert_eq!(rt; seen, [true; 4]);
    Ok(())
}
