//! Run control of loaded chips. What a Look sees is what was loaded; a hart without turns neither halts nor acknowledges.

ghost use Rattle.std.specs.Prelude.{◌<◌, ◌≤◌, ◌^◌, IfOk, IfSome, IsSome};
ghost use Rattle.chip_core.specs.Loads.{IsFirst};
ghost use Rattle.debug_model.specs.Kept.{CanCall};
ghost use Rattle.debug_model.specs.Loaded.{AsLoaded};
ghost use Rattle.debug_model.specs.Told.{IsAsLoaded};

use crate::fault::Fault;
use chip_core::{Bench, BenchWire};
use debug_model::{Dmi, Event, Round, Schedule};
use hart_debug::Start;
use probe_dmi::Link;
use probe_run::{RunFault, Seen, connect};
use probe_scan::Scanner;
use std::alloc::Global;
use std::process::Abort;
use std::test::Fail;
use sys_events::{ListSchedule, SeedSchedule};

/// The bytes of the smallest RAM.
const RAM_LEAST: u64 = 65_536;

/// The bytes of a piece.
const PIECE: usize = 256;

/// Opens the chip, looks at a hart that is not there, and halts one that runs. It answers that hart's number.
fn halt_running<D: Dmi>(link: &mut D, absent: u16, hart: u16) -> Result<u16, Fault>
    requires absent { absent < 2 ^ 10 }
    requires hart { hart < 2 ^ 10 }
    requires callable { CanCall (D.seen link.old) }
    requires loaded { IsAsLoaded (D.seen link.old).far }
{
    let target = connect(link)?;
    let Seen::Absent = target.look(link, absent)? else {
        return Err(Fault::SeenOtherwise);
    };
    let Seen::Running(running) = target.look(link, hart)? else {
        return Err(Fault::SeenOtherwise);
    };
    let halted = running.halt(link)?;
    Ok(halted.hart())
}

/// Opens the chip and lets hart 0 go, which is halted.
fn resume_halted<D: Dmi>(link: &mut D) -> Result<u16, Fault>
    requires callable { CanCall (D.seen link.old) }
    requires loaded { IsAsLoaded (D.seen link.old).far }
{
    let target = connect(link)?;
    let Seen::Halted(halted) = target.look(link, 0)? else {
        return Err(Fault::SeenOtherwise);
    };
    let running = halted.resume(link)?;
    Ok(running.hart())
}

fn halt_over<Q: Schedule>(bench: &mut Bench<Q>, absent: u16, hart: u16) -> Result<u16, Fault>
    requires absent { absent < 2 ^ 10 }
    requires hart { hart < 2 ^ 10 }
    requires loaded { IsSome bench.old }
    requires fresh { IfSome bench.old AsLoaded }
{
    let mut link = Link::new(Scanner::new(BenchWire::new(bench, PIECE)));
    halt_running(&mut link, absent, hart)
}

fn resume_over<Q: Schedule>(bench: &mut Bench<Q>) -> Result<u16, Fault>
    requires loaded { IsSome bench.old }
    requires fresh { IfSome bench.old AsLoaded }
{
    let mut link = Link::new(Scanner::new(BenchWire::new(bench, PIECE)));
    resume_halted(&mut link)
}

fn check_seeded(rt: &impl Abort, alloc: Global, harts: u8, busy: u8) -> Result<(), Fail>
    requires harts { (1 ≤ harts) × (harts ≤ 4) }
    requires busy { (1 ≤ busy) × (busy ≤ 32) }
{
    let last = u16::from(harts) - 1;
    let schedule = SeedSchedule::new(7, busy, harts);
    let mut bench = Bench::blank();
    bench.load(
        alloc,
        &[],
        u64::from(harts),
        RAM_LEAST,
        Start::Running,
        schedule,
    )?;
    assert_eq!(rt; halt_over(&mut bench, u16::from(harts), last), Ok(last));
    let schedule = SeedSchedule::new(7, busy, harts);
    bench.load(
        alloc,
        &[],
        u64::from(harts),
        RAM_LEAST,
        Start::Halted,
        schedule,
    )?;
    assert_eq!(rt; resume_over(&mut bench), Ok(0));
    Ok(())
}

#[test]
fn running_harts_halt_and_halted_ones_go(rt: HostRuntime) -> Result<(), Fail> {
    for harts in 1..=4 {
        for busy in [1, 5, 32] {
            check_seeded(&rt, rt.alloc(), harts, busy)?;
        }
    }
    Ok(())
}

/// A schedule in which every part of the debug module has its event in each round, and no hart a turn.
fn without_turns(alloc: Global) -> Result<ListSchedule, Fail>
    ensures { IfOk result (λ schedule. IsFirst schedule) }
{
    let mut round = Round::new();
    round.push(Event::DmiDone);
    round.push(Event::CmdStep);
    round.push(Event::BusDone);
    let mut rounds = Vec::new(alloc);
    rounds.push(round)?;
    Ok(ListSchedule::new(rounds))
}

#[test]
fn a_hart_without_turns_gives_up_after_64_looks(rt: HostRuntime) -> Result<(), Fail> {
    let alloc = rt.alloc();
    let mut bench = Bench::blank();
    bench.load(
        alloc,
        &[],
        2,
        RAM_LEAST,
        Start::Running,
        without_turns(alloc)?,
    )?;
    assert_eq!(rt;
        halt_over(&mut bench, 2, 1),
        Err(Fault::Run(RunFault::NoHalt(64)))
    );
    bench.load(
        alloc,
        &[],
        1,
        RAM_LEAST,
        Start::Halted,
        without_turns(alloc)?,
    )?;
    assert_eq!(rt;
        resume_over(&mut bench),
        Err(Fault::Run(RunFault::NoAck(64)))
    );
    Ok(())
}
