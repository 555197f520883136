//! Rounds: one at each rise of TCK, the turns of harts that are there, and a schedule without rounds.

use crate::bench::{Listed, bench_of, feed};
use chip_core::{Bench, Fed, LoadFault};
use debug_model::Event;
use hart_debug::Start;
use std::alloc::Global;
use std::process::Abort;
use std::test::Fail;
use sys_events::ListSchedule;

/// The bytes are taken whole, and behind them the journal has so many turns and no other point, and so many rounds were counted.
fn check_turns(rt: &impl Abort, bench: Listed, bytes: &[u8], turns: u64, rounds: u64) {
    let mut bench = bench;
    if !bench.is_loaded() || bytes.len() > 256 {
        return;
    }
    let (fed, _) = feed(&mut bench, bytes);
    assert_eq!(rt; fed, Fed::All);
    assert_eq!(rt; bench.counts().rounds, rounds);
    let journal = bench.journal();
    assert_eq!(rt; (journal.len(), journal.turns()), (turns, turns));
}

#[test]
fn harts_that_are_there_have_their_turns(rt: HostRuntime) -> Result<(), Fail> {
    let events = [
        Event::Turn(1),
        Event::Turn(3),
        Event::DmiDone,
        Event::Turn(0),
        Event::Turn(2),
        Event::DmiFail,
        Event::CmdStep,
        Event::BusDone,
    ];
    let bench = bench_of(rt.alloc(), 2, Start::Running, &events)?;
    check_turns(&rt, bench, b"0044004", 4, 2);
    Ok(())
}

#[test]
fn a_rise_takes_its_round_also_under_trst(rt: HostRuntime) -> Result<(), Fail> {
    let bench = bench_of(rt.alloc(), 1, Start::Halted, &[Event::Turn(0)])?;
    check_turns(&rt, bench, b"u04b", 1, 1);
    Ok(())
}

fn bench_without_rounds(alloc: Global) -> Result<Listed, LoadFault> {
    let mut bench = Bench::blank();
    let schedule = ListSchedule::new(Vec::new(alloc));
    bench.load(alloc, &[], 1, 65_536, Start::Running, schedule)?;
    Ok(bench)
}

#[test]
fn no_rounds_are_empty_rounds(rt: HostRuntime) -> Result<(), Fail> {
    let bench = bench_without_rounds(rt.alloc())?;
    check_turns(&rt, bench, b"040404", 0, 3);
    Ok(())
}
