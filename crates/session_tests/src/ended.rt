//! How sessions end where a hart has no turns, and where the sink fails.

ghost use Rattle.std.specs.Prelude.{IfSome, IsSome, IfOk};
ghost use Rattle.debug_model.specs.Loaded.{AsLoaded};

use crate::chips::{HALTED, PROGRAM, loaded, run_on};
use chip_core::Bench;
use debug_model::{Event, Round};
use hart_debug::Start;
use jt_base::MemorySink;
use probe_session::{Ended, LostCause};
use script_lang::parse;
use std::alloc::Global;
use std::process::Abort;
use std::test::Fail;
use sys_events::ListSchedule;

/// Room for everything that a session here prints.
const AMPLE: usize = 65_536;

/// The bytes of the smallest RAM.
const RAM_LEAST: u64 = 65_536;

/// A chip with two running harts, of which only the first has turns.
fn starved(alloc: Global) -> Result<Bench<ListSchedule>, Fail>
    ensures loaded { IfOk result IsSome }
    ensures fresh { IfOk result (λ bench. IfSome bench AsLoaded) }
{
    let mut round = Round::new();
    round.push(Event::Turn(0));
    round.push(Event::DmiDone);
    round.push(Event::CmdStep);
    round.push(Event::BusDone);
    let mut rounds = Vec::new(alloc);
    rounds.push(round)?;
    let mut bench = Bench::blank();
    bench.load(
        alloc,
        PROGRAM,
        2,
        RAM_LEAST,
        Start::Running,
        ListSchedule::new(rounds),
    )?;
    Ok(bench)
}

#[test]
fn a_hart_without_turns_is_not_halted(rt: HostRuntime) -> Result<(), Fail> {
    let alloc = rt.alloc();
    let mut bench = starved(alloc)?;
    let script = parse(alloc, b"hart 1\nhalt\nidcode\n")?;
    let mut out = MemorySink::new(alloc, AMPLE, Vec::new(alloc))?;
    let end = run_on(&mut bench, &script, &mut out);
    assert_eq!(rt; end, Ended::Lost(LostCause::NoHalt(64)));
    assert_eq!(rt; out.bytes(), b"hart 1\n".as_slice());
    Ok(())
}

/// A session of this script whose put of that number fails ends so, and has printed this.
fn check_cut(
    rt: &impl Abort,
    alloc: Global,
    script: &[u8],
    fail_at: u32,
    printed: &[u8],
) -> Result<(), Fail> {
    let mut bench = loaded(alloc, PROGRAM, HALTED)?;
    let commands = parse(alloc, script)?;
    let mut fails = Vec::new(alloc);
    fails.push(fail_at)?;
    let mut out = MemorySink::new(alloc, AMPLE, fails)?;
    let end = run_on(&mut bench, &commands, &mut out);
    assert_eq!(rt; end, Ended::Sink);
    assert_eq!(rt; out.bytes(), printed);
    Ok(())
}

#[test]
fn a_sink_that_fails_ends_the_session(rt: HostRuntime) -> Result<(), Fail> {
    let alloc = rt.alloc();
    check_cut(&rt, alloc, b"step\nreg x5\n", 0, b"")?;
    check_cut(
        &rt,
        alloc,
        b"dump 0x80000000 33\nidcode\n",
        1,
        b"0x0000000080000000 93025000938212006ff0dfff00000000\n",
    )
}
