//! What a command of a session costs on a loaded chip in rises of TCK, where the transport is never found busy: 46 for each scan of `dmi`, and one scan more
//! than operations for each call.

ghost use Rattle.std.specs.Prelude.{IfSome, IsSome};
ghost use Rattle.debug_model.specs.Loaded.{AsLoaded};

use crate::chips::{HALTED, PIECE, PROGRAM, loaded};
use chip_core::{Bench, BenchWire};
use debug_model::{Schedule, Script};
use jt_base::{MemorySink, Sink};
use probe_dmi::Link;
use probe_scan::Scanner;
use probe_session::{Ended, run_script};
use script_lang::parse;
use std::alloc::Global;
use std::process::Abort;
use std::test::Fail;

/// Room for everything that a session here prints.
const AMPLE: usize = 65_536;

/// A scan of `dmi`.
const SCAN_RISES: u64 = 46;

/// A Look of the hart that is known to be selected: one operation.
const LOOK_SCANS: u64 = 2;

/// A Look, and a register.
const REGISTER_SCANS: u64 = LOOK_SCANS + 5;

/// A Look that selects its hart: two operations in one call.
const HART_SCANS: u64 = 3;

/// `dcsr`, which shows why the hart halted.
const CAUSE_SCANS: u64 = 5;

/// A single step from a word of `dcsr`: it writes `dcsr` with both data words, asks the hart with the first Look, reads `dcsr` by one data word, and
/// writes it.
const STEP_FROM_SCANS: u64 = 5 + 3 + 4 + 5;

/// A single step, which reads `dcsr` first by one data word.
const ONE_STEP_SCANS: u64 = 4 + STEP_FROM_SCANS;

/// Where the hart stands, for a line: `dpc` and `dcsr` in one call of six operations.
const STOP_SCANS: u64 = 7;

/// A step right behind one: a Look, a single step, and where the hart stands.
const STEP_SCANS: u64 = LOOK_SCANS + ONE_STEP_SCANS + STOP_SCANS;

/// A step behind another command: a Look, `dcsr`, a single step from its word, and where the hart stands.
const LATER_STEP_SCANS: u64 = LOOK_SCANS + CAUSE_SCANS + STEP_FROM_SCANS + STOP_SCANS;

/// One step more of several.
const NEXT_STEP_SCANS: u64 = CAUSE_SCANS + STEP_FROM_SCANS;

/// Right behind a step: a Look, and the request with its first Look.
const RESUME_SCANS: u64 = LOOK_SCANS + 3;

/// One byte more of a run, which its data0 is read for.
const BYTE_SCANS: u64 = 1;

/// One session, whose link waits between scans so long that no operation is found under way.
fn run_paced<Q: Schedule, K: Sink>(bench: &mut Bench<Q>, script: &Script, out: &mut K) -> Ended
    requires loaded { IsSome bench.old }
    requires fresh { IfSome bench.old AsLoaded }
{
    let mut link = Link::paced(Scanner::new(BenchWire::new(bench, PIECE)));
    run_script(&mut link, script, out)
}

/// The rises of TCK of a session with this script on a halted hart, all of whose commands are done.
fn rises_of(rt: &impl Abort, alloc: Global, script: &str) -> Result<u64, Fail> {
    let mut bench = loaded(alloc, PROGRAM, HALTED)?;
    let commands = parse(alloc, script.as_bytes())?;
    let mut out = MemorySink::new(alloc, AMPLE, Vec::new(alloc))?;
    let ended = run_paced(&mut bench, &commands, &mut out);
    assert_eq!(rt; ended, Ended::Clean);
    assert_eq!(rt; bench.counts().dmi_busy, 0);
    Ok(bench.counts().rounds)
}

#[test]
fn one_command_more_takes_so_many_scans(rt: HostRuntime) -> Result<(), Fail> {
    // a script, the same with one command more, and the scans of that
    let cases = [
        ("reg x5\n", "reg x5\nreg x5\n", REGISTER_SCANS),
        ("hart 0\n", "hart 0\nhart 0\n", HART_SCANS),
        ("hart 0\n", "hart 0\nreg x5\n", REGISTER_SCANS),
        (
            "idcode\nvia bus\nread 1 0x80000000\n",
            "idcode\nvia bus\nread 1 0x80000000\nreg x5\n",
            REGISTER_SCANS,
        ),
        ("step\nstep\n", "step\nstep\nstep\n", STEP_SCANS),
        ("step 2\n", "step 3\n", NEXT_STEP_SCANS),
        ("step\n", "step\nresume\n", RESUME_SCANS),
        (
            "step\nreg x5\n",
            "step\nreg x5\nresume\n",
            RESUME_SCANS + CAUSE_SCANS,
        ),
        ("step\nreg x5\n", "step\nreg x5\nstep\n", LATER_STEP_SCANS),
        ("dump 0x80000000 60\n", "dump 0x80000000 61\n", BYTE_SCANS),
    ];
    for (shorter, longer, scans) in cases {
        let before = rises_of(&rt, rt.alloc(), shorter)?;
        let after = rises_of(&rt, rt.alloc(), longer)?;
        assert!(rt; after > before);
        assert_eq!(rt; (after - before) / SCAN_RISES, scans);
        assert_eq!(rt; (after - before) % SCAN_RISES, 0);
    }
    Ok(())
}
