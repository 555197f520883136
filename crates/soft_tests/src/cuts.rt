//! Sessions over a net that fails at each of its calls in turn: what they have printed, and what memory holds then.

ghost use Rattle.std.specs.Prelude.{◌≡◌, None, IfSome, IsSome};
ghost use Rattle.debug_model.specs.Told.{IsAsLoaded, IsRead};

use crate::chips::{AMPLE, EBREAK, PIECE, PROGRAM, first_difference, halted_chip, word_at};
use arrayvec::ArrayVec;
use bench_links::{BenchNet, FAILING_MOST};
use debug_model::{Net, NetFault, SoftScript};
use jt_base::MemorySink;
use jtag_net::NetWire;
use probe_session::Ended;
use script_lang::parse_soft;
use soft_session::run_soft_session;
use std::alloc::Global;
use std::process::Abort;
use std::test::Fail;

/// A hart stops at the word, and steps over it.
const SCRIPT: &[u8] = b"soft 0x80000008\nresume\nwait\nstep\nreg x5\n";

/// What it prints up to the step, and behind that.
const BEFORE_STEP: &str =
    "soft 0x0000000080000008 set\nresumed\nhalted at 0x0000000080000008 by ebreak\n";

const BEHIND_STEP: &str = "halted at 0x0000000080000004 by step\nx5 0x0000000000000006\n";

/// The word, and what the program has there.
const PLACE: u64 = 0x8000_0008;

const JUMP: u64 = 0xffdf_f06f;

/// More calls than the session makes.
const CALLS_MOST: u32 = 10_000;

/// A session over a net that is not open yet.
fn run_over<N: Net>(
    net: &mut N,
    alloc: Global,
    script: &SoftScript,
    out: &mut MemorySink,
) -> Result<Ended, NetFault>
    requires unopened { (N.state net.old).ties.opening ≡ None }
{
    net.connect(alloc, "the bench")?;
    let mut wire = NetWire::new(net);
    Ok(run_soft_session(&mut wire, script, out))
}

/// How a session ended, how many of its bytes were printed, and the word then.
#[derive(Clone, Copy)]
struct Cut {
    ended: Ended,
    printed: usize,
    word: Option<u64>,
}

/// A session whose call of that number fails: it prints a front of the lines, and memory but for the word is as it was loaded.
fn check_cut(rt: &impl Abort, alloc: Global, call: u32, whole: &str) -> Result<Cut, Fail> {
    let before = halted_chip(alloc, PROGRAM, 1, 1)?;
    let mut bench = halted_chip(alloc, PROGRAM, 1, 1)?;
    let script = parse_soft(alloc, SCRIPT)?;
    let mut out = MemorySink::new(alloc, AMPLE, Vec::new(alloc))?;
    let mut failing: ArrayVec<u32, FAILING_MOST> = ArrayVec::new();
    failing.push(call);
    let mut net = BenchNet::new(&mut bench, PIECE, failing);
    let ended = run_over(&mut net, alloc, &script, &mut out)?;
    assert!(rt; whole.as_bytes().starts_with(out.bytes()), "call {call}");
    assert_eq!(rt;
        first_difference(&bench, &before, &[PLACE]),
        None,
        "call {call}"
    );
    Ok(Cut {
        ended,
        printed: out.bytes().len(),
        word: word_at(&bench, PLACE),
    })
}

/// The first call opens the net, and the last one ends the stream. Between them the word is lifted for a while.
#[test]
fn each_cut_leaves_a_front_of_the_lines_and_the_rest_of_memory(
    rt: HostRuntime,
) -> Result<(), Fail> {
    let alloc = rt.alloc();
    let whole = format!(in alloc; "{BEFORE_STEP}{BEHIND_STEP}")?;
    let mut before = 0;
    let mut was_covered = false;
    let mut was_lifted = false;
    let mut ended = None;
    for call in 1..CALLS_MOST {
        let cut = check_cut(&rt, alloc, call, whole.as_str())?;
        assert!(rt; before <= cut.printed, "call {call}");
        before = cut.printed;
        ended = Some(cut.ended);
        if matches!(cut.ended, Ended::Clean) {
            break;
        }
        assert!(rt; matches!(cut.ended, Ended::Wire(_)), "call {call}");
        match cut.word {
            Some(EBREAK) => was_covered = true,
            Some(JUMP) => {
                if cut.printed == BEFORE_STEP.len() {
                    was_lifted = true;
                }
            }
            _ => assert!(rt; false, "call {call}"),
        }
    }
    assert_eq!(rt; ended, Some(Ended::Clean));
    assert_eq!(rt; before, whole.len());
    assert!(rt; was_covered);
    assert!(rt; was_lifted);
    Ok(())
}
