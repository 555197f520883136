//! Sessions over operations whose answers are given beforehand: words of `dmstatus` by the layout of RISC-V Debug Specification 1.0, "Debug Module
//! Status".

ghost use Rattle.std.specs.Prelude.{◌≡◌, true};

use arrayvec::ArrayVec;
use debug_model::ScriptedDmi;
use jt_base::MemorySink;
use probe_session::{Ended, run_script};
use script_lang::parse;
use std::alloc::Global;
use std::process::Abort;
use std::test::Fail;

/// Room for everything that a session here prints.
const AMPLE: usize = 65_536;

/// What the opening is answered, with a Look of hart 0 that shows it running.
const OPENING: [u32; 5] = [0x1071, 1, 0x000c_0c83, 0x0400_0002, 0x2004_080f];

/// A hart that runs: `anyrunning` and `allrunning`.
const RUNNING: u32 = 0x0c83;

/// A hart that is halted: `anyhalted` and `allhalted`.
const STOPPED: u32 = 0x0383;

/// `abstractcs` with no command under way and no error, and with `cmderr` 3 (RISC-V Debug Specification 1.0, "Abstract Control and Status").
const ENDED: u32 = 0x0400_0002;

const REFUSED: u32 = 0x0400_0302;

/// A hart that is not there: `anynonexistent` and `allnonexistent`.
const ABSENT: u32 = 0xc083;

/// The opening's answers, and these.
fn answered(words: &[u32]) -> ScriptedDmi
    ensures { result.alive ≡ true }
{
    let mut answers: ArrayVec<u32, 64> = ArrayVec::new();
    for word in OPENING {
        let _room = answers.try_push(word);
    }
    for word in words {
        let _room = answers.try_push(*word);
    }
    ScriptedDmi::new(answers)
}

/// A session of this script over these answers ends so, and prints this.
fn check_answered(
    rt: &impl Abort,
    alloc: Global,
    script: &str,
    words: &[u32],
    ended: Ended,
    printed: &str,
) -> Result<(), Fail> {
    let mut link = answered(words);
    let commands = parse(alloc, script.as_bytes())?;
    let mut out = MemorySink::new(alloc, AMPLE, Vec::new(alloc))?;
    let end = run_script(&mut link, &commands, &mut out);
    assert_eq!(rt; out.bytes(), printed.as_bytes());
    assert_eq!(rt; end, ended);
    Ok(())
}

#[test]
fn wait_ends_at_a_hart_that_is_not_there(rt: HostRuntime) -> Result<(), Fail> {
    check_answered(
        &rt,
        rt.alloc(),
        "wait 3\nstate\nwait 3\n",
        &[RUNNING, RUNNING, ABSENT, ABSENT, RUNNING, RUNNING, RUNNING],
        Ended::WithErrors,
        "error: no hart 0\nerror: no hart 0\nrunning\n",
    )
}

/// The words are read behind the end of the one transfer: behind an error there are none, and no transfer is tried again.
#[test]
fn mip_is_asked_for_once(rt: HostRuntime) -> Result<(), Fail> {
    check_answered(
        &rt,
        rt.alloc(),
        "reg mip\nreg mip\nreg mip 1\n",
        &[
            STOPPED, ENDED, 8, 0, STOPPED, REFUSED, STOPPED, ENDED, ENDED, 0, 0,
        ],
        Ended::WithErrors,
        "mip 0x0000000000000008\nerror: register mip refused\nmip 0x0000000000000000\n",
    )
}

/// Of any other register they are read with it, the upper one first.
#[test]
fn another_register_is_asked_for_with_its_words(rt: HostRuntime) -> Result<(), Fail> {
    check_answered(
        &rt,
        rt.alloc(),
        "reg mie\n",
        &[STOPPED, 0, 8, ENDED],
        Ended::Clean,
        "mie 0x0000000000000008\n",
    )
}
