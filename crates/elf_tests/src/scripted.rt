//! Sessions that load a file over operations whose answers are given beforehand: words of `dmstatus`, `abstractcs` and `sbcs` by the layouts of RISC-V Debug
//! Specification 1.0, "Debug Module Registers" and "System Bus Access".

ghost use Rattle.std.specs.Prelude.{◌≡◌, true};

use crate::files::SMALL;
use arrayvec::ArrayVec;
use debug_model::{ScriptedDmi, WireFault};
use elf_load::read_elf;
use elf_session::run_elf;
use jt_base::MemorySink;
use probe_session::Ended;
use script_lang::parse;
use std::alloc::Global;
use std::process::Abort;
use std::rt::HostRuntime;
use std::test::Fail;

/// Room for everything that a session here prints.
const AMPLE: usize = 65_536;

/// A hart that is halted: `anyhalted` and `allhalted`.
const STOPPED: u32 = 0x0383;

/// A hart that runs: `anyrunning` and `allrunning`.
const RUNNING: u32 = 0x0c83;

/// `sbcs` with no access under way and no error.
const STORED: u32 = 0x2004_080f;

/// `abstractcs` with no command under way and no error, and with `cmderr` 3.
const ENDED: u32 = 0x0400_0002;

const REFUSED: u32 = 0x0400_0302;

/// What is answered up to the write of pc: the opening with its Look, the Look of the hart, a run of two elements, and the Look behind it.
const LOADED: [u32; 8] = [
    0x1071,
    1,
    0x000c_0383,
    ENDED,
    STORED,
    STOPPED,
    STORED,
    STOPPED,
];

/// A session over these answers, which then fail, ends so, and prints this.
fn check_answered(
    rt: &impl Abort,
    alloc: Global,
    words: &[u32],
    ended: Ended,
    printed: &str,
) -> Result<(), Fail> {
    let mut answers: ArrayVec<u32, 64> = ArrayVec::new();
    for word in words {
        let _room = answers.try_push(*word);
    }
    let mut link = ScriptedDmi::new(answers);
    let elf = read_elf(&SMALL)?;
    let commands = parse(alloc, b"end\n")?;
    let mut out = MemorySink::new(alloc, AMPLE, Vec::new(alloc))?;
    let end = run_elf(&mut link, &elf, &SMALL, &commands, &mut out);
    assert_eq!(rt; out.bytes(), printed.as_bytes());
    assert_eq!(rt; end, ended);
    Ok(())
}

/// Behind each number of answers the link fails, and nothing was printed.
#[test]
fn a_link_that_fails_ends_the_session(rt: HostRuntime) -> Result<(), Fail> {
    let alloc = rt.alloc();
    for count in 0..=LOADED.len() {
        check_answered(
            &rt,
            alloc,
            &LOADED[..count],
            Ended::Wire(WireFault::RecvFailed),
            "",
        )?;
    }
    Ok(())
}

/// The hart was halted at the first Look, and runs at the one behind the elements.
#[test]
fn a_hart_that_runs_behind_the_elements_keeps_its_pc(rt: HostRuntime) -> Result<(), Fail> {
    let mut words = LOADED;
    words[7] = RUNNING;
    check_answered(
        &rt,
        rt.alloc(),
        &words,
        Ended::WithErrors,
        "error: hart 0 is running\n",
    )
}

#[test]
fn a_refused_pc_is_said(rt: HostRuntime) -> Result<(), Fail> {
    let mut words = [0; 9];
    words[..8].copy_from_slice(&LOADED);
    words[8] = REFUSED;
    check_answered(
        &rt,
        rt.alloc(),
        &words,
        Ended::WithErrors,
        "error: register pc refused\n",
    )
}
