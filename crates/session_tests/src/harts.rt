//! Which hart the Looks of a session are of, on a chip with two: each hart keeps a number of its own in x6.

use crate::chips::{Loading, PROGRAM, loaded, run_on};
use hart_debug::Start;
use jt_base::MemorySink;
use probe_session::Ended;
use script_lang::parse;
use std::alloc::Global;
use std::process::Abort;
use std::test::Fail;

/// Room for everything that a session here prints.
const AMPLE: usize = 4_096;

/// Both harts halted.
const TWO: Loading = Loading {
    start: Start::Halted,
    seed: 1,
    busy: 1,
    harts: 2,
};

/// x6 is 6 in hart 0, and 7 in hart 1, which is selected then.
const NUMBERED: &str = "reg x6 6\nhart 1\nreg x6 7\n";

/// What that prints.
const NUMBERED_LINES: &str = "x6 0x0000000000000006\nhart 1\nx6 0x0000000000000007\n";

/// Behind these numbers a session of this script prints this, and ends so.
fn check_behind(
    rt: &impl Abort,
    alloc: Global,
    script: &str,
    printed: &str,
    ended: Ended,
) -> Result<(), Fail> {
    let whole = format!(in alloc; "{NUMBERED}{script}")?;
    let lines = format!(in alloc; "{NUMBERED_LINES}{printed}")?;
    let mut bench = loaded(alloc, PROGRAM, TWO)?;
    let commands = parse(alloc, whole.as_bytes())?;
    let mut out = MemorySink::new(alloc, AMPLE, Vec::new(alloc))?;
    let end = run_on(&mut bench, &commands, &mut out);
    assert_eq!(rt; out.bytes(), lines.as_bytes());
    assert_eq!(rt; end, ended);
    Ok(())
}

#[test]
fn each_look_is_of_the_selected_hart(rt: HostRuntime) -> Result<(), Fail> {
    check_behind(
        &rt,
        rt.alloc(),
        "reg x6\nhart 0\nreg x6\nreg x6\nhart 1\nreg x6\n",
        "x6 0x0000000000000007\nhart 0\nx6 0x0000000000000006\nx6 0x0000000000000006\nhart 1\nx6 0x0000000000000007\n",
        Ended::Clean,
    )
}

#[test]
fn a_hart_that_is_not_there_leaves_the_old_one_selected(rt: HostRuntime) -> Result<(), Fail> {
    check_behind(
        &rt,
        rt.alloc(),
        "hart 3\nreg x6\nhart 0\nhart 2\nreg x6\nreg x6\n",
        "error: no hart 3\nx6 0x0000000000000007\nhart 0\nerror: no hart 2\nx6 0x0000000000000006\nx6 0x0000000000000006\n",
        Ended::WithErrors,
    )
}

/// The word of hart 1 is the second of those that raise software interrupts.
#[test]
fn mip_is_of_the_selected_hart(rt: HostRuntime) -> Result<(), Fail> {
    check_behind(
        &rt,
        rt.alloc(),
        "reg mip\nwrite 4 0x2000004 1\nreg mip\nreg mip 0\nhart 0\nreg mip\n",
        "mip 0x0000000000000000\nwrote 1\nmip 0x0000000000000008\nmip 0x0000000000000008\nhart 0\nmip 0x0000000000000000\n",
        Ended::Clean,
    )
}
