//! Commands that are refused, and what they leave.

use crate::chips::PROGRAM;
use crate::rows::{Row, check_rows};
use probe_session::Ended;
use std::test::Fail;

/// Each refusal leaves the breakpoints as they are.
const REFUSED: Row = Row {
    image: PROGRAM,
    harts: 1,
    script: "unsoft 0x80000008
soft 0x80010000
unsoft 0x80010000
soft 0xfffffffffffffffc
soft 0x80000008
soft 0x80000008
ebreak off
unsoft 0x80000004
ebreak on
read 4 0x80000008
resume
wait
unsoft 0x80000008
unsoft 0x80000008
ebreak off
soft 0x80000008
resume
wait
reg x5
",
    printed: "error: soft 0x0000000080000008 not set
error: memory fault at 0x0000000080010000
error: soft 0x0000000080010000 not set
error: memory fault at 0xfffffffffffffffc
soft 0x0000000080000008 set
error: soft 0x0000000080000008 is set
error: soft breaks are set
error: soft 0x0000000080000004 not set
ebreak on
0x0000000080000008 0xffdff06f
resumed
halted at 0x0000000080000008 by ebreak
soft 0x0000000080000008 clear
error: soft 0x0000000080000008 not set
ebreak off
soft 0x0000000080000008 set
resumed
halted at 0x0000000080000008 by ebreak
x5 0x0000000000000007
",
    ended: Ended::WithErrors,
    changed: &[],
    covered: &[0x8000_0008],
    accesses: 11,
};

/// The second hart runs, so nothing is set, though the first one is halted.
const RUNNING: Row = Row {
    image: PROGRAM,
    harts: 2,
    script: "hart 1
resume
hart 0
soft 0x80000008
read 4 0x80000008
unsoft 0x80000008
",
    printed: "hart 1
resumed
hart 0
error: hart 1 is running
0x0000000080000008 0xffdff06f
error: soft 0x0000000080000008 not set
",
    ended: Ended::WithErrors,
    changed: &[],
    covered: &[],
    accesses: 1,
};

/// How many may be set at a time.
const MOST: u64 = 32;

/// Where the first of them is set.
const FIRST: u64 = 0x8000_0100;

/// One that is set there is refused as that, also where no more can be set.
const MOVED: &str = "soft 0x80000100
unsoft 0x80000100
soft 0x80000180
soft 0x80000100
";

/// What that prints.
const MOVED_PRINTED: &str = "error: soft 0x0000000080000100 is set
soft 0x0000000080000100 clear
soft 0x0000000080000180 set
error: no free soft break
";

#[test]
fn refusals_change_nothing(rt: HostRuntime) -> Result<(), Fail> {
    check_rows(&rt, rt.alloc(), &[REFUSED, RUNNING])
}

/// All of them are set and the 33rd is refused; behind that it takes the place of the first one.
#[test]
fn thirty_two_are_set_and_no_more(rt: HostRuntime) -> Result<(), Fail> {
    let alloc = rt.alloc();
    let mut script = String::new(alloc);
    let mut printed = String::new(alloc);
    let mut covered = Vec::new(alloc);
    let mut moved_covered = Vec::new(alloc);
    for number in 0..MOST {
        let address = FIRST + 4 * number;
        script = format!(in alloc; "{script}soft {address}\n")?;
        printed = format!(in alloc; "{printed}soft 0x00000000{address:x} set\n")?;
        covered.push(address)?;
        moved_covered.push(address + 4)?;
    }
    script = format!(in alloc; "{script}soft 0x80000180\n")?;
    printed = format!(in alloc; "{printed}error: no free soft break\n")?;
    let full = Row {
        image: PROGRAM,
        harts: 1,
        script: script.as_str(),
        printed: printed.as_str(),
        ended: Ended::WithErrors,
        changed: &[],
        covered: covered.as_slice(),
        accesses: 96,
    };
    check_rows(&rt, alloc, &[full])?;
    let moved_script = format!(in alloc; "{script}{MOVED}")?;
    let moved_printed = format!(in alloc; "{printed}{MOVED_PRINTED}")?;
    let moved = Row {
        image: PROGRAM,
        harts: 1,
        script: moved_script.as_str(),
        printed: moved_printed.as_str(),
        ended: Ended::WithErrors,
        changed: &[],
        covered: moved_covered.as_slice(),
        accesses: 99,
    };
    check_rows(&rt, alloc, &[moved])
}
