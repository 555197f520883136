//! Sessions straight to the chip on a bench: what they do that their lines do not show. The sessions of scripts stand in sessions/.

ghost use Rattle.std.specs.Prelude.{◌≡◌, None};

use super::{Held, NO_FAILURE, PROGRAM, check_words, outcome_of, quiet_net, two_files};
use chip_core::Bench;
use jtag_run::{FarSide, Status};
use std::alloc::Global;
use std::process::Abort;
use std::test::Fail;
use sys_events::SeedSchedule;

// The first rises of TCK bring no answer yet, and the highest limit is 2^62.
#[test]
fn the_limit_is_that_of_the_words(rt: HostRuntime) -> Result<(), Fail> {
    let cases = [
        ("--events 1", Status::EventLimit, "event limit\n"),
        (
            "--events 0x4000000000000000",
            Status::Clean,
            "idcode 0x10d64001\n",
        ),
        ("--events 0", Status::Words, "words refused\n"),
    ];
    for (events, status, printed) in cases {
        let line = format!(in rt.alloc(); "both --image i --script s {events}")?;
        let held = Held {
            image: PROGRAM,
            script: b"idcode",
            fail_at: NO_FAILURE,
        };
        check_words(&rt, rt.alloc(), line.as_str(), held, status, printed)?;
    }
    Ok(())
}

/// How many rounds pass, how many turns the harts have and how many Looks are taken in a session that reads the IDCODE of a chip that these words describe.
pub fn counted(alloc: Global, chip: &str) -> Result<(u64, u64, u64), Fail> {
    let line = format!(in alloc; "both --image i --script s --piece 3 {chip}")?;
    let mut files = two_files(alloc, PROGRAM, b"idcode", NO_FAILURE)?;
    let outcome = outcome_of(alloc, line.as_str(), &mut files, &mut quiet_net(alloc)?)?;
    let journal = outcome.bench.journal();
    Ok((
        outcome.bench.counts().rounds,
        journal.turns(),
        journal.looks(),
    ))
}

// At busy 1 each hart has its turn in each round, running or halted, and at busy 2 in every second one. The opening of a session takes one Look.
#[test]
fn harts_have_the_turns_of_their_schedule(rt: HostRuntime) -> Result<(), Fail> {
    let alloc = rt.alloc();
    let (rounds, turns, looks) = counted(alloc, "--harts 1 --busy 1")?;
    assert!(rt; rounds > 43);
    assert_eq!(rt; (turns, looks), (rounds, 1));
    let (rounds, turns, looks) = counted(alloc, "--harts 4 --busy 1 --halted")?;
    assert_eq!(rt; (turns, looks), (rounds.wrapping_mul(4), 1));
    let (rounds, turns, looks) = counted(alloc, "--harts 1 --busy 2")?;
    assert!(rt; rounds / 2 <= turns && turns <= (rounds / 2).wrapping_add(1));
    assert_eq!(rt; looks, 1);
    Ok(())
}

/// A program, a script for it on a halted hart, and what its session comes to.
#[derive(Clone, Copy)]
pub struct Row {
    pub image: &'static [u8],
    pub script: &'static [u8],
    pub status: u8,
    pub printed: &'static str,
}

/// One step.
pub const STEPPED: Row = Row {
    image: PROGRAM,
    script: b"step\nreg x5\n",
    status: 0,
    printed: "halted at 0x0000000080000004 by step\nx5 0x0000000000000005\n",
};

/// Two stops at the jump.
const STOPPED: Row = Row {
    image: PROGRAM,
    script: b"break 0x80000008\nresume\nwait\nreg x5\nresume\nwait\nreg x5\n",
    status: 0,
    printed: "slot 0 break 0x0000000080000008
resumed
halted at 0x0000000080000008 by trigger 0
x5 0x0000000000000006
resumed
halted at 0x0000000080000008 by trigger 0
x5 0x0000000000000007
",
};

/// A read behind the end of RAM, which leaves the registers that reads go through.
pub const FAULTY: Row = Row {
    image: PROGRAM,
    script: b"reg x8 0x11\nreg x9 0x22\nread 8 0x80010000\nreg x8\nreg x9\n",
    status: 1,
    printed: "x8 0x0000000000000011
x9 0x0000000000000022
error: memory fault at 0x0000000080010000
x8 0x0000000000000011
x9 0x0000000000000022
",
};

/// The same over the system bus.
pub const FAULTY_BUS: Row = Row {
    image: PROGRAM,
    script: b"via bus\nreg x8 0x11\nreg x9 0x22\nread 8 0x80010000\nreg x8\nreg x9\n",
    status: 1,
    printed: "via bus
x8 0x0000000000000011
x9 0x0000000000000022
error: memory fault at 0x0000000080010000
x8 0x0000000000000011
x9 0x0000000000000022
",
};

/// The machine software interrupt in vectored mode, which a step takes, and a break that stops the hart before it (RISC-V Privileged Specification,
/// "Machine Trap-Vector Base-Address Register"). With one hart there is one MSIP word.
const INTERRUPTED: Row = Row {
    image: PROGRAM,
    script: b"reg mtvec 0x80000041\nreg mie 8\nreg mstatus 8\nwrite 4 0x2000000 0xff\nread 4 0x2000000\nread 4 0x2000004\nbreak 0x80000000\nresume\n\
wait\nstep\nreg mcause\nreg mepc\nreg mstatus\n",
    status: 1,
    printed: "mtvec 0x0000000080000041
mie 0x0000000000000008
mstatus 0x0000000000001808
wrote 1
0x0000000002000000 0x00000001
error: memory fault at 0x0000000002000004
slot 0 break 0x0000000080000000
resumed
halted at 0x0000000080000000 by trigger 0
halted at 0x000000008000004c by step
mcause 0x8000000000000003
mepc 0x0000000080000000
mstatus 0x0000000000001880
",
};

/// The rows that each way to a chip has to give alike.
pub const ROWS: [Row; 4] = [STEPPED, STOPPED, FAULTY, FAULTY_BUS];

/// A session of `both` on a row's script, with these further words, over this net: the bench behind it.
pub fn check_row<N: FarSide>(
    rt: &impl Abort,
    alloc: Global,
    more: &str,
    row: &Row,
    net: &mut N,
) -> Result<Bench<SeedSchedule>, Fail>
    requires { (N.state net.old).ties.opening ≡ None }
{
    let line = format!(in alloc; "both --image i --script s --halted {more}")?;
    let mut files = two_files(alloc, row.image, row.script, NO_FAILURE)?;
    let outcome = outcome_of(alloc, line.as_str(), &mut files, net)?;
    assert_eq!(rt; outcome.out.bytes(), row.printed.as_bytes(), "{more}");
    assert_eq!(rt; outcome.status, row.status, "{more}");
    Ok(outcome.bench)
}

#[test]
fn software_interrupts_print_their_lines(rt: HostRuntime) -> Result<(), Fail> {
    let alloc = rt.alloc();
    for more in ["", "--v013", "--busy 32", "--v013 --chain 4,t"] {
        check_row(&rt, alloc, more, &INTERRUPTED, &mut quiet_net(alloc)?)?;
    }
    Ok(())
}

#[test]
fn rows_print_their_lines(rt: HostRuntime) -> Result<(), Fail> {
    let alloc = rt.alloc();
    for row in ROWS {
        check_row(&rt, alloc, "", &row, &mut quiet_net(alloc)?)?;
        check_row(&rt, alloc, "--piece 1", &row, &mut quiet_net(alloc)?)?;
        check_row(&rt, alloc, "--v013", &row, &mut quiet_net(alloc)?)?;
        let slow = check_row(&rt, alloc, "--busy 32", &row, &mut quiet_net(alloc)?)?;
        assert!(rt; slow.counts().dmi_busy > 0);
    }
    Ok(())
}
