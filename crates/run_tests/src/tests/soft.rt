//! Runs whose script may set software breakpoints: what they print and leave in memory, which files they ask for, what they refuse, and what they leave open.

use super::sessions::STEPPED;
use super::{
    AMPLE, Held, NO_FAILURE, Outcome, PROGRAM, check_words, net_of, outcome_of, quiet_net,
    two_files,
};
use arrayvec::ArrayVec;
use bench_links::BenchNet;
use chip_core::Bench;
use debug_model::Net;
use hart_debug::Start;
use jtag_run::Status;
use rv_model::Size;
use std::alloc::Global;
use std::test::Fail;
use sys_events::SeedSchedule;

/// The bytes of the smallest RAM.
const RAM_LEAST: u64 = 65_536;

/// The start of RAM.
const RAM: u64 = 0x8000_0000;

/// A breakpoint at the jump, which is met twice, and a read of the word there.
const MET: &[u8] =
    b"soft 0x80000008\nresume\nwait\nreg x5\nread 4 0x80000008\nresume\nwait\nreg x5\n";

const PRINTED: &str = "soft 0x0000000080000008 set
resumed
halted at 0x0000000080000008 by ebreak
x5 0x0000000000000006
0x0000000080000008 0xffdff06f
resumed
halted at 0x0000000080000008 by ebreak
x5 0x0000000000000007
";

// Behind the session memory has the program, and no ebreak.
#[test]
fn an_ebreak_is_met_and_not_shown(rt: HostRuntime) -> Result<(), Fail> {
    let alloc = rt.alloc();
    let mut files = two_files(alloc, PROGRAM, MET, NO_FAILURE)?;
    let line = "both --image i --script s --halted --soft";
    let outcome = outcome_of(alloc, line, &mut files, &mut quiet_net(alloc)?)?;
    assert_eq!(rt; outcome.out.bytes(), PRINTED.as_bytes());
    assert_eq!(rt; outcome.status, 0);
    assert!(rt; outcome.bench.is_loaded());
    if outcome.bench.is_loaded() {
        let memory = outcome.bench.ram();
        assert_eq!(rt;
            memory.load(RAM, Size::B8).ok(),
            Some(0x0012_8293_0050_0293)
        );
        assert_eq!(rt; memory.load(RAM + 8, Size::B8).ok(), Some(0xffdf_f06f));
    }
    Ok(())
}

#[test]
fn a_breakpoint_is_set_beside_halted_harts_alone(rt: HostRuntime) -> Result<(), Fail> {
    let held = Held {
        image: PROGRAM,
        script: b"unsoft 0x80000000\nsoft 0x80000000\n",
        fail_at: NO_FAILURE,
    };
    let printed = "error: soft 0x0000000080000000 not set\nerror: hart 0 is running\n";
    let line = "both --image i --script s --soft";
    check_words(&rt, rt.alloc(), line, held, Status::WithErrors, printed)
}

#[test]
fn files_are_asked_for_in_order(rt: HostRuntime) -> Result<(), Fail> {
    let held = Held {
        image: PROGRAM,
        script: MET,
        fail_at: NO_FAILURE,
    };
    let first = Held { fail_at: 0, ..held };
    let second = Held { fail_at: 1, ..held };
    let odd = Held {
        script: b"soft 0x80000002",
        ..held
    };
    let line = "both --soft --image i --script s";
    let no_file = (Status::File, "file failed: s\n");
    let out_of_range = (Status::Script, "script refused: line 1 fault 6\n");
    let unknown = (Status::Script, "script refused: line 1 fault 2\n");
    let cases = [
        (line, first, no_file.0, no_file.1),
        (line, second, Status::File, "file failed: i\n"),
        (line, odd, out_of_range.0, out_of_range.1),
        (
            "both --soft --image i --script s --harts 5",
            held,
            Status::Image,
            "image refused: fault 3\n",
        ),
        ("both --image i --script s", held, unknown.0, unknown.1),
        ("probe --at x --script s", held, unknown.0, unknown.1),
    ];
    for (line, held, status, printed) in cases {
        check_words(&rt, rt.alloc(), line, held, status, printed)?;
    }
    Ok(())
}

#[test]
fn words_beside_soft_are_refused(rt: HostRuntime) -> Result<(), Fail> {
    let held = Held {
        image: PROGRAM,
        script: MET,
        fail_at: NO_FAILURE,
    };
    let lines = [
        "both --soft --image i --script s --loopback",
        "both --soft --image i --script s --chain 4,t",
        "both --soft --elf i --script s",
        "both --soft --gen 1",
        "both --soft --script s",
        "probe --soft --at x --script s --chain 4,t",
        "probe --soft --at x --script s --elf i",
        "chip --soft --at x --image i",
    ];
    for line in lines {
        check_words(
            &rt,
            rt.alloc(),
            line,
            held,
            Status::Words,
            "words refused\n",
        )?;
    }
    Ok(())
}

/// A run of a probe with the script over a net that ends at a chip with the program, whose hart is halted.
fn probed(alloc: Global) -> Result<Outcome, Fail> {
    let mut files = two_files(alloc, b"", MET, NO_FAILURE)?;
    let mut bench = Bench::blank();
    let schedule = SeedSchedule::new(0, 1, 1);
    bench.load(alloc, PROGRAM, 1, RAM_LEAST, Start::Halted, schedule)?;
    let mut net = BenchNet::new(&mut bench, 256, ArrayVec::new());
    outcome_of(
        alloc,
        "probe --at x --soft --script s",
        &mut files,
        &mut net,
    )
}

#[test]
fn a_probe_meets_an_ebreak(rt: HostRuntime) -> Result<(), Fail> {
    let outcome = probed(rt.alloc())?;
    assert_eq!(rt; outcome.out.bytes(), PRINTED.as_bytes());
    assert_eq!(rt; outcome.status, 0);
    assert!(rt; !outcome.bench.is_loaded());
    Ok(())
}

// The net's first call fails, so that it would be counted.
#[test]
fn no_net_is_asked_before_the_script_is_accepted(rt: HostRuntime) -> Result<(), Fail> {
    let alloc = rt.alloc();
    let line = "probe --at x --soft --script s";
    let mut files = two_files(alloc, PROGRAM, b"soft 0x80000001", NO_FAILURE)?;
    let mut net = net_of(alloc, b"", 1, AMPLE, 0)?;
    let outcome = outcome_of(alloc, line, &mut files, &mut net)?;
    assert_eq!(rt;
        outcome.out.bytes(),
        b"script refused: line 1 fault 6\n".as_slice()
    );
    assert_eq!(rt; (net.faults(), net.ends()), (0, 0));
    let mut accepted = two_files(alloc, PROGRAM, STEPPED.script, NO_FAILURE)?;
    let mut faulty = net_of(alloc, b"", 1, AMPLE, 0)?;
    let unopened = outcome_of(alloc, line, &mut accepted, &mut faulty)?;
    assert_eq!(rt; unopened.status, 7);
    Ok(())
}
