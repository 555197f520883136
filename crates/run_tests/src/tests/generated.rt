//! Sessions that are made from a number: a halt, and 100 stops of six commands each.

ghost use Rattle.std.specs.Prelude.{◌≡◌, None};

use super::{AMPLE, NO_FAILURE, net_of, outcome_of, quiet_net, run_once, two_files, word_list};
use chip_core::Bench;
use jt_base::MemorySink;
use jtag_run::FarSide;
use std::alloc::Global;
use std::process::Abort;
use std::test::Fail;

/// The summary of a session in which each command prints one line.
const SUMMARY: &str = "commands 601\nerrors 0\nlines 601\n";

/// A run of these words over this net, which asks for no file.
fn check_generated<N: FarSide>(
    rt: &impl Abort,
    alloc: Global,
    line: &str,
    net: &mut N,
) -> Result<(), Fail>
    requires { (N.state net.old).ties.opening ≡ None }
{
    let mut files = two_files(alloc, b"", b"", 0)?;
    let outcome = outcome_of(alloc, line, &mut files, net)?;
    assert_eq!(rt; outcome.out.bytes(), SUMMARY.as_bytes(), "{line}");
    assert_eq!(rt; outcome.status, 0, "{line}");
    Ok(())
}

#[test]
fn generated_sessions_print_their_summary(rt: HostRuntime) -> Result<(), Fail> {
    let alloc = rt.alloc();
    let cases = [
        "both --gen 1",
        "both --gen 2 --harts 4 --busy 32",
        "both --gen 2 --halted --piece 1",
        "both --gen 2 --loopback",
        "both --gen 2 --chain 4,t,6",
    ];
    for line in cases {
        let mut net = net_of(alloc, b"", 256, AMPLE, NO_FAILURE)?;
        check_generated(&rt, alloc, line, &mut net)?;
    }
    Ok(())
}

#[test]
fn a_summary_that_fails_gives_its_status(rt: HostRuntime) -> Result<(), Fail> {
    let alloc = rt.alloc();
    let words = word_list(alloc, "both --gen 1")?;
    for (room, fail_at, printed) in [(AMPLE, 0, ""), (5, NO_FAILURE, "comma")] {
        let mut files = two_files(alloc, b"", b"", NO_FAILURE)?;
        let mut net = quiet_net(alloc)?;
        let mut listed = Vec::new(alloc);
        listed.push(fail_at)?;
        let mut out = MemorySink::new(alloc, room, listed)?;
        let mut bench = Bench::blank();
        let ended = run_once(alloc, &words, &mut files, &mut net, &mut out, &mut bench);
        assert_eq!(rt; ended.code(), 8);
        assert_eq!(rt; out.bytes(), printed.as_bytes());
    }
    Ok(())
}
