//! A probe alone: over nets that end at the chip on a bench, and over nets that give what a test lists.

ghost use Rattle.std.specs.Prelude.{◌≡◌, IfOk, IfSome, IsSome, None};
ghost use Rattle.debug_model.specs.Loaded.{AsLoaded};

use super::loopback::check_cut;
use super::sessions::STEPPED;
use super::{AMPLE, NO_FAILURE, Outcome, PROGRAM, net_of, outcome_of, two_files};
use arrayvec::ArrayVec;
use bench_links::BenchNet;
use chip_core::{Answers, Bench};
use debug_model::Net;
use hart_debug::Start;
use std::alloc::Global;
use std::process::Abort;
use std::test::Fail;
use sys_events::SeedSchedule;

/// The words of a probe.
const PROBE: &str = "probe --at x --script s";

/// The bytes of the smallest RAM.
const RAM_LEAST: u64 = 65_536;

/// A bench with the program on a halted hart.
fn halted_bench(alloc: Global) -> Result<Bench<SeedSchedule>, Fail>
    ensures loaded { IfOk result IsSome }
    ensures fresh { IfOk result (λ bench. IfSome bench AsLoaded) }
{
    let mut bench = Bench::blank();
    let schedule = SeedSchedule::new(0, 1, 1);
    bench.load(alloc, PROGRAM, 1, RAM_LEAST, Start::Halted, schedule)?;
    Ok(bench)
}

/// A probe's session of one step over a net that ends at a bench, and whose call `fail_at` fails. A second call on the files fails.
fn stepped_over(alloc: Global, fail_at: u32) -> Result<Outcome, Fail> {
    let mut files = two_files(alloc, PROGRAM, STEPPED.script, 1)?;
    let mut listed = ArrayVec::new();
    listed.push(fail_at);
    let mut bench = halted_bench(alloc)?;
    let mut net = BenchNet::new(&mut bench, 256, listed);
    outcome_of(alloc, PROBE, &mut files, &mut net)
}

#[test]
fn a_probe_runs_its_script_over_a_net(rt: HostRuntime) -> Result<(), Fail> {
    let alloc = rt.alloc();
    let whole = stepped_over(alloc, NO_FAILURE)?;
    assert_eq!(rt; whole.out.bytes(), STEPPED.printed.as_bytes());
    assert_eq!(rt; whole.status, 0);
    assert!(rt; !whole.bench.is_loaded());
    let unopened = stepped_over(alloc, 0)?;
    assert_eq!(rt; unopened.out.bytes(), b"wire failed: open\n".as_slice());
    assert_eq!(rt; unopened.status, 7);
    for fail_at in 1..40 {
        check_cut(&rt, &stepped_over(alloc, fail_at)?, &STEPPED, fail_at);
    }
    Ok(())
}

// A net that tells the chip at its far side leads to that chip alone.
#[test]
fn a_net_that_tells_its_chip_is_not_opened_for_a_chain(rt: HostRuntime) -> Result<(), Fail> {
    let alloc = rt.alloc();
    let mut files = two_files(alloc, PROGRAM, STEPPED.script, 1)?;
    let mut bench = halted_bench(alloc)?;
    let mut net = BenchNet::new(&mut bench, 256, ArrayVec::new());
    let line = "probe --at x --script s --chain t,8";
    let outcome = outcome_of(alloc, line, &mut files, &mut net)?;
    assert_eq!(rt; outcome.out.bytes(), b"wire failed: open\n".as_slice());
    assert_eq!(rt; outcome.status, 7);
    assert_eq!(rt; net.faults(), 0);
    assert_eq!(rt; bench.counts().rounds, 0);
    Ok(())
}

/// A probe's session over a net that gives this input: its status, what it prints, and the last byte that it puts.
fn check_input(
    rt: &impl Abort,
    alloc: Global,
    input: &[u8],
    status: u8,
    printed: &str,
    last: Option<&u8>,
) -> Result<(), Fail> {
    let mut files = two_files(alloc, b"", b"idcode", 1)?;
    let mut net = net_of(alloc, input, 256, AMPLE, NO_FAILURE)?;
    let outcome = outcome_of(alloc, PROBE, &mut files, &mut net)?;
    assert_eq!(rt; outcome.out.bytes(), printed.as_bytes());
    assert_eq!(rt; outcome.status, status);
    assert_eq!(rt; net.sent().last(), last);
    Ok(())
}

// The first register that is read is dtmcs, which has 32 bits. Its scan ends with the byte 4. What comes before the end is judged too.
#[test]
fn what_comes_over_a_net_is_judged(rt: HostRuntime) -> Result<(), Fail> {
    let zeros = [b'0'; 4096];
    let refused = "target refused: dtmcs 0x00000000\n";
    let cases: [(&[u8], u8, &str, u8); 5] = [
        (b"x", 7, "wire failed: answer 0x78\n", b'4'),
        (b"0110", 7, "wire failed: ended\n", b'4'),
        (
            b"x0000000000000000000000000000000",
            7,
            "wire failed: answer 0x78\n",
            b'4',
        ),
        (b"", 7, "wire failed: ended\n", b'4'),
        (&zeros, 6, refused, b'Q'),
    ];
    for (input, status, printed, last) in cases {
        check_input(&rt, rt.alloc(), input, status, printed, Some(&last))?;
    }
    Ok(())
}

// The net's first call fails, so that it would be counted.
#[test]
fn no_net_is_asked_before_the_script_is_accepted(rt: HostRuntime) -> Result<(), Fail> {
    let alloc = rt.alloc();
    let cases = [
        (
            "probe --at x --script s",
            4,
            "script refused: line 1 fault 6\n",
        ),
        ("probe --at x --script t", 3, "file failed: t\n"),
    ];
    for (line, status, printed) in cases {
        let mut files = two_files(alloc, b"", b"read 3 0x80000000", NO_FAILURE)?;
        let mut net = net_of(alloc, b"", 1, AMPLE, 0)?;
        let outcome = outcome_of(alloc, line, &mut files, &mut net)?;
        assert_eq!(rt; outcome.out.bytes(), printed.as_bytes());
        assert_eq!(rt; outcome.status, status);
        assert!(rt; net.sent().is_empty());
        assert_eq!(rt; (net.faults(), net.ends()), (0, 0));
    }
    Ok(())
}

/// What a chip with the program on a halted hart answers to this stream.
fn answers_to(alloc: Global, stream: &[u8]) -> Result<Vec<u8>, Fail> {
    let mut bench = halted_bench(alloc)?;
    let mut all = Vec::new(alloc);
    for piece in stream.chunks(256) {
        let mut answers = Answers::new();
        bench.feed(piece, &mut answers);
        all.extend_from_slice(&answers)?;
    }
    Ok(all)
}

/// The most bytes of the stream that is played again.
const STREAM_MOST: usize = 65_536;

// A probe that was given the chip's answers to what it put goes on until it needs the next ones.
#[test]
fn a_stream_played_to_a_chip_is_the_session(rt: HostRuntime) -> Result<(), Fail> {
    let alloc = rt.alloc();
    let mut input = Vec::new(alloc);
    for _ in 0..200 {
        let mut files = two_files(alloc, b"", b"hart 7\nidcode\n", NO_FAILURE)?;
        let mut net = net_of(alloc, &input, 256, STREAM_MOST, NO_FAILURE)?;
        let outcome = outcome_of(alloc, PROBE, &mut files, &mut net)?;
        if outcome.status != 7 {
            let printed = b"error: no hart 7\nidcode 0x10d64001\n".as_slice();
            assert_eq!(rt; outcome.out.bytes(), printed);
            assert_eq!(rt; outcome.status, 1);
            return Ok(());
        }
        input = answers_to(alloc, net.sent())?;
    }
    assert!(rt; false, "200 runs were not enough");
    Ok(())
}
