//! Chips that are served over nets. The stream is IEEE 1149.1's path to the device identification register, and the answers are its bits, the lowest first.

ghost use Rattle.std.specs.Prelude.{◌<◌};

use super::{AMPLE, NO_FAILURE, PROGRAM, net_of, outcome_of, run_once, two_files, word_list};
use chip_core::Bench;
use debug_model::Net;
use jt_base::MemorySink;
use std::alloc::{AllocError, Global};
use std::process::Abort;
use std::test::Fail;

/// A reset of the TAP, a scan of its 32 bits, and two clocks back: 118 bytes.
fn stream(alloc: Global) -> Result<Vec<u8>, AllocError> {
    let mut bytes = b"262626262604260404".to_vec(alloc)?;
    for _ in 0..31 {
        bytes.extend_from_slice(b"0R4")?;
    }
    bytes.extend_from_slice(b"2R62604")?;
    Ok(bytes)
}

/// Its first bytes, and then these.
fn front(alloc: Global, count: usize, then: &[u8]) -> Result<Vec<u8>, AllocError> {
    let mut bytes = stream(alloc)?;
    bytes.truncate(count);
    bytes.extend_from_slice(then)?;
    Ok(bytes)
}

/// The bits of 0x10d64001.
const IDCODE_BITS: &[u8] = b"10000000000000100110101100001000";

/// What comes to a chip, and how it is given.
#[derive(Clone, Copy)]
struct Given<'a> {
    input: &'a [u8],
    piece: usize,
    room: usize,
    fail_at: u32,
}

/// What a run is to show: its status, the answers that were put, what was printed, and how often the peer's end was seen.
#[derive(Clone, Copy)]
struct Wanted<'a> {
    status: u8,
    answers: &'a [u8],
    printed: &'a str,
    ends: u64,
}

/// The words of a run that serves one chip.
const SERVED: &str = "chip --at here --image i";

/// A run of these words, which serves one chip.
fn check_run(
    rt: &impl Abort,
    alloc: Global,
    line: &str,
    given: &Given,
    wanted: &Wanted,
) -> Result<(), Fail>
    requires { 0 < given.now.piece }
{
    let mut files = two_files(alloc, PROGRAM, b"", NO_FAILURE)?;
    let mut net = net_of(alloc, given.input, given.piece, given.room, given.fail_at)?;
    let outcome = outcome_of(alloc, line, &mut files, &mut net)?;
    assert_eq!(rt; outcome.status, wanted.status);
    assert_eq!(rt; net.sent(), wanted.answers);
    assert_eq!(rt; outcome.out.bytes(), wanted.printed.as_bytes());
    assert_eq!(rt; net.ends(), wanted.ends);
    Ok(())
}

/// The stream's first bytes, and then these, in pieces of each size.
fn check_pieces(
    rt: &impl Abort,
    alloc: Global,
    count: usize,
    then: &[u8],
    wanted: &Wanted,
) -> Result<(), Fail> {
    let input = front(alloc, count, then)?;
    for piece in [1, 2, 3, 256] {
        let given = Given {
            input: &input,
            piece,
            room: AMPLE,
            fail_at: NO_FAILURE,
        };
        check_run(rt, alloc, SERVED, &given, wanted)?;
    }
    Ok(())
}

/// An end without a last line.
fn answered(answers: &[u8], ends: u64) -> Wanted<'_> {
    Wanted {
        status: 0,
        answers,
        printed: "",
        ends,
    }
}

#[test]
fn streams_are_served_in_any_pieces(rt: HostRuntime) -> Result<(), Fail> {
    let alloc = rt.alloc();
    check_pieces(&rt, alloc, 0, b"", &answered(b"", 1))?;
    check_pieces(&rt, alloc, 118, b"", &answered(IDCODE_BITS, 1))?;
    check_pieces(&rt, alloc, 50, b"", &answered(b"10000000000", 1))?;
    check_pieces(&rt, alloc, 118, b"Q0R4", &answered(IDCODE_BITS, 0))?;
    let bad = Wanted {
        status: 12,
        answers: b"100000000000001001101011000",
        printed: "bad byte 0x78 at 100\n",
        ends: 0,
    };
    check_pieces(&rt, alloc, 100, b"x0R4", &bad)
}

/// The stream in pieces of 59 bytes, over a net of this room that fails at one of its calls.
fn check_failure(
    rt: &impl Abort,
    alloc: Global,
    room: usize,
    fail_at: u32,
    wanted: &Wanted,
) -> Result<(), Fail> {
    let input = stream(alloc)?;
    let given = Given {
        input: &input,
        piece: 59,
        room,
        fail_at,
    };
    check_run(rt, alloc, SERVED, &given, wanted)
}

/// A net that failed.
fn failed<'a>(answers: &'a [u8], printed: &'a str) -> Wanted<'a> {
    Wanted {
        status: 7,
        answers,
        printed,
        ends: 0,
    }
}

// The calls are: the opening, a take, a put, a take, a put, and the take that finds the end. The first piece has 14 questions.
#[test]
fn a_net_that_fails_gives_its_status(rt: HostRuntime) -> Result<(), Fail> {
    let alloc = rt.alloc();
    let first: &[u8] = b"10000000000000";
    let cases: [(usize, u32, Wanted); 9] = [
        (AMPLE, 0, failed(b"", "wire failed: open\n")),
        (AMPLE, 1, failed(b"", "wire failed: receive\n")),
        (AMPLE, 2, failed(b"", "wire failed: send\n")),
        (AMPLE, 3, failed(first, "wire failed: receive\n")),
        (AMPLE, 4, failed(first, "wire failed: send\n")),
        (AMPLE, 5, failed(IDCODE_BITS, "wire failed: receive\n")),
        (AMPLE, 6, answered(IDCODE_BITS, 1)),
        (5, NO_FAILURE, failed(b"10000", "wire failed: send\n")),
        (14, NO_FAILURE, failed(first, "wire failed: send\n")),
    ];
    for (room, fail_at, wanted) in &cases {
        check_failure(&rt, alloc, *room, *fail_at, wanted)?;
    }
    Ok(())
}

// One hart has one turn in each round. A rise that finds 24 points takes its round, and the one behind it none: of these 25 rises 9 lead to the
// register, and 16 shift it. Behind them one more bit is answered. With one event more it is one bit more.
#[test]
fn a_served_chip_has_the_limit_of_its_words(rt: HostRuntime) -> Result<(), Fail> {
    let alloc = rt.alloc();
    let input = stream(alloc)?;
    let given = Given {
        input: &input,
        piece: 59,
        room: AMPLE,
        fail_at: NO_FAILURE,
    };
    let cases: [(&str, &[u8]); 2] = [
        ("chip --at here --image i --events 24", b"10000000000000100"),
        (
            "chip --at here --image i --events 25",
            b"100000000000001001",
        ),
    ];
    for (line, answers) in cases {
        let wanted = Wanted {
            status: 10,
            answers,
            printed: "event limit\n",
            ends: 0,
        };
        check_run(&rt, alloc, line, &given, &wanted)?;
    }
    Ok(())
}

/// A run of these words over a net whose opening fails.
fn check_unopened(
    rt: &impl Abort,
    alloc: Global,
    line: &str,
    status: u8,
    printed: &str,
) -> Result<(), Fail> {
    let mut files = two_files(alloc, PROGRAM, b"", NO_FAILURE)?;
    let mut net = net_of(alloc, b"0R4", 1, AMPLE, 0)?;
    let outcome = outcome_of(alloc, line, &mut files, &mut net)?;
    assert_eq!(rt; outcome.status, status);
    assert_eq!(rt; outcome.out.bytes(), printed.as_bytes());
    assert_eq!(rt; outcome.bench.is_loaded(), status == 7);
    Ok(())
}

#[test]
fn nothing_is_opened_before_the_image_is_loaded(rt: HostRuntime) -> Result<(), Fail> {
    let cases = [
        ("chip --at here --image j", 3, "file failed: j\n"),
        (
            "chip --at here --image i --ram 65537",
            5,
            "image refused: fault 2\n",
        ),
        ("chip --at here --image i --busy 33", 2, "words refused\n"),
        (
            "chip --at here --image i --harts 4",
            7,
            "wire failed: open\n",
        ),
    ];
    for (line, status, printed) in cases {
        check_unopened(&rt, rt.alloc(), line, status, printed)?;
    }
    Ok(())
}

/// A chip that takes a bad byte, over a sink that can't take its last line.
fn check_unwritten(
    rt: &impl Abort,
    alloc: Global,
    fail_at: u32,
    room: usize,
    printed: &str,
) -> Result<(), Fail> {
    let words = word_list(alloc, "chip --at here --image i")?;
    let mut files = two_files(alloc, PROGRAM, b"", NO_FAILURE)?;
    let mut net = net_of(alloc, b"x", 1, AMPLE, NO_FAILURE)?;
    let mut listed = Vec::new(alloc);
    listed.push(fail_at)?;
    let mut out = MemorySink::new(alloc, room, listed)?;
    let mut bench = Bench::blank();
    let ended = run_once(alloc, &words, &mut files, &mut net, &mut out, &mut bench);
    assert_eq!(rt; ended.code(), 8);
    assert_eq!(rt; out.bytes(), printed.as_bytes());
    Ok(())
}

#[test]
fn a_sink_that_fails_at_the_last_line_gives_its_status(rt: HostRuntime) -> Result<(), Fail> {
    check_unwritten(&rt, rt.alloc(), 0, AMPLE, "")?;
    check_unwritten(&rt, rt.alloc(), NO_FAILURE, 12, "bad byte 0x7")
}
