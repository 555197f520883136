//! The bytes of the stream: the device identification in pieces, and ends at their places.

use crate::bench::{Listed, bench_of, feed};
use arrayvec::ArrayVec;
use chip_core::{Answers, Fed};
use debug_model::Event;
use hart_debug::Start;
use std::process::Abort;
use std::test::Fail;

/// Five clocks to Test-Logic-Reset, then to Shift-DR, 32 clocks that ask for TDO, and to Run-Test/Idle: 118 bytes.
const READ_IDCODE: &[u8; 118] =
    b"2626262626042604040R40R40R40R40R40R40R40R40R40R40R40R40R40R40R40R40R40R40R40R40R40R40R40R40R40R40R40R40R40R40R42R62604";

/// The bits of 0x10d64001, the lowest first: version 1, part 0x0d64, manufacturer 0.
const IDCODE: &[u8; 32] = b"10000000000000100110101100001000";

/// Feeds the bytes in pieces of at most this size, and gives all answers.
fn answers_in_pieces(bench: &mut Listed, bytes: &[u8], piece: usize) -> Answers {
    let mut answers = ArrayVec::new();
    let mut rest = bytes;
    for _ in 0..256 {
        let (front, back) = rest.split_at(rest.len().min(piece));
        if bench.is_loaded() && answers.len() + front.len() <= 256 {
            bench.feed(front, &mut answers);
        }
        rest = back;
    }
    answers
}

#[test]
fn idcode_is_answered_in_every_piece(rt: HostRuntime) -> Result<(), Fail> {
    for piece in [1, 2, 3, 256] {
        let mut bench = bench_of(rt.alloc(), 1, Start::Running, &[Event::Turn(0)])?;
        let answers = answers_in_pieces(&mut bench, READ_IDCODE, piece);
        assert_eq!(rt; answers.as_slice(), IDCODE.as_slice());
        assert_eq!(rt; bench.counts().rounds, 43);
    }
    Ok(())
}

/// An end at its place, and then twice more at the first byte of a piece, where no question is answered.
fn check_end(rt: &impl Abort, bench: Listed, bytes: &[u8], first: Fed, later: Fed) {
    let mut bench = bench;
    if !bench.is_loaded() || bytes.len() > 256 {
        return;
    }
    let (fed, answers) = feed(&mut bench, bytes);
    assert_eq!(rt; fed, first);
    assert_eq!(rt; answers.as_slice(), b"0".as_slice());
    assert_eq!(rt; bench.counts().rounds, 1);
    let (again, silence) = feed(&mut bench, b"R");
    assert_eq!(rt; again, later);
    assert!(rt; silence.is_empty());
    let (nothing, _) = feed(&mut bench, b"");
    assert_eq!(rt; nothing, Fed::All);
    let (other, _) = feed(&mut bench, b"x04");
    assert_eq!(rt; other, later);
    assert_eq!(rt; bench.counts().rounds, 1);
    assert!(rt; !bench.at_limit());
}

#[test]
fn ends_stand_at_their_places(rt: HostRuntime) -> Result<(), Fail> {
    let bench = bench_of(rt.alloc(), 1, Start::Running, &[Event::Turn(0)])?;
    check_end(&rt, bench, b"0R4Q04R", Fed::Quit(3), Fed::Quit(0));
    let bench = bench_of(rt.alloc(), 1, Start::Running, &[Event::Turn(0)])?;
    check_end(&rt, bench, b"04Rq04Q", Fed::Bad(3, b'q'), Fed::Bad(0, b'q'));
    Ok(())
}
