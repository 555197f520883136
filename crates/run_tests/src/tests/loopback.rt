//! Sessions over a connection of the machine to itself.

use super::sessions::{ROWS, Row, check_row};
use super::{AMPLE, NO_FAILURE, Outcome, net_of, outcome_of, two_files};
use jtag_net::TcpNet;
use std::alloc::Global;
use std::process::Abort;
use std::test::Fail;

#[test]
fn rows_print_their_lines_over_a_loop(rt: HostRuntime) -> Result<(), Fail> {
    let alloc = rt.alloc();
    for row in ROWS {
        let mut memory = net_of(alloc, b"", 256, AMPLE, NO_FAILURE)?;
        check_row(&rt, alloc, "--loopback", &row, &mut memory)?;
        check_row(&rt, alloc, "--loopback", &row, &mut TcpNet::new(&rt))?;
    }
    Ok(())
}

/// The session of a row over a loop whose call `fail_at` fails.
fn failing(alloc: Global, row: &Row, fail_at: u32) -> Result<Outcome, Fail> {
    let line = "both --image i --script s --halted --loopback";
    let mut files = two_files(alloc, row.image, row.script, NO_FAILURE)?;
    let mut net = net_of(alloc, b"", 256, AMPLE, fail_at)?;
    outcome_of(alloc, line, &mut files, &mut net)
}

/// Of the lines of a session whose wire failed, those before the last one.
fn before_failure(printed: &[u8]) -> Option<&[u8]> {
    match printed.strip_suffix(b"wire failed: send\n".as_slice()) {
        Some(front) => Some(front),
        None => printed.strip_suffix(b"wire failed: receive\n".as_slice()),
    }
}

/// A session that the wire cut short: nothing stands before its last line but what the row's own session prints.
pub fn check_cut(rt: &impl Abort, outcome: &Outcome, row: &Row, fail_at: u32) {
    assert_eq!(rt; outcome.status, 7, "call {fail_at}");
    let front = before_failure(outcome.out.bytes());
    let is_front = front.is_some_and(|front| row.printed.as_bytes().starts_with(front));
    assert!(rt; is_front, "call {fail_at}");
}

#[test]
fn a_loop_that_fails_gives_its_status(rt: HostRuntime) -> Result<(), Fail> {
    let alloc = rt.alloc();
    for row in &ROWS {
        let unopened = failing(alloc, row, 0)?;
        assert_eq!(rt; unopened.status, 7);
        assert_eq!(rt; unopened.out.bytes(), b"wire failed: open\n".as_slice());
        assert_eq!(rt; unopened.bench.counts().rounds, 0);
        for fail_at in 1..=12 {
            check_cut(&rt, &failing(alloc, row, fail_at)?, row, fail_at);
        }
    }
    Ok(())
}
