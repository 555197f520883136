//! Scans through a chain, over a wire that tells nothing: the bytes that go out, by OpenOCD's remote_bitbang and the state diagram of IEEE 1149.1.

use crate::{ChainPlan, ChainScanner, ChainWire, SIDES_MOST};
use arrayvec::ArrayVec;
use debug_model::{NO_ANSWER, Scan, WireFault};
use jt_base::{Bits, count_fault};
use std::process::Abort;
use std::test::Fail;

/// A wire that keeps what is sent, answers zeros, and fails once so many calls were good.
#[derive(Drop)]
struct KeepingWire {
    sent: ArrayVec<u8, 256>,
    good_calls: u8,
    failed: u64,
}

impl ChainWire for KeepingWire {
    ghost use Rattle.std.specs.Prelude.{None, true};
    ghost use Rattle.debug_model.specs.Ties.{no_ties};

    ghost far = { λ _. None };

    ghost coming = { λ _. None };

    ghost fault_count = { λ w. w.failed };

    ghost gives = { λ _. true };

    ghost ties = { λ _. no_ties };

    fn send(&mut self, bytes: &[u8]) -> Result<(), WireFault> {
        if self.good_calls == 0 || self.sent.try_extend_from_slice(bytes).is_err() {
            count_fault(&mut self.failed);
            return Err(WireFault::SendFailed);
        }
        self.good_calls -= 1;
        Ok(())
    }

    fn recv(&mut self, into: &mut [u8]) -> Result<(), WireFault> {
        into.fill(NO_ANSWER);
        Ok(())
    }

    fn faults(&self) -> u64 {
        self.failed
    }
}

/// These lengths in the order of the list.
fn widths(list: &[u8]) -> ArrayVec<u8, SIDES_MOST> {
    let mut all = ArrayVec::new();
    for width in list {
        let _room = all.try_push(*width);
    }
    all
}

fn keeping(good_calls: u8) -> KeepingWire {
    KeepingWire {
        sent: ArrayVec::new(),
        good_calls,
        failed: 0,
    }
}

/// Five clocks with TMS 1, one with TMS 0; then to Shift-IR, two ones, IDCODE from its lowest bit on, three ones, and back.
const RESET: &[u8] = b"26262626260426260404151515040404041515372604";

#[test]
fn a_reset_is_followed_by_a_scan_of_all_instructions(rt: HostRuntime) -> Result<(), Fail> {
    match ChainPlan::new(widths(&[2]), widths(&[3])) {
        Some(plan) => {
            let mut scanner = ChainScanner::new(keeping(2), plan);
            assert_eq!(rt; scanner.reset(), Ok(()));
            let sent = scanner.into_wire().sent;
            assert_eq!(rt; sent.as_slice(), RESET);
        }
        None => assert!(rt; false),
    }
    Ok(())
}

#[test]
fn data_goes_between_zeros(rt: HostRuntime) -> Result<(), Fail> {
    match ChainPlan::new(widths(&[2, 8]), widths(&[3])) {
        Some(plan) => {
            let mut scanner = ChainScanner::new(keeping(9), plan);
            scanner.reset()?;
            let before = 12 + 2 * (4 + 10 + 5 + 3 + 2);
            scanner.dr(Bits::from_u64(0b01, 2))?;
            let sent = scanner.into_wire().sent;
            // To Shift-DR; a 0 for each of the two nearer devices; the two bits, asked; a 0 for the farther one, with TMS 1; and back.
            assert_eq!(rt;
                sent.get(before..),
                Some(b"26040404041R50R4262604".as_slice())
            );
        }
        None => assert!(rt; false),
    }
    Ok(())
}

#[test]
fn a_reset_that_fails_is_counted_by_the_wire(rt: HostRuntime) -> Result<(), Fail> {
    for good_calls in 0..2 {
        match ChainPlan::new(widths(&[2]), widths(&[3])) {
            Some(plan) => {
                let mut scanner = ChainScanner::new(keeping(good_calls), plan);
                assert_eq!(rt; scanner.reset(), Err(WireFault::SendFailed));
                assert_eq!(rt; scanner.faults(), 1);
            }
            None => assert!(rt; false),
        }
    }
    Ok(())
}
