//! A chain scanner over a TAP of the debug transport between side TAPs, clock by clock: IEEE 1149.1, the serial connection of components.

use crate::{ChainPlan, ChainScanner, ChainWire, SIDES_MOST, SideTap};
use arrayvec::ArrayVec;
use bitbang_stream::classify;
use debug_model::{NO_ANSWER, Scan, Sign, WireFault, instruction_code};
use jt_base::Bits;
use jtag_dtm::Tap;
use std::process::Abort;
use std::test::Fail;

/// A device of two bits, the transport, and a device of eight bits, from TDO to TDI. It tells nothing.
#[derive(Drop)]
struct Taps {
    near: SideTap,
    transport: Tap,
    far: SideTap,
    tck: bool,
    answers: ArrayVec<u8, 64>,
}

impl Taps {
    fn rise(&mut self, tms: bool, tdi: bool) {
        self.near.rise(tms, self.transport.tdo());
        self.transport.rise(tms, self.far.tdo());
        self.far.rise(tms, tdi);
    }

    fn fall(&mut self) {
        self.near.fall();
        self.transport.fall();
        self.far.fall();
    }

    fn take(&mut self, sign: Sign) {
        match sign {
            Sign::Pins(tck, tms, tdi) => {
                if tck && !self.tck {
                    self.rise(tms, tdi);
                }
                if !tck && self.tck {
                    self.fall();
                }
                self.tck = tck;
            }
            Sign::Ask => {
                let answer = if self.near.tdo() { b'1' } else { b'0' };
                let _room = self.answers.try_push(answer);
            }
            _ => {}
        }
    }
}

impl ChainWire for Taps {
    ghost use Rattle.std.specs.Prelude.{None, true};
    ghost use Rattle.debug_model.specs.Ties.{no_ties};

    ghost far = { λ _. None };

    ghost coming = { λ _. None };

    ghost fault_count = { λ _. 0 };

    ghost gives = { λ _. true };

    ghost ties = { λ _. no_ties };

    fn send(&mut self, bytes: &[u8]) -> Result<(), WireFault> {
        for byte in bytes {
            if let Ok(sign) = classify(*byte) {
                self.take(sign);
            }
        }
        Ok(())
    }

    fn recv(&mut self, into: &mut [u8]) -> Result<(), WireFault> {
        for i in 0..into.len() {
            into[i] = *self.answers.get(i).unwrap_or(&NO_ANSWER);
        }
        self.answers.clear();
        Ok(())
    }

    fn faults(&self) -> u64 {
        0
    }
}

fn three_taps() -> Taps {
    Taps {
        near: SideTap::new(2),
        transport: Tap::new(),
        far: SideTap::new(8),
        tck: false,
        answers: ArrayVec::new(),
    }
}

/// These lengths in the order of the list.
fn widths(list: &[u8]) -> ArrayVec<u8, SIDES_MOST> {
    let mut all = ArrayVec::new();
    for width in list {
        let _room = all.try_push(*width);
    }
    all
}

#[test]
fn the_transport_is_identified_between_others(rt: HostRuntime) -> Result<(), Fail> {
    match ChainPlan::new(widths(&[2]), widths(&[8])) {
        Some(plan) => {
            let mut scanner = ChainScanner::new(three_taps(), plan);
            scanner.reset()?;
            // Version 1, part 0x0d64, manufacturer 0, and the 1 that IEEE 1149.1 fixes.
            assert_eq!(rt; scanner.dr(Bits::from_u64(0, 32))?.value(), 0x10d6_4001);
            // The RISC-V Debug Specification 1.0, "DTM Control and Status": version 1 in bits 3 to 0, abits 7 in bits 9 to 4, dmistat 0, idle 1.
            scanner.ir(instruction_code::DTMCS)?;
            assert_eq!(rt; scanner.dr(Bits::from_u64(0, 32))?.value(), 0x1071);
            scanner.idle(3)?;
            // BYPASS: one bit, which captures 0.
            scanner.ir(0x1f)?;
            assert_eq!(rt; scanner.dr(Bits::from_u64(1, 1))?.value(), 0);
        }
        None => assert!(rt; false),
    }
    Ok(())
}

#[test]
fn another_plan_than_the_chains_reads_another_number(rt: HostRuntime) -> Result<(), Fail> {
    match ChainPlan::new(widths(&[2, 8]), widths(&[])) {
        Some(plan) => {
            let mut scanner = ChainScanner::new(three_taps(), plan);
            scanner.reset()?;
            assert!(rt; scanner.dr(Bits::from_u64(0, 32))?.value() != 0x10d6_4001);
        }
        None => assert!(rt; false),
    }
    Ok(())
}
