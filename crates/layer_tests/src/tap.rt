//! The TAP against the state diagram of IEEE 1149.1 and the cases of the debug transport (RISC-V Debug Specification 1.0,
//! "JTAG Debug Transport Module"), clock by clock.

use debug_model::{DmiOp, TapState};
use jtag_dtm::{Tap, next_state};
use std::process::Abort;

/// A host that drives a TAP, and counts the rises that set the sticky status to 3.
#[derive(Drop)]
struct Host {
    tap: Tap,
    busy_rises: u32,
}

impl Host {
    fn new() -> Self {
        Host {
            tap: Tap::new(),
            busy_rises: 0,
        }
    }

    /// One clock: TCK falls, TDO is read, TCK rises.
    fn clock(&mut self, tms: bool, tdi: bool) -> bool {
        self.tap.fall();
        let level = self.tap.tdo();
        if self.tap.rise(tms, tdi) {
            self.busy_rises = self.busy_rises.saturating_add(1);
        }
        level
    }

    /// A clock for each `0` or `1`, the level of TMS, with TDI 0.
    fn follow(&mut self, levels: &[u8]) {
        for tms in levels {
            self.clock(*tms == b'1', false);
        }
    }

    /// From a Shift state: so many bits of a word go in and as many come out, and then the way to Run-Test/Idle.
    fn exchange(&mut self, bits: u8, word: u64) -> u64 {
        let mut out = 0;
        for i in 0..bits.min(64) {
            let level = self.clock(i + 1 == bits, word >> i & 1 == 1);
            out |= u64::from(level) << i;
        }
        self.follow(b"10");
        out
    }

    /// From Run-Test/Idle: the instruction register takes a code, and its captured bits come out.
    fn select(&mut self, code: u64) -> u64 {
        self.follow(b"1100");
        self.exchange(5, code)
    }

    /// From Run-Test/Idle: so many bits of a word go through the selected data register.
    fn scan(&mut self, bits: u8, word: u64) -> u64 {
        self.follow(b"100");
        self.exchange(bits, word)
    }
}

/// The sixteen states: TMS from Run-Test/Idle to each, and what follows it at TMS 0 and at TMS 1.
const STATES: [(&[u8], TapState, TapState, TapState); 16] = [
    (
        b"111",
        TapState::TestLogicReset,
        TapState::RunTestIdle,
        TapState::TestLogicReset,
    ),
    (
        b"0",
        TapState::RunTestIdle,
        TapState::RunTestIdle,
        TapState::SelectDr,
    ),
    (
        b"1",
        TapState::SelectDr,
        TapState::CaptureDr,
        TapState::SelectIr,
    ),
    (
        b"10",
        TapState::CaptureDr,
        TapState::ShiftDr,
        TapState::Exit1Dr,
    ),
    (
        b"1000",
        TapState::ShiftDr,
        TapState::ShiftDr,
        TapState::Exit1Dr,
    ),
    (
        b"101",
        TapState::Exit1Dr,
        TapState::PauseDr,
        TapState::UpdateDr,
    ),
    (
        b"10100",
        TapState::PauseDr,
        TapState::PauseDr,
        TapState::Exit2Dr,
    ),
    (
        b"10101",
        TapState::Exit2Dr,
        TapState::ShiftDr,
        TapState::UpdateDr,
    ),
    (
        b"1011",
        TapState::UpdateDr,
        TapState::RunTestIdle,
        TapState::SelectDr,
    ),
    (
        b"11",
        TapState::SelectIr,
        TapState::CaptureIr,
        TapState::TestLogicReset,
    ),
    (
        b"110",
        TapState::CaptureIr,
        TapState::ShiftIr,
        TapState::Exit1Ir,
    ),
    (
        b"11000",
        TapState::ShiftIr,
        TapState::ShiftIr,
        TapState::Exit1Ir,
    ),
    (
        b"1101",
        TapState::Exit1Ir,
        TapState::PauseIr,
        TapState::UpdateIr,
    ),
    (
        b"110100",
        TapState::PauseIr,
        TapState::PauseIr,
        TapState::Exit2Ir,
    ),
    (
        b"110101",
        TapState::Exit2Ir,
        TapState::ShiftIr,
        TapState::UpdateIr,
    ),
    (
        b"11011",
        TapState::UpdateIr,
        TapState::RunTestIdle,
        TapState::SelectDr,
    ),
];

const IDCODE: u64 = 0x10d6_4001;

#[test]
fn follows_the_state_diagram(rt: HostRuntime) {
    for (levels, state, at_zero, at_one) in STATES {
        assert_eq!(rt; next_state(state, false), at_zero);
        assert_eq!(rt; next_state(state, true), at_one);
        let mut host = Host::new();
        host.follow(b"0");
        host.follow(levels);
        assert_eq!(rt; host.tap.state(), state);
        // TRST leads from here to Test-Logic-Reset, and stays there
        host.tap.hold_reset(true);
        host.follow(b"0100");
        assert_eq!(rt; host.tap.state(), TapState::TestLogicReset);
        assert!(rt; !host.tap.tdo());
        host.tap.hold_reset(false);
        host.follow(b"0");
        assert_eq!(rt; host.scan(32, 0), IDCODE);
    }
}

#[test]
fn scans_registers(rt: HostRuntime) {
    let mut host = Host::new();
    host.follow(b"111110");
    assert_eq!(rt; host.scan(32, 0), IDCODE);
    // a code, then how many bits go in, which, and which come out
    let cases: [(u64, u8, u64, u64); 8] = [
        (0x1f, 4, 0b1101, 0b1010),
        (0x00, 7, 0b1010011, 0b0100110),
        (0x01, 40, 0xab, 0xab_10d6_4001),
        (0x10, 32, 0, 0x1071),
        (0x11, 41, 0, 0),
        (0x11, 64, 0x0123_4567_89ab_cdee, 0x579b_dc00_0000_0000),
        (0x02, 3, 0b111, 0b110),
        (0x12, 1, 1, 0),
    ];
    for (code, bits, given, wanted) in cases {
        assert_eq!(rt; host.select(code), 0b00001);
        assert_eq!(rt; host.scan(bits, given), wanted);
        assert_eq!(rt; host.tap.state(), TapState::RunTestIdle);
    }
}

#[test]
fn output_changes_at_falls(rt: HostRuntime) {
    let mut host = Host::new();
    host.follow(b"0100");
    let mut levels = [false; 6];
    for i in 0..3 {
        host.tap.fall();
        levels[2 * i] = host.tap.tdo();
        host.tap.rise(false, true);
        levels[2 * i + 1] = host.tap.tdo();
    }
    assert_eq!(rt; levels, [true, true, false, false, false, false]);
    host.follow(b"1");
    host.tap.fall();
    assert!(rt; !host.tap.tdo());
}

/// A word of dmi.
fn dmi(address: u64, data: u64, op: u64) -> u64 {
    (address % 128) << 34 | (data % 0x1_0000_0000) << 2 | op % 4
}

/// What a host and a debug module do to the transport, and what is seen.
#[derive(Clone, Copy)]
enum Step {
    /// This word goes into dmi and that one comes out.
    Dmi(u64, u64),
    /// This word goes into dtmcs and that one comes out.
    Dtmcs(u64, u64),
    /// The operation in flight is performed, with this result.
    Finish(u32),
    /// The operation in flight is dropped.
    Fail,
    /// This operation is in flight.
    Flight(Option<DmiOp>),
}

impl Host {
    fn take(&mut self, rt: &impl Abort, step: Step) {
        match step {
            Step::Dmi(given, wanted) => {
                self.select(0x11);
                assert_eq!(rt; self.scan(41, given), wanted);
            }
            Step::Dtmcs(given, wanted) => {
                self.select(0x10);
                assert_eq!(rt; self.scan(32, given), wanted);
            }
            Step::Finish(word) => {
                assert!(rt; self.tap.in_flight().is_some());
                self.tap.finish(word);
            }
            Step::Fail => {
                assert!(rt; self.tap.in_flight().is_some());
                self.tap.fail();
            }
            Step::Flight(wanted) => assert_eq!(rt; self.tap.in_flight(), wanted),
        }
    }
}

const DMIRESET: u64 = 0x0001_0000;

const DTMHARDRESET: u64 = 0x0002_0000;

#[test]
fn operates(rt: HostRuntime) {
    let steps = [
        // a write is in flight; a scan that comes too soon sees 3, and what it carries is ignored
        Step::Dmi(dmi(0x10, 1, 2), dmi(0, 0, 0)),
        Step::Flight(Some(DmiOp::Write(0x10, 1))),
        Step::Dmi(dmi(0x11, 0, 1), dmi(0, 0, 3)),
        Step::Flight(Some(DmiOp::Write(0x10, 1))),
        Step::Finish(1),
        Step::Flight(None),
        Step::Dmi(dmi(0x11, 0, 1), dmi(0x10, 1, 3)),
        Step::Flight(None),
        Step::Dtmcs(DMIRESET, 0x1c71),
        Step::Dmi(dmi(0, 0, 0), dmi(0x10, 1, 0)),
        Step::Dmi(dmi(0x7f, 0, 0), dmi(0x10, 1, 0)),
        // dmireset lets the operation in flight go on
        Step::Dmi(dmi(0x11, 0x1234, 1), dmi(0x10, 1, 0)),
        Step::Dmi(dmi(0, 0, 0), dmi(0x10, 1, 3)),
        Step::Dtmcs(DMIRESET, 0x1c71),
        Step::Flight(Some(DmiOp::Read(0x11))),
        Step::Finish(0xfff0_0003),
        Step::Dtmcs(0, 0x1071),
        Step::Dmi(dmi(0, 0, 0), dmi(0x11, 0xfff0_0003, 0)),
        // a failed operation, and a scan after it, which is ignored too
        Step::Dmi(dmi(0x7e, 0xffff_ffff, 2), dmi(0x11, 0xfff0_0003, 0)),
        Step::Flight(Some(DmiOp::Write(0x7e, 0xffff_ffff))),
        Step::Fail,
        Step::Dmi(dmi(0x04, 0, 1), dmi(0x7e, 0, 2)),
        Step::Flight(None),
        Step::Dtmcs(DMIRESET, 0x1871),
        Step::Dmi(dmi(0x04, 0, 3), dmi(0x7e, 0, 0)),
        Step::Flight(None),
        // dtmhardreset drops the operation in flight and forgets the last result
        Step::Dmi(dmi(0x04, 0, 1), dmi(0x7e, 0, 0)),
        Step::Dmi(dmi(0, 0, 0), dmi(0x7e, 0, 3)),
        Step::Dtmcs(DTMHARDRESET | DMIRESET, 0x1c71),
        Step::Flight(None),
        Step::Dtmcs(0, 0x1071),
        Step::Dmi(dmi(0, 0, 0), dmi(0, 0, 0)),
    ];
    let mut host = Host::new();
    host.follow(b"0");
    for step in steps {
        host.take(&rt, step);
    }
    assert_eq!(rt; host.busy_rises, 3);
    // Test-Logic-Reset leaves the operation in flight alone
    host.take(&rt, Step::Dmi(dmi(0x16, 0, 1), dmi(0, 0, 0)));
    host.tap.hold_reset(true);
    host.tap.hold_reset(false);
    host.follow(b"0");
    host.take(&rt, Step::Flight(Some(DmiOp::Read(0x16))));
}
