//! Scans over a wire that tells nothing: the bytes that go out, by OpenOCD's remote_bitbang and the state diagram of
//! IEEE 1149.1, and what faults answer.

use arrayvec::ArrayVec;
use debug_model::{NO_ANSWER, Scan, Wire, WireFault};
use jt_base::{Bits, count_fault};
use probe_scan::{Scanner, ScriptedScan};

/// A wire that keeps what is sent, gives these answers, and fails once so many calls were good; a reading that fails hands them on too.
#[derive(Drop)]
struct FakeWire<'a> {
    sent: ArrayVec<u8, 256>,
    answers: &'a [u8],
    good_calls: u8,
    failed: u64,
}

impl<'a> Wire for FakeWire<'a> {
    ghost use Rattle.std.specs.Prelude.{None, true};
    ghost use Rattle.debug_model.specs.Ties.{no_ties};

    ghost far = { λ _. None };

    ghost coming = { λ _. None };

    ghost fault_count = { λ w. w.failed };

    ghost gives = { λ _. true };

    ghost ties = { λ _. no_ties };

    fn send(&mut self, bytes: &[u8]) -> Result<(), WireFault> {
        if self.good_calls == 0 || self.sent.try_extend_from_slice(bytes).is_err() {
            count_fault(&mut self.failed);
            return Err(WireFault::SendFailed);
        }
        self.good_calls -= 1;
        Ok(())
    }

    fn recv(&mut self, into: &mut [u8]) -> Result<(), WireFault> {
        for i in 0..into.len() {
            into[i] = *self.answers.get(i).unwrap_or(&NO_ANSWER);
        }
        if self.good_calls == 0 {
            count_fault(&mut self.failed);
            return Err(WireFault::RecvFailed);
        }
        self.good_calls -= 1;
        Ok(())
    }

    fn faults(&self) -> u64 {
        self.failed
    }
}

fn scanner_over(answers: &[u8], good_calls: u8) -> Scanner<FakeWire<'_>> {
    Scanner::new(FakeWire {
        sent: ArrayVec::new(),
        answers,
        good_calls,
        failed: 0,
    })
}

#[test]
fn resets(rt: HostRuntime) {
    let cases: [(u8, Result<(), WireFault>, &[u8], u64); 2] = [
        (1, Ok(()), b"262626262604", 0),
        (0, Err(WireFault::SendFailed), b"", 1),
    ];
    for (good_calls, wanted, sent, faults) in cases {
        let mut scanner = scanner_over(b"", good_calls);
        assert_eq!(rt; scanner.reset(), wanted);
        assert_eq!(rt; scanner.faults(), faults);
        assert_eq!(rt; scanner.into_wire().sent.as_slice(), sent);
    }
}

#[test]
fn selects_once(rt: HostRuntime) {
    // a code, and what `ir` answers: a code that is there already sends nothing, and the sixth call of the wire fails
    let mut scanner = scanner_over(b"", 5);
    let cases: [(u8, Result<(), WireFault>); 8] = [
        (0x11, Ok(())),
        (0x11, Ok(())),
        (0x10, Ok(())),
        (0x11, Ok(())),
        (0x1f, Ok(())),
        (0x1f, Ok(())),
        (0x00, Ok(())),
        (0x01, Err(WireFault::SendFailed)),
    ];
    for (code, wanted) in cases {
        assert!(rt; code < 32);
        assert_eq!(rt; scanner.ir(code), wanted);
    }
    const CODE_11: &[u8] = b"2626040415040404372604";
    const CODE_10: &[u8] = b"2626040404040404372604";
    const CODE_1F: &[u8] = b"2626040415151515372604";
    const CODE_00: &[u8] = b"2626040404040404262604";
    let sent = scanner.into_wire().sent;
    let wanted = [CODE_11, CODE_10, CODE_11, CODE_1F, CODE_00];
    for k in 0..5 {
        assert_eq!(rt; sent.get(22 * k..22 * k + 22), Some(wanted[k]));
    }
    assert_eq!(rt; sent.len(), 110);
}

#[test]
fn scans_two_bits(rt: HostRuntime) {
    const SENT: &[u8] = b"2604041R52R62604";
    // the answers, the good calls, what `dr` answers, what was sent, and the faults
    let cases: [(&[u8], u8, Result<u64, WireFault>, &[u8], u64); 10] = [
        (b"10", 2, Ok(0b01), SENT, 0),
        (b"01", 2, Ok(0b10), SENT, 0),
        (b"1x", 2, Err(WireFault::BadAnswer(b'x')), SENT, 0),
        (b"x0", 2, Err(WireFault::BadAnswer(b'x')), SENT, 0),
        (b"2\x00", 2, Err(WireFault::BadAnswer(b'2')), SENT, 0),
        (b"10", 0, Err(WireFault::SendFailed), b"", 1),
        (b"10", 1, Err(WireFault::RecvFailed), SENT, 1),
        (b"1", 1, Err(WireFault::RecvFailed), SENT, 1),
        (b"x", 1, Err(WireFault::BadAnswer(b'x')), SENT, 1),
        (b"1x", 1, Err(WireFault::BadAnswer(b'x')), SENT, 1),
    ];
    for (answers, good_calls, wanted, sent, faults) in cases {
        let mut scanner = scanner_over(answers, good_calls);
        let out = scanner.dr(Bits::from_u64(0b01, 2)).map(|bits| bits.value());
        assert_eq!(rt; out, wanted);
        assert_eq!(rt; scanner.faults(), faults);
        assert_eq!(rt; scanner.into_wire().sent.as_slice(), sent);
    }
}

#[test]
fn answers_what_was_given(rt: HostRuntime) {
    let numbers = ArrayVec::try_from(&[0xffff_ffff_ffff_ffff, 0x1071][..]).unwrap();
    let mut scan = ScriptedScan::new(numbers);
    assert_eq!(rt; scan.reset(), Ok(()));
    assert_eq!(rt; scan.ir(0x11), Ok(()));
    // how many bits are scanned, what `dr` answers, and the faults behind it
    let cases: [(u8, Result<u64, WireFault>, u64); 4] = [
        (41, Ok(0x1ff_ffff_ffff), 0),
        (32, Ok(0x1071), 0),
        (1, Err(WireFault::RecvFailed), 1),
        (41, Err(WireFault::RecvFailed), 2),
    ];
    for (len, wanted, faults) in cases {
        assert!(rt; 0 < len && len <= 64);
        let out = scan.dr(Bits::from_u64(0, len)).map(|bits| bits.value());
        assert_eq!(rt; out, wanted);
        assert_eq!(rt; scan.faults(), faults);
    }
}
