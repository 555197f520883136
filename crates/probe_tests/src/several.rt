//! Several operations in one call over scans without a chip: the words that go out and come in, by the fields of `dmi` in the RISC-V Debug Specification 1.0.

ghost use Rattle.std.specs.Prelude.{◌≡◌, ◌≤◌};

use crate::operations::{Call, DTMCS_BUSY, Recorder, scripted};
use arrayvec::ArrayVec;
use debug_model::{Dmi, DmiFault, DmiOp, ScriptedDmi, WireFault};
use probe_dmi::Link;

const DATA0: u8 = 0x04;

const DATA1: u8 = 0x05;

/// Reads of both data words.
const READS: [DmiOp; 2] = [DmiOp::Read(DATA0), DmiOp::Read(DATA1)];

/// The words of `dmi` that a scan shifts in: reads of `data0` and `data1`.
const READ_DATA0: u64 = 0x10_0000_0001;

const READ_DATA1: u64 = 0x14_0000_0001;

#[test]
fn reads_what_was_given(rt: HostRuntime) {
    // what comes out of the scans, and what the reads of data0 and data1 answer
    let cases: [(&[u64], Result<[u32; 2], DmiFault>); 12] = [
        (&[0x14, 0x1c, 0x24], Ok([7, 9])),
        (&[0x3, DTMCS_BUSY, 0x14, 0x1c, 0x24], Ok([7, 9])),
        (&[0x14, 0x3, DTMCS_BUSY, 0x1c, 0x24], Ok([7, 9])),
        (&[0x14, 0x1c, 0x3, DTMCS_BUSY, 0x24], Ok([7, 9])),
        (&[0x1, DTMCS_BUSY, 0x14, 0x1c, 0x24], Ok([7, 9])),
        (&[0x14, 0x1, DTMCS_BUSY, 0x1c, 0x24], Ok([7, 9])),
        (&[0x14, 0x1c, 0x1, DTMCS_BUSY, 0x24], Ok([7, 9])),
        (&[0x14, 0x2], Err(DmiFault::Failed)),
        (&[0x14, 0x1c, 0x2], Err(DmiFault::Failed)),
        (&[0x14, 0x1, DTMCS_BUSY, 0x1e], Err(DmiFault::Failed)),
        (&[0x14], Err(DmiFault::Wire(WireFault::RecvFailed))),
        (&[0x14, 0x1c], Err(DmiFault::Wire(WireFault::RecvFailed))),
    ];
    for (numbers, wanted) in cases {
        let mut link = Link::new(scripted(numbers));
        let mut results = ArrayVec::new();
        assert!(rt; link.alive());
        let answer = link.many(&READS, &mut results);
        assert_eq!(rt; link.alive(), wanted.is_ok());
        match wanted {
            Ok(words) => {
                assert_eq!(rt; answer, Ok(()));
                assert_eq!(rt; results.as_slice(), words.as_slice());
            }
            Err(fault) => {
                assert_eq!(rt; answer, Err(fault));
                assert!(rt; results.is_empty());
            }
        }
    }
}

#[test]
fn each_operation_has_64_busy_answers(rt: HostRuntime) {
    // so many busy answers before each of three scans, and what the reads answer
    let cases: [([u8; 3], Result<(), DmiFault>); 4] = [
        ([20, 20, 20], Ok(())),
        ([0, 0, 60], Ok(())),
        ([0, 63, 0], Ok(())),
        ([0, 64, 0], Err(DmiFault::StillBusy)),
    ];
    for (busy, wanted) in cases {
        let mut numbers: ArrayVec<u64, 140> = ArrayVec::new();
        for (count, word) in busy.iter().zip([0x14, 0x1c, 0x24]) {
            for _ in 0..*count {
                let _kept = numbers.try_push(0x3).is_ok() && numbers.try_push(DTMCS_BUSY).is_ok();
            }
            let _kept = numbers.try_push(word).is_ok();
        }
        let mut link = Link::new(Recorder::new(numbers.as_slice()));
        let mut results = ArrayVec::new();
        assert!(rt; link.alive());
        assert_eq!(rt; link.many(&READS, &mut results), wanted);
        assert_eq!(rt; link.alive(), wanted.is_ok());
    }
}

#[test]
fn carries_the_next_with_each_scan(rt: HostRuntime) {
    let numbers = [0x14, 0x3, DTMCS_BUSY, 0x1c, 0x24];
    let mut link = Link::new(Recorder::new(&numbers));
    let mut results = ArrayVec::new();
    assert!(rt; link.alive());
    assert_eq!(rt; link.many(&READS, &mut results), Ok(()));
    let wanted = [
        Call::Reset,
        Call::Ir(0x11),
        Call::Dr(41, READ_DATA0),
        Call::Dr(41, READ_DATA1),
        Call::Ir(0x10),
        Call::Dr(32, 0x1_0000),
        Call::Ir(0x11),
        Call::Dr(41, READ_DATA1),
        Call::Dr(41, 0),
    ];
    assert_eq!(rt; link.into_scan().calls.as_slice(), wanted.as_slice());
}

#[test]
fn waits_behind_a_busy_answer_where_it_learns(rt: HostRuntime) {
    let numbers = [
        0x14, 0x3, DTMCS_BUSY, 0x1c, 0x24, 0x24, 0x1c, 0x24, 0x24, 0x1c,
    ];
    let mut link = Link::paced(Recorder::new(&numbers));
    let mut results = ArrayVec::new();
    assert!(rt; link.alive());
    assert_eq!(rt; link.many(&READS, &mut results), Ok(()));
    assert!(rt; link.alive());
    results.clear();
    assert_eq!(rt; link.many(&READS, &mut results), Ok(()));
    assert_eq!(rt; results.as_slice(), [7, 9].as_slice());
    assert!(rt; link.alive());
    results.clear();
    assert_eq!(rt; link.many(&[DmiOp::Read(DATA0)], &mut results), Ok(()));
    assert_eq!(rt; results.as_slice(), [7].as_slice());
    let wanted = [
        Call::Reset,
        Call::Ir(0x11),
        Call::Dr(41, READ_DATA0),
        Call::Dr(41, READ_DATA1),
        Call::Ir(0x10),
        Call::Dr(32, 0x1_0000),
        Call::Ir(0x11),
        Call::Dr(41, READ_DATA1),
        Call::Idle(1),
        Call::Dr(41, 0),
        Call::Ir(0x11),
        Call::Idle(1),
        Call::Dr(41, READ_DATA0),
        Call::Idle(1),
        Call::Dr(41, READ_DATA1),
        Call::Idle(1),
        Call::Dr(41, 0),
        Call::Ir(0x11),
        Call::Dr(41, READ_DATA0),
        Call::Dr(41, 0),
    ];
    assert_eq!(rt; link.into_scan().calls.as_slice(), wanted.as_slice());
}

#[test]
fn learns_from_each_of_two_busy_answers_and_then_from_each_second(rt: HostRuntime) {
    // so many busy answers to a read, and the clocks before a scan of the next call
    let cases: [(u8, Call); 7] = [
        (1, Call::Idle(1)),
        (2, Call::Idle(2)),
        (3, Call::Idle(2)),
        (4, Call::Idle(3)),
        (5, Call::Idle(3)),
        (46, Call::Idle(24)),
        (60, Call::Idle(24)),
    ];
    for (busy, wanted) in cases {
        let mut numbers: ArrayVec<u64, 140> = ArrayVec::new();
        for _ in 0..busy {
            let _kept = numbers.try_push(0x3).is_ok() && numbers.try_push(DTMCS_BUSY).is_ok();
        }
        for word in [0x14, 0x1c, 0x14, 0x1c, 0x24] {
            let _kept = numbers.try_push(word).is_ok();
        }
        let mut link = Link::paced(Recorder::new(numbers.as_slice()));
        let mut results = ArrayVec::new();
        assert!(rt; link.alive());
        assert_eq!(rt; link.read(DATA0), Ok(7));
        assert!(rt; link.alive());
        assert_eq!(rt; link.many(&READS, &mut results), Ok(()));
        let calls = link.into_scan().calls;
        let last = calls.iter().rev().nth(1);
        assert_eq!(rt; last, Some(&wanted));
    }
}

#[test]
fn given_results_are_taken_by_reads_alone(rt: HostRuntime) {
    let mut answers = ArrayVec::new();
    let _kept = answers.try_push(7).is_ok() && answers.try_push(9).is_ok();
    let mut link = ScriptedDmi::new(answers);
    let mut results = ArrayVec::new();
    let operations = [
        DmiOp::Read(DATA0),
        DmiOp::Write(DATA0, 3),
        DmiOp::Read(DATA1),
    ];
    assert!(rt; link.alive());
    assert_eq!(rt; link.many(&operations, &mut results), Ok(()));
    assert_eq!(rt; results.as_slice(), [7, 3, 9].as_slice());
    results.clear();
    assert!(rt; link.alive());
    assert_eq!(rt;
        link.many(&operations, &mut results),
        Err(DmiFault::Wire(WireFault::RecvFailed))
    );
    assert!(rt; results.is_empty() && !link.alive());
}
