//! Run control over operations without a chip: the values are those of RISC-V Debug Specification 1.0, and what each call answers to them.

ghost use Rattle.std.specs.Prelude.{◌≡◌, true};

use crate::hart::{Halted, Running, Seen};
use crate::target::opened;
use crate::{ConnectFault, RunFault, connect};
use arrayvec::ArrayVec;
use debug_model::{Dmi, DmiFault, DmiOp, OPERATIONS_MOST, ScriptedDmi, WireFault};
use rv_model::Version;

/// Operations whose every read answers the same, and what was written.
#[derive(Drop)]
struct SameDmi {
    dtmcs: u32,
    answer: u32,
    reads: u32,
    written: ArrayVec<u32, 8>,
}

impl Dmi for SameDmi {
    ghost use Rattle.std.specs.Prelude.{None, true, false};
    ghost use Rattle.debug_model.specs.Ties.{no_ties};

    ghost seen = { λ _. record {
      far = None;
      coming = None;
      asked = None;
      is_alive = true;
      fault_count = 0;
      fixed = record { slack = None; ties = no_ties; gives = λ _. false };
    } };

    fn idcode(&mut self) -> Result<u32, DmiFault> {
        Ok(self.answer)
    }

    fn dtmcs(&mut self) -> Result<u32, DmiFault> {
        Ok(self.dtmcs)
    }

    fn read(&mut self, address: u8) -> Result<u32, DmiFault> {
        let _address = address;
        self.reads = self.reads.saturating_add(1);
        Ok(self.answer)
    }

    fn write(&mut self, address: u8, value: u32) -> Result<(), DmiFault> {
        let _address = address;
        let _full = self.written.try_push(value).is_err();
        Ok(())
    }

    fn many(
        &mut self,
        ops: &[DmiOp],
        results: &mut ArrayVec<u32, OPERATIONS_MOST>,
    ) -> Result<(), DmiFault> {
        let mut rest = ops;
        'operations: while let [op, after @ ..] = rest {
            match *op {
                DmiOp::Read(_) => {
                    self.reads = self.reads.saturating_add(1);
                    results.push(self.answer);
                }
                DmiOp::Write(_, value) => {
                    let _full = self.written.try_push(value).is_err();
                    results.push(value);
                }
            }
            rest = after;
        }
        Ok(())
    }

    fn alive(&self) -> bool {
        true
    }

    fn faults(&self) -> u64 {
        0
    }
}

fn same(answer: u32) -> SameDmi {
    SameDmi {
        dtmcs: 0x1071,
        answer,
        reads: 0,
        written: ArrayVec::new(),
    }
}

fn answering(words: &[u32]) -> ScriptedDmi
    ensures { result.alive ≡ true }
{
    let mut answers = ArrayVec::new();
    for word in words {
        let _full = answers.try_push(*word).is_err();
    }
    ScriptedDmi::new(answers)
}

#[test]
fn opens(rt: HostRuntime) {
    // dtmcs, dmcontrol, dmstatus, abstractcs and sbcs, and what `connect` answers
    let lost = ConnectFault::Dmi(DmiFault::Wire(WireFault::RecvFailed));
    let cases: [(&[u32], Option<ConnectFault>); 13] = [
        (&[0x1071, 1, 0x000c_0c83, 0x0400_0002, 0x2004_080f], None),
        (&[0x1071, 1, 0x000c_0c82, 0x0400_0002, 0x2004_080f], None),
        (
            &[0x1071, 0, 0, 1, 0x000c_0c83, 0x0400_0002, 0x2004_080f],
            None,
        ),
        (&[0x1070], Some(ConnectFault::Dtm(0x1070))),
        (
            &[0x1071, 1, 0x000c_0c81],
            Some(ConnectFault::Module(0x000c_0c81, false)),
        ),
        (
            &[0x1071, 1, 0x000c_0c80],
            Some(ConnectFault::Module(0x000c_0c80, false)),
        ),
        (
            &[0x1071, 1, 0x000c_0c84],
            Some(ConnectFault::Module(0x000c_0c84, false)),
        ),
        // release 0.13, not authenticated
        (
            &[0x1071, 1, 0x000c_0c02],
            Some(ConnectFault::Module(0x000c_0c02, false)),
        ),
        (
            &[0x1071, 1, 0x000c_0c83, 0x0300_0002],
            Some(ConnectFault::Abstract(0x0300_0002)),
        ),
        (
            &[0x1071, 1, 0x000c_0c83, 0x0400_1002],
            Some(ConnectFault::Abstract(0x0400_1002)),
        ),
        (
            &[0x1071, 1, 0x000c_0c83, 0x0400_0002, 0],
            Some(ConnectFault::Bus(0)),
        ),
        (&[0x1071, 1], Some(lost)),
        (&[], Some(lost)),
    ];
    for (words, wanted) in cases {
        assert_eq!(rt; connect(&mut answering(words)).err(), wanted);
    }
}

#[test]
fn gives_up_on_dmactive(rt: HostRuntime) {
    let mut link = same(0);
    assert_eq!(rt;
        connect(&mut link).err(),
        Some(ConnectFault::Module(0, true))
    );
    assert_eq!(rt; link.reads, 64);
    assert_eq!(rt; link.written.as_slice(), &[1][..]);
}

#[test]
fn tells_the_release(rt: HostRuntime) {
    // dmstatus, and its field version
    let cases: [(u32, Version); 2] = [(0x000c_0c82, Version::V013), (0x000c_0c83, Version::V10)];
    for (word, wanted) in cases {
        let mut link = answering(&[0x1071, 1, word, 0x0400_0002, 0x2004_080f]);
        let told = connect(&mut link).map(|target| target.version());
        assert_eq!(rt; told, Ok(wanted));
        let mut seen = same(0x0000_0383);
        let halted = match opened(wanted).look(&mut seen, 0) {
            Ok(Seen::Halted(halted)) => Some(halted.version()),
            _ => None,
        };
        assert_eq!(rt; halted, Some(wanted));
    }
}

fn running() -> Running {
    Running {
        number: 1,
        version: Version::V10,
    }
}

fn halted() -> Halted {
    Halted {
        number: 0,
        version: Version::V10,
    }
}

#[test]
fn looks(rt: HostRuntime) {
    // dmstatus, and what a Look of hart 2 answers: 0 is halted, 1 running, 2 absent
    let cases: [(u32, u8); 4] = [
        (0x0000_0383, 0),
        (0x000c_0c83, 1),
        (0x0000_c083, 2),
        (0x0003_0383, 0),
    ];
    for (word, wanted) in cases {
        let mut link = same(word);
        let seen = match opened(Version::V013).look(&mut link, 2) {
            Ok(Seen::Halted(halted)) => (0, halted.hart()),
            Ok(Seen::Running(running)) => (1, running.hart()),
            Ok(Seen::Absent) => (2, 2),
            Err(_) => (3, 0),
        };
        assert_eq!(rt; seen, (wanted, 2));
        assert_eq!(rt; link.reads, 1);
        assert_eq!(rt; link.written.as_slice(), &[0x0002_0001][..]);
    }
}

#[test]
fn halts(rt: HostRuntime) {
    let mut link = same(0x0000_0383);
    assert_eq!(rt;
        running().halt(&mut link).map(|halted| halted.hart()),
        Ok(1)
    );
    assert_eq!(rt; link.written.as_slice(), &[0x8001_0001, 0x0001_0001][..]);
    let mut runs_on = same(0x0000_0c83);
    assert_eq!(rt;
        running().halt(&mut runs_on).err(),
        Some(RunFault::NoHalt(64))
    );
    assert_eq!(rt; runs_on.reads, 64);
    assert_eq!(rt; runs_on.written.as_slice(), &[0x8001_0001][..]);
}

#[test]
fn lets_go(rt: HostRuntime) {
    // dmstatus, and what `resume` and `run_one` answer of hart 0
    let cases: [(u32, Option<RunFault>, Option<RunFault>); 3] = [
        (
            0x0000_0383,
            Some(RunFault::NoAck(64)),
            Some(RunFault::NoAck(64)),
        ),
        (0x0003_0c83, None, Some(RunFault::NoHalt(64))),
        (0x0003_0383, None, None),
    ];
    for (word, resumed, stepped) in cases {
        let mut link = same(word);
        assert_eq!(rt; halted().resume(&mut link).err(), resumed);
        assert_eq!(rt; link.written.as_slice(), &[0x4000_0001][..]);
        assert_eq!(rt; halted().run_one(&mut link).err(), stepped);
        assert_eq!(rt; link.written.as_slice(), &[0x4000_0001, 0x4000_0001][..]);
    }
}
