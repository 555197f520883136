//! Links over scans without a chip: the words that go out and come in, by the fields of `dtmcs` and `dmi` in the RISC-V Debug
//! Specification 1.0.

ghost use Rattle.std.specs.Prelude.{◌≡◌};

use arrayvec::ArrayVec;
use debug_model::{Dmi, DmiFault, Scan, WireFault};
use jt_base::{Bits, count_fault};
use probe_dmi::Link;
use probe_scan::ScriptedScan;

/// The most calls that a recorder keeps.
const CALLS_MOST: usize = 100;

/// One call of a scan.
#[derive(Clone, Copy, Debug, Default, PartialEq, Eq)]
pub enum Call {
    #[default]
    Reset,
    Ir(u8),
    /// How many bits, and the number that they spell.
    Dr(u8, u64),
    Idle(u8),
}

/// Scans that keep what is sent, and take these numbers out.
#[derive(Drop)]
pub struct Recorder<'a> {
    pub calls: ArrayVec<Call, CALLS_MOST>,
    numbers: &'a [u64],
    taken: usize,
    failed: u64,
}

impl<'a> Recorder<'a> {
    pub fn new(numbers: &'a [u64]) -> Self
        ensures { result.numbers.now ≡ numbers.now }
    {
        Recorder {
            calls: ArrayVec::new(),
            numbers,
            taken: 0,
            failed: 0,
        }
    }

    fn keep(&mut self, call: Call)
        ensures numbers { self.new.numbers.now ≡ self.old.numbers.now }
        ensures taken { self.new.taken ≡ self.old.taken }
        ensures failed { self.new.failed ≡ self.old.failed }
    {
        if self.calls.try_push(call).is_err() {
            self.calls.clear();
        }
    }
}

impl<'a> Scan for Recorder<'a> {
    ghost use Rattle.std.specs.Prelude.{None, true};
    ghost use Rattle.debug_model.specs.Ties.{no_ties};

    ghost seen = { λ s. record {
      far = None;
      coming = None;
      asked = None;
      bypassed = true;
      fault_count = s.failed;
      fixed = record { slack = None; ties = no_ties; gives = λ _. true };
    } };

    fn reset(&mut self) -> Result<(), WireFault> {
        self.keep(Call::Reset);
        Ok(())
    }

    fn ir(&mut self, code: u8) -> Result<(), WireFault> {
        self.keep(Call::Ir(code));
        Ok(())
    }

    fn dr(&mut self, bits: Bits) -> Result<Bits, WireFault> {
        self.keep(Call::Dr(bits.len(), bits.value()));
        match self.numbers.get(self.taken) {
            Some(number) => {
                self.taken += 1;
                Ok(Bits::from_u64(*number, bits.len()))
            }
            None => {
                count_fault(&mut self.failed);
                Err(WireFault::RecvFailed)
            }
        }
    }

    fn idle(&mut self, clocks: u8) -> Result<(), WireFault> {
        self.keep(Call::Idle(clocks));
        Ok(())
    }

    fn faults(&self) -> u64 {
        self.failed
    }
}

pub fn scripted(numbers: &[u64]) -> ScriptedScan {
    let mut list = ArrayVec::new();
    if list.try_extend_from_slice(numbers).is_err() {
        list.clear();
    }
    ScriptedScan::new(list)
}

/// `dtmcs` with version 1, idle 1, status 3 and 7 bits of an address.
pub const DTMCS_BUSY: u64 = 0x1c71;

#[test]
fn reads_what_was_given(rt: HostRuntime) {
    // what comes out of the scans, and what `read(0x04)` answers
    let cases: [(&[u64], Result<u32, DmiFault>); 14] = [
        (&[0x3, DTMCS_BUSY, 0x14, 0x1c], Ok(7)),
        (&[0x14, 0x1c], Ok(7)),
        (&[0x14, 0x3, DTMCS_BUSY, 0x1c], Ok(7)),
        (&[0x1, DTMCS_BUSY, 0x14, 0x1c], Ok(7)),
        (&[0x14, 0x1, DTMCS_BUSY, 0x1c], Ok(7)),
        (&[0x14, 0x3_ffff_fffc], Ok(0xffff_ffff)),
        (&[0x14, 0x1fc_0000_0004], Ok(1)),
        (&[0x2], Err(DmiFault::Failed)),
        (&[0x14, 0x2], Err(DmiFault::Failed)),
        (&[0x3, DTMCS_BUSY, 0x2], Err(DmiFault::Failed)),
        (&[0x14, 0x3, DTMCS_BUSY, 0x1e], Err(DmiFault::Failed)),
        (&[], Err(DmiFault::Wire(WireFault::RecvFailed))),
        (&[0x3], Err(DmiFault::Wire(WireFault::RecvFailed))),
        (&[0x14], Err(DmiFault::Wire(WireFault::RecvFailed))),
    ];
    for (numbers, wanted) in cases {
        let mut link = Link::new(scripted(numbers));
        assert!(rt; link.alive());
        assert_eq!(rt; link.read(0x04), wanted);
        assert_eq!(rt; link.alive(), wanted.is_ok());
    }
}

#[test]
fn gives_up_behind_64_busy_answers(rt: HostRuntime) {
    // so many busy answers, and what `read(0x04)` answers
    let cases: [(u8, Result<u32, DmiFault>); 3] = [
        (63, Ok(7)),
        (64, Err(DmiFault::StillBusy)),
        (62, Ok(7)),
    ];
    for (busy, wanted) in cases {
        let mut list = ArrayVec::new();
        for _ in 0..busy {
            let _kept = list.try_push(0x3).is_ok() && list.try_push(DTMCS_BUSY).is_ok();
        }
        let _kept = list.try_push(0x14).is_ok() && list.try_push(0x1c).is_ok();
        let mut link = Link::new(ScriptedScan::new(list));
        assert!(rt; link.alive());
        assert_eq!(rt; link.read(0x04), wanted);
        assert_eq!(rt; link.alive(), wanted.is_ok());
    }
}

#[test]
fn sends_an_operation_until_it_is_taken(rt: HostRuntime) {
    let mut link = Link::new(Recorder::new(&[0x3, DTMCS_BUSY, 0x0, 0x3, DTMCS_BUSY, 0x4]));
    assert!(rt; link.alive());
    assert_eq!(rt; link.write(0x10, 1), Ok(()));
    let wanted = [
        Call::Reset,
        Call::Ir(0x11),
        Call::Dr(41, 0x40_0000_0006),
        Call::Ir(0x10),
        Call::Dr(32, 0x1_0000),
        Call::Ir(0x11),
        Call::Dr(41, 0x40_0000_0006),
        Call::Dr(41, 0),
        Call::Ir(0x10),
        Call::Dr(32, 0x1_0000),
        Call::Ir(0x11),
        Call::Dr(41, 0),
    ];
    assert_eq!(rt; link.into_scan().calls.as_slice(), &wanted[..]);
}

#[test]
fn takes_the_address_bits_of_dtmcs(rt: HostRuntime) {
    // what `dtmcs` answers, and the bits of the scans of dmi behind it
    let cases: [(u64, u8); 5] = [(0x71, 41), (0x1e1, 64), (0x1f1, 41), (0x61, 41), (0x91, 43)];
    for (dtmcs, width) in cases {
        let numbers = [dtmcs, 0x14, 0x1c];
        let mut link = Link::new(Recorder::new(&numbers));
        assert!(rt; link.alive());
        assert_eq!(rt; link.dtmcs(), Ok(dtmcs as u32));
        assert!(rt; link.alive());
        assert_eq!(rt; link.read(0x04), Ok(7));
        let wanted = [
            Call::Reset,
            Call::Ir(0x10),
            Call::Dr(32, 0x1_0000),
            Call::Ir(0x11),
            Call::Dr(width, 0x10_0000_0001),
            Call::Dr(width, 0),
        ];
        assert_eq!(rt; link.into_scan().calls.as_slice(), &wanted[..]);
    }
}

#[test]
fn resets_before_each_idcode(rt: HostRuntime) {
    let mut link = Link::new(Recorder::new(&[0x10d6_4001, 0x10d6_4001]));
    assert!(rt; link.alive());
    assert_eq!(rt; link.idcode(), Ok(0x10d6_4001));
    assert!(rt; link.alive());
    assert_eq!(rt; link.idcode(), Ok(0x10d6_4001));
    assert!(rt; link.alive());
    assert_eq!(rt; link.idcode(), Err(DmiFault::Wire(WireFault::RecvFailed)));
    assert!(rt; !link.alive());
    assert_eq!(rt; link.faults(), 1);
    let wanted = [
        Call::Reset,
        Call::Dr(32, 0),
        Call::Reset,
        Call::Dr(32, 0),
        Call::Reset,
        Call::Dr(32, 0),
    ];
    assert_eq!(rt; link.into_scan().calls.as_slice(), &wanted[..]);
}
