#![tactic(auto, unfolding(debug_model::specs::Transport::captured_bits, debug_model::specs::Transport::updated_dtm))]

ghost use Rattle.std.specs.Prelude.{◌≡◌, IsSome};
ghost use Rattle.debug_model.specs.Transport.{address_of, captured_bits, captured_dtm, cleared_by, controlled, dropped, finds_busy, finished, fresh_dtm};
ghost use Rattle.debug_model.specs.Transport.{launched, operation_of, seen, sets_busy, status_number, updated_dtm};

use debug_model::{DataRegister, DmiOp, DmiScan, Dtmcs, Sticky};
use jt_base::Bits;
use std::marker::Model;

/// The device identification that this chip gives: version 1, part 0x0d64, manufacturer 0.
const IDCODE: u64 = 0x10d6_4001;

/// The bits of the device identification register.
const IDCODE_BITS: u8 = 32;

/// The bits of dtmcs.
const DTMCS_BITS: u8 = 32;

/// The bits of dmi.
const DMI_BITS: u8 = 41;

/// The bits of the bypass register.
const BYPASS_BITS: u8 = 1;

/// The hint of dtmcs: one clock in Run-Test/Idle is enough.
const IDLE_HINT: u8 = 1;

/// The bits of an address of the debug module interface.
const ADDRESS_BITS: u8 = 7;

/// The version of dtmcs: releases 0.13 and 1.0 of the standard.
const VERSION: u8 = 1;

/// The words that dtmcs may spell.
const WORDS: u64 = 0x1_0000_0000;

/// The op of a scan that reads.
const OP_READ: u8 = 1;

/// The op of a scan that writes.
const OP_WRITE: u8 = 2;

/// The debug transport: the operation in flight, the last result and the sticky status.
///
/// Source: RISC-V Debug Specification 1.0, "JTAG Debug Transport Module".
#[derive(Drop)]
pub struct Transport {
    operation: Option<DmiOp>,
    last_address: u8,
    last_value: u32,
    has_failed: bool,
    status: Sticky,
}

impl Model for Transport {
    ghost use Rattle.debug_model.specs.Transport.{Dtm};

    ghost Value = { Dtm };

    ghost view = { λ t. record { flight = t.operation; address = t.last_address; value = t.last_value; failed = t.has_failed; sticky = t.status } };
}

/// The field dmistat, which op of a captured dmi shows too.
fn number_of_status(status: Sticky) -> u8
    ensures { result ≡ status_number status }
{
    match status {
        Sticky::Clear => 0,
        Sticky::Failed => 2,
        Sticky::Busy => 3,
    }
}

/// The status behind a capture of dmi.
fn see(status: Sticky, operation: Option<DmiOp>, has_failed: bool) -> Sticky
    ensures { result ≡ seen status operation has_failed }
{
    match (status, operation, has_failed) {
        (Sticky::Clear, Some(_), _) => Sticky::Busy,
        (Sticky::Clear, None, true) => Sticky::Failed,
        (Sticky::Clear, None, false) => Sticky::Clear,
        (Sticky::Failed, _, _) => Sticky::Failed,
        (Sticky::Busy, _, _) => Sticky::Busy,
    }
}

/// Whether a capture of dmi sets the status to 3.
fn meets_operation(status: Sticky, operation: Option<DmiOp>) -> bool
    ensures { result ≡ finds_busy status operation }
{
    match (status, operation) {
        (Sticky::Clear, Some(_)) => true,
        (Sticky::Clear, None) => false,
        (Sticky::Failed, _) => false,
        (Sticky::Busy, _) => false,
    }
}

/// The operation that a scan of dmi asks for, None where its op is 0 or 3.
fn operation_in(scan: DmiScan) -> Option<DmiOp>
    ensures { result ≡ operation_of scan }
{
    match scan.op {
        OP_READ => Some(DmiOp::Read(scan.address)),
        OP_WRITE => Some(DmiOp::Write(scan.address, scan.value)),
        _ => None,
    }
}

/// The register that an operation reads or writes.
fn address(operation: DmiOp) -> u8
    ensures { result ≡ address_of operation }
{
    match operation {
        DmiOp::Read(address) => address,
        DmiOp::Write(address, _) => address,
    }
}

impl Transport {
    /// With no operation in flight, a last result of 0 and the status 0.
    pub fn new() -> Self
        ensures { result ≡ fresh_dtm }
    {
        Transport {
            operation: None,
            last_address: 0,
            last_value: 0,
            has_failed: false,
            status: Sticky::Clear,
        }
    }

    /// The operation that was put in flight and is neither performed nor dropped yet.
    #[inline(always)]
    pub fn in_flight(&self) -> Option<DmiOp>
        ensures { result ≡ self.now.flight }
    {
        self.operation
    }

    /// What a capture of this register puts into the shift register.
    pub fn captured(&self, register: DataRegister) -> Bits
        ensures { result ≡ captured_bits register self.now }
    {
        match register {
            DataRegister::Idcode => Bits::from_u64(IDCODE, IDCODE_BITS),
            DataRegister::Dtmcs => {
                let shown = Dtmcs {
                    dtmhardreset: false,
                    dmireset: false,
                    idle: IDLE_HINT,
                    dmistat: number_of_status(self.status),
                    abits: ADDRESS_BITS,
                    version: VERSION,
                };
                Bits::from_u64(u64::from(shown.word()), DTMCS_BITS)
            }
            DataRegister::Dmi => {
                let shown = DmiScan {
                    address: self.last_address,
                    value: self.last_value,
                    op: number_of_status(see(self.status, self.operation, self.has_failed)),
                };
                Bits::from_u64(shown.bits(), DMI_BITS)
            }
            DataRegister::Bypass => Bits::from_u64(0, BYPASS_BITS),
        }
    }

    /// A capture of this register: that of dmi may set the status. Answers whether it set it to 3.
    pub fn capture(&mut self, register: DataRegister) -> bool
        ensures transport { self.new ≡ captured_dtm register self.old }
        ensures busy { result ≡ sets_busy register self.old }
    {
        match register {
            DataRegister::Dmi => {
                let is_busy = meets_operation(self.status, self.operation);
                self.status = see(self.status, self.operation, self.has_failed);
                is_busy
            }
            DataRegister::Dtmcs => false,
            DataRegister::Idcode => false,
            DataRegister::Bypass => false,
        }
    }

    /// Puts an operation in flight, unless the status isn't 0.
    fn launch(&mut self, operation: Option<DmiOp>)
        ensures { self.new ≡ launched self.old.sticky operation self.old }
    {
        match (self.status, operation) {
            (Sticky::Clear, Some(_)) => self.operation = operation,
            (Sticky::Clear, None) => {}
            (Sticky::Failed, _) => {}
            (Sticky::Busy, _) => {}
        }
    }

    /// The status becomes 0, and the mark of a failed operation goes where the status was 2. The operation goes on.
    fn clear_status(&mut self)
        ensures { self.new ≡ cleared_by self.old.sticky self.old }
    {
        match self.status {
            Sticky::Clear => {}
            Sticky::Failed => {
                self.status = Sticky::Clear;
                self.has_failed = false;
            }
            Sticky::Busy => self.status = Sticky::Clear,
        }
    }

    /// What a written dtmcs asks for.
    fn control(&mut self, written: Dtmcs)
        ensures { self.new ≡ controlled written self.old }
    {
        if written.dtmhardreset {
            *self = Transport::new();
            return;
        }
        if written.dmireset {
            self.clear_status();
        }
    }

    /// An update of this register with these bits.
    pub fn update(&mut self, register: DataRegister, bits: Bits)
        ensures { self.new ≡ updated_dtm register bits self.old }
    {
        match register {
            DataRegister::Dmi => self.launch(operation_in(DmiScan::from_bits(bits.value()))),
            DataRegister::Dtmcs => self.control(Dtmcs::from_word((bits.value() % WORDS) as u32)),
            DataRegister::Idcode => {}
            DataRegister::Bypass => {}
        }
    }

    /// The operation in flight was performed, with this result.
    pub fn finish(&mut self, result_word: u32)
        requires in_flight { IsSome self.old.flight }
        ensures { self.new ≡ finished result_word self.old }
    {
        if let Some(operation) = self.operation {
            self.operation = None;
            self.last_address = address(operation);
            self.last_value = result_word;
            self.has_failed = false;
        }
    }

    /// The operation in flight is dropped unperformed.
    pub fn fail(&mut self)
        requires in_flight { IsSome self.old.flight }
        ensures { self.new ≡ dropped self.old }
    {
        if let Some(operation) = self.operation {
            self.operation = None;
            self.last_address = address(operation);
            self.last_value = 0;
            self.has_failed = true;
        }
    }
}
