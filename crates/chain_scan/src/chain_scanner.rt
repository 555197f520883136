//! Scans of the chip's registers in a chain of several TAPs, around the others.
ghost use Rattle.std.specs.Prelude.{◌≡◌, ◌<◌, ◌≤◌, ◌+◌, true, false, Some, None, IfErr, IfOk, IfSome, OnErr, OnOk, is_some, length, map, option_map, sum};
ghost use Rattle.std.proofs.Props.{props};
ghost use Rattle.std.specs.Coded.{codes};
ghost use Rattle.debug_model.specs.Chip.{answer_byte};
ghost use Rattle.debug_model.specs.Kept.{CanReset, CanShift, ScanFails};
ghost use Rattle.debug_model.specs.Scan.{Answers, Judged, ResetCut, RoundsPassed, WasReset, WhereTold, ir_clocks};
ghost use Rattle.debug_model.specs.Told.{IsOpen};
ghost use Rattle.debug_model.specs.Wire.{SendCause, TakesComing};
ghost use Rattle.jt_base.specs.BitList.{bits_of};
ghost use Rattle.probe_scan.specs.Answers.{KeepsChip, ReceiveCause, bits_most, or_bad};
ghost use Rattle.probe_scan.specs.Padded.{scan_bytes};
ghost use Rattle.chain_scan.specs.Bypassed.{CodeScanned, HoldsCode, IsPlannedTold, Remembers, RestsTold, code_slack};
ghost use Rattle.chain_scan.specs.ChainPlan.{IsWidth};
ghost use Rattle.chain_scan.specs.ChainSeen.{chain_seen};
ghost use Rattle.chain_scan.specs.Told.{ChainReadsFront, KeepsChain, chip_told};
ghost use Rattle.chain_scan.specs.Each.{each_prop};

use crate::chain_plan::ChainPlan;
use crate::chain_wire::ChainWire;
use bitbang_stream::Batch;
use debug_model::{NO_ANSWER, Scan, WireFault, instruction_code};
use jt_base::Bits;
use probe_scan::{idle_batch, put_scan, read_bits, reset_batch};

/// The most bits of one scan.
const BITS_MOST: usize = 64;

/// The bits of the chip's instruction register.
const INSTRUCTION_BITS: u8 = 5;

/// Scans of the chip's registers in a chain over a wire: the other devices are kept in BYPASS, and the bits go around them.
///
/// A reset is followed by a scan of all instruction registers, which selects IDCODE in the chip and BYPASS in the others. An instruction goes to the chip
/// between ones for the others, and a data register's bits go between one 0 for each nearer device and one for each farther one.
///
/// Source: IEEE 1149.1, the bypass register and the serial connection of components.
#[derive(Drop)]
pub struct ChainScanner<W: ChainWire> {
    wire: W,
    plan: ChainPlan,
    remembered: Option<u8>,
    ghost planned: { IsPlannedTold plan (W.far wire) } by { Prim.hlevel (props, codes, each_prop) },
    ghost remembers: { Remembers remembered (W.far wire) } by { Prim.hlevel (props, codes, each_prop) },
}

impl<W: ChainWire> ChainScanner<W> {
    /// Scans over this wire, which `into_wire` hands back, to a chain with TAPs of these lengths beside the chip.
    pub fn new(wire: W, plan: ChainPlan) -> Self
        requires planned { IsPlannedTold plan (W.far wire) }
        ensures wire { result.wire ≡ wire }
        ensures plan { result.plan ≡ plan }
        ensures remembered { result.remembered ≡ None }
    {
        ChainScanner {
            wire,
            plan,
            remembered: None,
        }
    }

    /// The wire as it stands.
    pub fn into_wire(self) -> W
        ensures { result ≡ self.wire }
    {
        self.wire
    }
}

/// How many bits these instruction registers have in all.
fn all_bits(widths: &[u8]) -> u8
    requires few { sum widths.now ≤ code_slack }
    ensures { result ≡ sum widths.now }
{
    let mut bits = 0;
    let mut rest = widths;
    'widths: while let [width, after @ ..] = rest {
        bits += *width;
        rest = after;
    }
    bits
}

/// The bytes of a scan of all instruction registers, the chip's with this code and the others with ones.
fn code_batch(plan: &ChainPlan, code: u8) -> Batch
    ensures { result ≡ scan_bytes true (sum plan.now.near) (bits_of 5 code) (sum plan.now.far) false }
{
    plan.know();
    let mut batch = Batch::new();
    put_scan(
        &mut batch,
        true,
        all_bits(plan.near()),
        Bits::from_u64(u64::from(code), INSTRUCTION_BITS),
        all_bits(plan.far()),
        false,
    );
    batch
}

/// The bytes of a scan of the selected data registers, the chip's with these bits and a 0 for each other.
fn data_batch(plan: &ChainPlan, bits: Bits) -> Batch
    requires some { 0 < length bits }
    requires most { length bits ≤ bits_most }
    ensures { result ≡ scan_bytes false (length plan.now.near) bits (length plan.now.far) true }
{
    plan.know();
    let mut batch = Batch::new();
    put_scan(
        &mut batch,
        false,
        plan.near().len() as u8,
        bits,
        plan.far().len() as u8,
        true,
    );
    batch
}

/// Receives as many answers as `into` holds, at most 64, and reads their bits. What came before a fault is judged too: a bad answer is told before the fault.
#[tactic(auto, using(probe_scan::proofs::Received::bad_judged, probe_scan::proofs::Received::bad_own, crate::proofs::Receiving::bad_kept))]
fn receive<W: ChainWire>(wire: &mut W, into: &mut [u8]) -> Result<Bits, WireFault>
    requires most { length into.old ≤ bits_most }
    requires open { IsOpen (chip_told (W.far wire.old)) }
    requires waiting { IfSome (W.far wire.old) (λ f. length into.old ≤ length f.unread) }
    ensures length { length into.new ≡ length into.old }
    ensures bits { IfOk result (λ bits. into.new ≡ map answer_byte bits) }
    ensures read { OnOk result (ChainReadsFront into.new (W.far wire.old) (W.far wire.new)) }
    ensures came { OnOk result (TakesComing into.new (W.coming wire.old) (W.coming wire.new)) }
    ensures kept { OnErr result (KeepsChain (W.far wire.old) (W.far wire.new)) }
    ensures judged { IfErr result (Judged (option_map Answers (W.coming wire.old)) (option_map Answers (W.coming wire.new))) }
    ensures later { W.fault_count wire.old ≤ W.fault_count wire.new }
    ensures cause { IfErr result (ReceiveCause (W.fault_count wire.old) (W.fault_count wire.new)
        (chip_told (W.far wire.old)) (chip_told (W.far wire.new)) (W.coming wire.old)) }
    ensures own { IfErr result (λ why. or_bad W.gives why ≡ true) }
    ensures ties { W.ties wire.new ≡ W.ties wire.old }
{
    let received = wire.recv(into);
    let bits = read_bits(into)?;
    received?;
    Ok(bits)
}

impl<W: ChainWire> ChainScanner<W> {
    /// Brings all TAPs from anywhere through Test-Logic-Reset to Run-Test/Idle, where the identification is selected in each.
    fn send_reset(&mut self) -> Result<(), WireFault>
        requires callable { CanReset (chain_seen (W.far self.old.wire) (W.coming self.old.wire) self.old.remembered (W.fault_count self.old.wire)
            (W.ties self.old.wire) W.gives) }
        requires forgotten { self.old.remembered ≡ None }
        ensures reset { OnOk result (WhereTold (WasReset (Some 0)) (chip_told (W.far self.old.wire)) (chip_told (W.far self.new.wire))) }
        ensures rests { OnOk result (RestsTold (chip_told (W.far self.new.wire))) }
        ensures cut { OnErr result (WhereTold (ResetCut (Some 0)) (chip_told (W.far self.old.wire)) (chip_told (W.far self.new.wire))) }
        ensures coming { W.coming self.new.wire ≡ W.coming self.old.wire }
        ensures later { W.fault_count self.old.wire ≤ W.fault_count self.new.wire }
        ensures still { OnOk result (W.fault_count self.new.wire ≡ W.fault_count self.old.wire) }
        ensures cause { IfErr result (SendCause (W.fault_count self.old.wire) (W.fault_count self.new.wire) (chip_told (W.far self.new.wire))) }
        ensures own { IfErr result (λ why. or_bad W.gives why ≡ true) }
        ensures ties { W.ties self.new.wire ≡ W.ties self.old.wire }
        ensures forgotten { self.new.remembered ≡ None }
        ensures plan { self.new.plan ≡ self.old.plan }
    {
        self.wire.send(reset_batch().bytes())?;
        Ok(())
    }

    /// Scans this code into the chip's instruction register and ones into the others, and remembers it.
    fn send_code(&mut self, code: u8) -> Result<(), WireFault>
        requires code { code < 32 }
        requires callable { CanShift (chain_seen (W.far self.old.wire) (W.coming self.old.wire) self.old.remembered (W.fault_count self.old.wire)
            (W.ties self.old.wire) W.gives) }
        requires forgotten { self.old.remembered ≡ None }
        ensures scanned { OnOk result (WhereTold (CodeScanned code) (chip_told (W.far self.old.wire)) (chip_told (W.far self.new.wire))) }
        ensures rests { OnOk result (RestsTold (chip_told (W.far self.new.wire))) }
        ensures cut { OnErr result (WhereTold (RoundsPassed (Some code_slack) ir_clocks)
            (chip_told (W.far self.old.wire)) (chip_told (W.far self.new.wire))) }
        ensures coming { W.coming self.new.wire ≡ W.coming self.old.wire }
        ensures later { W.fault_count self.old.wire ≤ W.fault_count self.new.wire }
        ensures cause { IfErr result (SendCause (W.fault_count self.old.wire) (W.fault_count self.new.wire) (chip_told (W.far self.new.wire))) }
        ensures own { IfErr result (λ why. or_bad W.gives why ≡ true) }
        ensures ties { W.ties self.new.wire ≡ W.ties self.old.wire }
        ensures remembered { OnOk result (self.new.remembered ≡ Some code) }
        ensures plan { self.new.plan ≡ self.old.plan }
    {
        self.plan.know();
        self.wire.send(code_batch(&self.plan, code).bytes())?;
        self.remembered = Some(code);
        Ok(())
    }
}

impl<W: ChainWire> Scan for ChainScanner<W> {
    ghost seen = { λ s. chain_seen (W.far s.wire) (W.coming s.wire) s.remembered (W.fault_count s.wire) (W.ties s.wire) W.gives };

    fn reset(&mut self) -> Result<(), WireFault> {
        self.remembered = None;
        self.send_reset()?;
        self.send_code(instruction_code::IDCODE)?;
        Ok(())
    }

    fn ir(&mut self, code: u8) -> Result<(), WireFault> {
        if self.remembered == Some(code) {
            return Ok(());
        }
        self.remembered = None;
        self.send_code(code)?;
        Ok(())
    }

    fn dr(&mut self, bits: Bits) -> Result<Bits, WireFault> {
        self.plan.know();
        let remembered = self.remembered.take();
        self.wire.send(data_batch(&self.plan, bits).bytes())?;
        let mut answers = [NO_ANSWER; BITS_MOST];
        let out = receive(&mut self.wire, &mut answers[..bits.len() as usize])?;
        self.remembered = remembered;
        Ok(out)
    }

    fn idle(&mut self, clocks: u8) -> Result<(), WireFault> {
        let remembered = self.remembered.take();
        self.wire.send(idle_batch(clocks).bytes())?;
        self.remembered = remembered;
        Ok(())
    }

    fn faults(&self) -> u64 {
        self.wire.faults()
    }
}
