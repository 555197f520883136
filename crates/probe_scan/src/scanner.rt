ghost use Rattle.std.specs.Prelude.{◌≡◌, ◌<◌, ◌≤◌, true, Some, None, IfErr, IfOk, IfSome, OnErr, OnOk, length, map, option_map};
ghost use Rattle.std.proofs.Props.{props};
ghost use Rattle.debug_model.specs.Chip.{answer_byte};
ghost use Rattle.debug_model.specs.Kept.{CanShift, ScanFails, ScanKeeps};
ghost use Rattle.debug_model.specs.Scan.{Answers, ComesOut, Judged, ScanCut, Scanned, WhereTold};
ghost use Rattle.debug_model.specs.Told.{IsOpen};
ghost use Rattle.debug_model.specs.Wire.{ReadsFront, TakesComing};
ghost use Rattle.probe_scan.specs.Answers.{KeepsChip, ReceiveCause, bits_most, or_bad, scan_seen};
ghost use Rattle.probe_scan.specs.Remembered.{IsRemembered};

use crate::batch::{dr_batch, idle_batch, ir_batch, read_bits, reset_batch};
use debug_model::{NO_ANSWER, Scan, Wire, WireFault, instruction_code};
use jt_base::Bits;

/// The most bits of one scan.
const BITS_MOST: usize = 64;

/// Scans over a wire.
#[derive(Drop)]
pub struct Scanner<W: Wire> {
    wire: W,
    remembered: Option<u8>,
    ghost is_remembered: { IsRemembered remembered (W.far wire) } by { Prim.hlevel props },
}

impl<W: Wire> Scanner<W> {
    /// Scans over this wire, which `into_wire` hands back.
    pub fn new(wire: W) -> Self
        ensures { result.wire ≡ wire }
    {
        Scanner {
            wire,
            remembered: None,
        }
    }

    /// The wire as it stands.
    pub fn into_wire(self) -> W
        ensures { result ≡ self.wire }
    {
        self.wire
    }
}

/// Receives as many answers as `into` holds, at most 64, and reads their bits. What came before a fault is judged too: a bad answer is told before the fault.
#[tactic(auto, using(crate::proofs::Received::bad_judged, crate::proofs::Received::bad_own, crate::proofs::Received::bad_kept))]
fn receive<W: Wire>(wire: &mut W, into: &mut [u8]) -> Result<Bits, WireFault>
    requires most { length into.old ≤ bits_most }
    requires open { IsOpen (W.far wire.old) }
    requires waiting { IfSome (W.far wire.old) (λ f. length into.old ≤ length f.unread) }
    ensures length { length into.new ≡ length into.old }
    ensures bits { IfOk result (λ bits. into.new ≡ map answer_byte bits) }
    ensures read { OnOk result (ReadsFront into.new (W.far wire.old) (W.far wire.new)) }
    ensures came { OnOk result (TakesComing into.new (W.coming wire.old) (W.coming wire.new)) }
    ensures kept { OnErr result (KeepsChip (W.far wire.old) (W.far wire.new)) }
    ensures judged { IfErr result (Judged (option_map Answers (W.coming wire.old)) (option_map Answers (W.coming wire.new))) }
    ensures later { W.fault_count wire.old ≤ W.fault_count wire.new }
    ensures cause { IfErr result (ReceiveCause (W.fault_count wire.old) (W.fault_count wire.new) (W.far wire.old) (W.far wire.new) (W.coming wire.old)) }
    ensures own { IfErr result (λ why. or_bad W.gives why ≡ true) }
    ensures ties { W.ties wire.new ≡ W.ties wire.old }
{
    let received = wire.recv(into);
    let bits = read_bits(into)?;
    received?;
    Ok(bits)
}

impl<W: Wire> Scan for Scanner<W> {
    ghost seen = { λ s. scan_seen (W.far s.wire) (W.coming s.wire) (W.fault_count s.wire) (W.ties s.wire) W.gives };

    fn reset(&mut self) -> Result<(), WireFault> {
        self.remembered = None;
        self.wire.send(reset_batch().bytes())?;
        self.remembered = Some(instruction_code::IDCODE);
        Ok(())
    }

    fn ir(&mut self, code: u8) -> Result<(), WireFault> {
        if self.remembered == Some(code) {
            return Ok(());
        }
        self.remembered = None;
        self.wire.send(ir_batch(code).bytes())?;
        self.remembered = Some(code);
        Ok(())
    }

    /// Scans from 1 to 64 bits, also more or fewer than the register has.
    fn dr(&mut self, bits: Bits) -> Result<Bits, WireFault>
        requires some { 0 < length bits }
        requires callable { CanShift (scan_seen (W.far self.old.wire) (W.coming self.old.wire) (W.fault_count self.old.wire) (W.ties self.old.wire) W.gives) }
        ensures scanned { IfOk result (λ out. WhereTold (Scanned (Some 0) bits out) (W.far self.old.wire) (W.far self.new.wire)) }
        ensures came { IfOk result (λ out. ComesOut out (option_map Answers (W.coming self.old.wire)) (option_map Answers (W.coming self.new.wire))) }
        ensures length { IfOk result (λ out. length out ≡ length bits) }
        ensures cut { OnErr result (WhereTold (ScanCut (Some 0) bits) (W.far self.old.wire) (W.far self.new.wire)) }
        ensures judged { IfErr result (Judged (option_map Answers (W.coming self.old.wire)) (option_map Answers (W.coming self.new.wire))) }
        ensures cause { IfErr result (ScanFails
            (scan_seen (W.far self.old.wire) (W.coming self.old.wire) (W.fault_count self.old.wire) (W.ties self.old.wire) W.gives)
            (scan_seen (W.far self.new.wire) (W.coming self.new.wire) (W.fault_count self.new.wire) (W.ties self.new.wire) W.gives)) }
        ensures keeps { ScanKeeps (scan_seen (W.far self.old.wire) (W.coming self.old.wire) (W.fault_count self.old.wire) (W.ties self.old.wire) W.gives)
            (scan_seen (W.far self.new.wire) (W.coming self.new.wire) (W.fault_count self.new.wire) (W.ties self.new.wire) W.gives) result }
    {
        let remembered = self.remembered.take();
        self.wire.send(dr_batch(bits).bytes())?;
        let mut answers = [NO_ANSWER; BITS_MOST];
        let out = receive(&mut self.wire, &mut answers[..bits.len() as usize])?;
        self.remembered = remembered;
        Ok(out)
    }

    fn idle(&mut self, clocks: u8) -> Result<(), WireFault> {
        let remembered = self.remembered.take();
        self.wire.send(idle_batch(clocks).bytes())?;
        self.remembered = remembered;
        Ok(())
    }

    fn faults(&self) -> u64 {
        self.wire.faults()
    }
}
