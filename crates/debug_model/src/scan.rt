ghost use Rattle.std.specs.Prelude.{◌≡◌, ◌<◌, ◌≤◌, [], ◌∷◌, true, length, OnOk, OnErr, IfOk, IfErr};
ghost use Rattle.debug_model.specs.declared.asked.Asked.TheVariants as asked;
ghost use Rattle.debug_model.specs.Asked.{and_asked};
ghost use Rattle.debug_model.specs.Kept.{CanReset, CanShift, ScanFails, ScanKeeps, ScanSeen};
ghost use Rattle.debug_model.specs.Scan.{Fits, Judged, Scanned, Selected, StayedIdle, WasReset, ScanCut, RoundsPassed, ResetCut, WhereTold};
ghost use Rattle.debug_model.specs.Scan.{ComesOut, idle_most, ir_clocks};
ghost use Rattle.debug_model.specs.Ties.{lent_by};

use crate::wire::WireFault;
use jt_base::Bits;

/// Scans of a TAP's registers.
///
/// Where it tells its far end, or what is to come out, the clauses say what each call does there. Each Ok leaves the TAP in
/// Run-Test/Idle. Whatever a call answers, the chip behind it comes from the one before it by the schedule's next rounds; a scan
/// updates the selected register at most once, and nothing else updates it.
pub trait Scan: Drop {
    /// The chip at the far end, what is to come out of scans, and what was asked for, each where it is told; how many calls have failed; and what no call
    /// changes.
    ghost seen: { Self → ScanSeen };

    /// Brings the TAP from anywhere through Test-Logic-Reset to Run-Test/Idle, with IDCODE selected.
    fn reset(&mut self) -> Result<(), WireFault>
        requires callable { CanReset (seen self.old) }
        ensures reset { OnOk result (WhereTold (WasReset (seen self.old).fixed.slack) (seen self.old).far (seen self.new).far) }
        ensures cut { OnErr result (WhereTold (ResetCut (seen self.old).fixed.slack) (seen self.old).far (seen self.new).far) }
        ensures coming { (seen self.new).coming ≡ (seen self.old).coming }
        ensures asked { (seen self.new).asked ≡ and_asked (asked.Reset ∷ []) (seen self.old).asked }
        ensures cause { IfErr result (ScanFails (seen self.old) (seen self.new)) }
        ensures keeps { ScanKeeps (seen self.old) (seen self.new) result };

    /// Makes this code, below 32, the instruction. It is scanned only where another code is selected than the last.
    fn ir(&mut self, code: u8) -> Result<(), WireFault>
        requires code { code < 32 }
        requires callable { CanShift (seen self.old) }
        ensures selected { OnOk result (WhereTold (Selected (seen self.old).fixed.slack code) (seen self.old).far (seen self.new).far) }
        ensures cut { OnErr result (WhereTold (RoundsPassed (seen self.old).fixed.slack ir_clocks) (seen self.old).far (seen self.new).far) }
        ensures coming { (seen self.new).coming ≡ (seen self.old).coming }
        ensures asked { (seen self.new).asked ≡ and_asked (asked.Select code ∷ []) (seen self.old).asked }
        ensures cause { IfErr result (ScanFails (seen self.old) (seen self.new)) }
        ensures keeps { ScanKeeps (seen self.old) (seen self.new) result };

    /// Scans bits through the selected data register, as many as it has where a chip is told, and answers as many that came out.
    fn dr(&mut self, bits: Bits) -> Result<Bits, WireFault>
        requires some { 0 < length bits }
        requires fits { Fits bits (seen self.old).far }
        requires callable { CanShift (seen self.old) }
        requires bypassed { (seen self.old).bypassed ≡ true }
        ensures scanned { IfOk result (λ out. WhereTold (Scanned (seen self.old).fixed.slack bits out) (seen self.old).far (seen self.new).far) }
        ensures came { IfOk result (λ out. ComesOut out (seen self.old).coming (seen self.new).coming) }
        ensures asked { (seen self.new).asked ≡ and_asked (asked.Shift bits ∷ []) (seen self.old).asked }
        ensures length { IfOk result (λ out. length out ≡ length bits) }
        ensures cut { OnErr result (WhereTold (ScanCut (seen self.old).fixed.slack bits) (seen self.old).far (seen self.new).far) }
        ensures judged { IfErr result (Judged (seen self.old).coming (seen self.new).coming) }
        ensures cause { IfErr result (ScanFails (seen self.old) (seen self.new)) }
        ensures keeps { ScanKeeps (seen self.old) (seen self.new) result };

    /// Stays in Run-Test/Idle for so many clocks, from 1 to 32.
    fn idle(&mut self, clocks: u8) -> Result<(), WireFault>
        requires some { 0 < clocks }
        requires few { clocks ≤ idle_most }
        requires callable { CanShift (seen self.old) }
        requires bypassed { (seen self.old).bypassed ≡ true }
        ensures passed { OnOk result (WhereTold (StayedIdle (seen self.old).fixed.slack clocks) (seen self.old).far (seen self.new).far) }
        ensures cut { OnErr result (WhereTold (RoundsPassed (seen self.old).fixed.slack clocks) (seen self.old).far (seen self.new).far) }
        ensures coming { (seen self.new).coming ≡ (seen self.old).coming }
        ensures asked { (seen self.new).asked ≡ and_asked (asked.Idle clocks ∷ []) (seen self.old).asked }
        ensures cause { IfErr result (ScanFails (seen self.old) (seen self.new)) }
        ensures keeps { ScanKeeps (seen self.old) (seen self.new) result };

    /// How many calls of what carries the scans have failed. The count stays at the top of a `u64`.
    fn faults(&self) -> u64
        ensures { result ≡ (seen self.now).fault_count };
}

impl<S: Scan> Scan for &mut S {
    ghost seen = { λ s. record (S.seen s.now) { fixed = record (S.seen s.now).fixed { ties = lent_by s.ghost_name (S.seen s.now).fixed.ties } } };

    fn reset(&mut self) -> Result<(), WireFault> {
        (**self).reset()
    }

    fn ir(&mut self, code: u8) -> Result<(), WireFault> {
        (**self).ir(code)
    }

    fn dr(&mut self, bits: Bits) -> Result<Bits, WireFault> {
        (**self).dr(bits)
    }

    fn idle(&mut self, clocks: u8) -> Result<(), WireFault> {
        (**self).idle(clocks)
    }

    fn faults(&self) -> u64 {
        (**self).faults()
    }
}
