ghost use Rattle.std.specs.Prelude.{◌≡◌, ◌<◌, ◌≤◌, ◌+◌, ◌*◌, [], ◌∷◌, ◌++◌, length, true, false, OnOk, OnErr, IfOk, IfErr};
ghost use Rattle.std.proofs.Props.{props};
ghost use Rattle.debug_model.specs.Port.{data_register_of};
ghost use Rattle.debug_model.specs.declared.data_register.DataRegister.TheVariants as dr;
ghost use Rattle.debug_model.specs.Kept.{ScanFails, ScanKeeps, ScanRests};
ghost use Rattle.debug_model.specs.Rises.{dmi_clocks};
ghost use Rattle.debug_model.specs.Scan.{ComesOut, Fits, ScanCut, Scanned, WhereTold, dr_clocks, idle_most, ir_clocks, reset_clocks};
ghost use Rattle.probe_dmi.specs.Rises.{RoseWithin, clearing_clocks, pauses, resets};
ghost use Rattle.debug_model.specs.Told.{IsIdle};
ghost use Rattle.probe_dmi.specs.declared.state.State.TheVariants.{Idle, New};
ghost use Rattle.probe_dmi.specs.Operations.{LeavesState, is_alive_as, reset_first};
ghost use Rattle.probe_dmi.specs.Registers.{
  CanScan,
  CutFrom,
  DmiScanned,
  HeardDmi,
  HeardNumber,
  IsAsLong,
  IsChosen,
  IsWidth,
  Prepared,
  ScannedFrom,
  Waited,
  WordScanned,
  dmi_bits,
};
ghost use Rattle.debug_model.specs.declared.asked.Asked.TheVariants as asked;
ghost use Rattle.debug_model.specs.Asked.{and_asked, bits_of_dmi, clearing, clearing_again, idcode_acts, idcode_bits, idles, reset_bits};

use crate::state::State;
use debug_model::{DmiScan, Dtmcs, Scan, WireFault, instruction_code};
use jt_base::Bits;

/// The bits of IDCODE, and of `dtmcs`.
const WORD_BITS: u8 = 32;

/// The bits of `dmi` below the address: `op` and `value`.
const BELOW_ADDRESS: u8 = 34;

/// The fewest bits of an address: as many as the debug module's own registers need.
pub const ABITS_LEAST: u8 = 7;

/// The most bits of an address with which `dmi` has no more than the 64 bits of a scan.
pub const ABITS_MOST: u8 = 30;

/// Scans of a transport's registers, the first of which resets the TAP.
#[derive(Drop)]
pub struct Registers<S: Scan> {
    pub scan: S,
    pub state: State,
    ghost is_idle: { state ≡ Idle → IsIdle (S.seen scan).far } by { Prim.hlevel props },
}

impl<S: Scan> Registers<S> {
    /// Whether no call has failed.
    pub fn is_alive(&self) -> bool
        ensures { result ≡ is_alive_as self.now.state }
    {
        match self.state {
            State::New | State::Idle => true,
            State::Dead => false,
        }
    }

    /// How many calls of the scans have failed.
    pub fn faults(&self) -> u64
        ensures { result ≡ (S.seen self.now.scan).fault_count }
    {
        self.scan.faults()
    }

    /// Brings the TAP to Run-Test/Idle: that of a new link by a reset, behind which IDCODE is selected.
    fn rest(&mut self) -> Result<(), WireFault>
        requires scan { CanScan (S.seen self.old.scan).far }
        ensures waited { OnOk result (WhereTold Waited (S.seen self.old.scan).far (S.seen self.new.scan).far) }
        ensures reset { self.old.state ≡ New → OnOk result (WhereTold (Prepared dr.Idcode) (S.seen self.old.scan).far (S.seen self.new.scan).far) }
        ensures scan { OnOk result (CanScan (S.seen self.new.scan).far) }
        ensures rests { self.old.state ≡ New → OnOk result (ScanRests (S.seen self.new.scan)) }
        ensures cut { OnErr result (WhereTold Waited (S.seen self.old.scan).far (S.seen self.new.scan).far) }
        ensures coming { (S.seen self.new.scan).coming ≡ (S.seen self.old.scan).coming }
        ensures asked { (S.seen self.new.scan).asked ≡ and_asked (reset_first self.old.state) (S.seen self.old.scan).asked }
        ensures rises { RoseWithin (resets self.old.state) (reset_clocks * resets self.old.state) (S.seen self.old.scan) (S.seen self.new.scan) }
        ensures cause { IfErr result (ScanFails (S.seen self.old.scan) (S.seen self.new.scan)) }
        ensures state { LeavesState self.new.state result }
        ensures later { (S.seen self.old.scan).fault_count ≤ (S.seen self.new.scan).fault_count }
        ensures fixed { (S.seen self.new.scan).fixed ≡ (S.seen self.old.scan).fixed }
        ensures own { IfErr result (λ why. (S.seen self.new.scan).fixed.gives why ≡ true) }
    {
        if self.state == State::Idle {
            return Ok(());
        }
        self.state = State::Dead;
        self.scan.reset()?;
        self.state = State::Idle;
        Ok(())
    }

    /// Makes this code, below 32, the instruction.
    pub fn select(&mut self, code: u8) -> Result<(), WireFault>
        requires code { code < 32 }
        requires scan { CanScan (S.seen self.old.scan).far }
        ensures prepared { OnOk result (WhereTold (Prepared (data_register_of code)) (S.seen self.old.scan).far (S.seen self.new.scan).far) }
        ensures cut { OnErr result (WhereTold Waited (S.seen self.old.scan).far (S.seen self.new.scan).far) }
        ensures coming { (S.seen self.new.scan).coming ≡ (S.seen self.old.scan).coming }
        ensures asked { OnOk result ((S.seen self.new.scan).asked
            ≡ and_asked (reset_first self.old.state ++ asked.Select code ∷ []) (S.seen self.old.scan).asked) }
        ensures rises { RoseWithin (resets self.old.state + 1) (reset_clocks * resets self.old.state + ir_clocks) (S.seen self.old.scan) (S.seen self.new.scan) }
        ensures cause { IfErr result (ScanFails (S.seen self.old.scan) (S.seen self.new.scan)) }
        ensures state { LeavesState self.new.state result }
        ensures keeps { ScanKeeps (S.seen self.old.scan) (S.seen self.new.scan) result }
    {
        self.rest()?;
        self.state = State::Dead;
        self.scan.ir(code)?;
        self.state = State::Idle;
        Ok(())
    }

    /// Scans bits through the selected register, as many as it has where a chip is told.
    fn shift(&mut self, bits: Bits) -> Result<Bits, WireFault>
        requires some { 0 < length bits }
        requires fits { Fits bits (S.seen self.old.scan).far }
        requires rests { ScanRests (S.seen self.old.scan) }
        ensures scanned { IfOk result (λ out. WhereTold (Scanned (S.seen self.old.scan).fixed.slack bits out)
            (S.seen self.old.scan).far (S.seen self.new.scan).far) }
        ensures cut { OnErr result (WhereTold (ScanCut (S.seen self.old.scan).fixed.slack bits) (S.seen self.old.scan).far (S.seen self.new.scan).far) }
        ensures came { IfOk result (λ out. ComesOut out (S.seen self.old.scan).coming (S.seen self.new.scan).coming) }
        ensures length { IfOk result (λ out. length out ≡ length bits) }
        ensures asked { (S.seen self.new.scan).asked ≡ and_asked (asked.Shift bits ∷ []) (S.seen self.old.scan).asked }
        ensures rises { RoseWithin 1 (dr_clocks bits) (S.seen self.old.scan) (S.seen self.new.scan) }
        ensures cause { IfErr result (ScanFails (S.seen self.old.scan) (S.seen self.new.scan)) }
        ensures state { LeavesState self.new.state result }
        ensures keeps { ScanKeeps (S.seen self.old.scan) (S.seen self.new.scan) result }
    {
        self.state = State::Dead;
        let out = self.scan.dr(bits)?;
        self.state = State::Idle;
        Ok(out)
    }

    /// Scans bits through the register of this code, below 32: as many as it has, where a chip is told.
    fn register(&mut self, code: u8, bits: Bits) -> Result<Bits, WireFault>
        requires code { code < 32 }
        requires some { 0 < length bits }
        requires long { IsAsLong (data_register_of code) bits (S.seen self.old.scan).far }
        requires scan { CanScan (S.seen self.old.scan).far }
        ensures scanned { IfOk result (λ out. WhereTold (ScannedFrom (data_register_of code) bits out) (S.seen self.old.scan).far (S.seen self.new.scan).far) }
        ensures cut { OnErr result (WhereTold (CutFrom (data_register_of code) bits) (S.seen self.old.scan).far (S.seen self.new.scan).far) }
        ensures came { IfOk result (λ out. ComesOut out (S.seen self.old.scan).coming (S.seen self.new.scan).coming) }
        ensures length { IfOk result (λ out. length out ≡ length bits) }
        ensures asked { OnOk result ((S.seen self.new.scan).asked
            ≡ and_asked (reset_first self.old.state ++ asked.Select code ∷ asked.Shift bits ∷ []) (S.seen self.old.scan).asked) }
        ensures rises { RoseWithin (resets self.old.state + 2) (reset_clocks * resets self.old.state + ir_clocks + dr_clocks bits)
            (S.seen self.old.scan) (S.seen self.new.scan) }
        ensures cause { IfErr result (ScanFails (S.seen self.old.scan) (S.seen self.new.scan)) }
        ensures state { LeavesState self.new.state result }
        ensures keeps { ScanKeeps (S.seen self.old.scan) (S.seen self.new.scan) result }
    {
        self.select(code)?;
        let out = self.shift(bits)?;
        Ok(out)
    }

    /// Resets the TAP and scans IDCODE.
    pub fn idcode(&mut self) -> Result<u32, WireFault>
        requires scan { CanScan (S.seen self.old.scan).far }
        ensures scanned { IfOk result (λ value. WhereTold (WordScanned dr.Idcode idcode_bits value) (S.seen self.old.scan).far (S.seen self.new.scan).far) }
        ensures cut { OnErr result (WhereTold (CutFrom dr.Idcode idcode_bits) (S.seen self.old.scan).far (S.seen self.new.scan).far) }
        ensures heard { IfOk result (λ value. HeardNumber value (S.seen self.old.scan).coming (S.seen self.new.scan).coming) }
        ensures asked { OnOk result ((S.seen self.new.scan).asked ≡ and_asked idcode_acts (S.seen self.old.scan).asked) }
        ensures rises { RoseWithin 2 (reset_clocks + dr_clocks idcode_bits) (S.seen self.old.scan) (S.seen self.new.scan) }
        ensures cause { IfErr result (ScanFails (S.seen self.old.scan) (S.seen self.new.scan)) }
        ensures state { LeavesState self.new.state result }
        ensures keeps { ScanKeeps (S.seen self.old.scan) (S.seen self.new.scan) result }
    {
        self.state = State::New;
        self.rest()?;
        let out = self.shift(Bits::from_u64(0, WORD_BITS))?;
        Ok(out.value() as u32)
    }

    /// Scans `dtmcs` with `dmireset` set.
    pub fn clear(&mut self) -> Result<u32, WireFault>
        requires scan { CanScan (S.seen self.old.scan).far }
        ensures scanned { IfOk result (λ value. WhereTold (WordScanned dr.Dtmcs reset_bits value) (S.seen self.old.scan).far (S.seen self.new.scan).far) }
        ensures cut { OnErr result (WhereTold (CutFrom dr.Dtmcs reset_bits) (S.seen self.old.scan).far (S.seen self.new.scan).far) }
        ensures heard { IfOk result (λ value. HeardNumber value (S.seen self.old.scan).coming (S.seen self.new.scan).coming) }
        ensures asked { OnOk result ((S.seen self.new.scan).asked
            ≡ and_asked (reset_first self.old.state ++ clearing) (S.seen self.old.scan).asked) }
        ensures rises { RoseWithin (resets self.old.state + 2) (reset_clocks * resets self.old.state + clearing_clocks) (S.seen self.old.scan) (S.seen self.new.scan) }
        ensures cause { IfErr result (ScanFails (S.seen self.old.scan) (S.seen self.new.scan)) }
        ensures state { LeavesState self.new.state result }
        ensures keeps { ScanKeeps (S.seen self.old.scan) (S.seen self.new.scan) result }
    {
        let reset = Dtmcs {
            dtmhardreset: false,
            dmireset: true,
            idle: 0,
            dmistat: 0,
            abits: 0,
            version: 0,
        };
        let out = self.register(
            instruction_code::DTMCS,
            Bits::from_u64(u64::from(reset.word()), WORD_BITS),
        )?;
        Ok(out.value() as u32)
    }

    /// Stays in Run-Test/Idle for so many clocks, at most 32, and sends nothing where it is 0.
    fn pause(&mut self, clocks: u8) -> Result<(), WireFault>
        requires few { clocks ≤ idle_most }
        requires rests { ScanRests (S.seen self.old.scan) }
        requires chosen { IsChosen dr.Dmi (S.seen self.old.scan).far }
        requires idle { self.old.state ≡ Idle }
        ensures prepared { OnOk result (WhereTold (Prepared dr.Dmi) (S.seen self.old.scan).far (S.seen self.new.scan).far) }
        ensures cut { OnErr result (WhereTold Waited (S.seen self.old.scan).far (S.seen self.new.scan).far) }
        ensures coming { (S.seen self.new.scan).coming ≡ (S.seen self.old.scan).coming }
        ensures asked { (S.seen self.new.scan).asked ≡ and_asked (idles clocks) (S.seen self.old.scan).asked }
        ensures rises { RoseWithin (pauses clocks) clocks (S.seen self.old.scan) (S.seen self.new.scan) }
        ensures cause { IfErr result (ScanFails (S.seen self.old.scan) (S.seen self.new.scan)) }
        ensures state { LeavesState self.new.state result }
        ensures keeps { ScanKeeps (S.seen self.old.scan) (S.seen self.new.scan) result }
    {
        if clocks == 0 {
            return Ok(());
        }
        self.state = State::Dead;
        self.scan.idle(clocks)?;
        self.state = State::Idle;
        Ok(())
    }

    /// Waits for so many clocks, at most 32, and scans `dmi`, which is selected, with this in it, at an address of 7 to 30 bits.
    pub fn exchange_behind(
        &mut self,
        clocks: u8,
        abits: u8,
        sent: DmiScan,
    ) -> Result<DmiScan, WireFault>
        requires few { clocks ≤ idle_most }
        requires least { 7 ≤ abits }
        requires most { abits ≤ 30 }
        requires width { IsWidth abits (S.seen self.old.scan).far }
        requires rests { ScanRests (S.seen self.old.scan) }
        requires chosen { IsChosen dr.Dmi (S.seen self.old.scan).far }
        requires idle { self.old.state ≡ Idle }
        ensures scanned { IfOk result (λ out. WhereTold (DmiScanned sent out) (S.seen self.old.scan).far (S.seen self.new.scan).far) }
        ensures chosen { OnOk result (IsChosen dr.Dmi (S.seen self.new.scan).far) }
        ensures cut { OnErr result (WhereTold (CutFrom dr.Dmi (dmi_bits sent)) (S.seen self.old.scan).far (S.seen self.new.scan).far) }
        ensures heard { IfOk result (λ out. HeardDmi out (S.seen self.old.scan).coming (S.seen self.new.scan).coming) }
        ensures asked { OnOk result ((S.seen self.new.scan).asked
            ≡ and_asked (idles clocks ++ asked.Shift (bits_of_dmi abits sent) ∷ []) (S.seen self.old.scan).asked) }
        ensures rises { RoseWithin (pauses clocks + 1) (clocks + dmi_clocks) (S.seen self.old.scan) (S.seen self.new.scan) }
        ensures cause { IfErr result (ScanFails (S.seen self.old.scan) (S.seen self.new.scan)) }
        ensures state { LeavesState self.new.state result }
        ensures keeps { ScanKeeps (S.seen self.old.scan) (S.seen self.new.scan) result }
    {
        self.pause(clocks)?;
        let out = self.shift(Bits::from_u64(sent.bits(), BELOW_ADDRESS + abits))?;
        Ok(DmiScan::from_bits(out.value()))
    }

    /// Scans `dtmcs` with `dmireset` set, and selects `dmi` again.
    pub fn clear_again(&mut self) -> Result<u32, WireFault>
        requires scan { CanScan (S.seen self.old.scan).far }
        ensures scanned { IfOk result (λ value. WhereTold (WordScanned dr.Dtmcs reset_bits value) (S.seen self.old.scan).far (S.seen self.new.scan).far) }
        ensures chosen { OnOk result (IsChosen dr.Dmi (S.seen self.new.scan).far) }
        ensures cut { OnErr result (WhereTold (CutFrom dr.Dtmcs reset_bits) (S.seen self.old.scan).far (S.seen self.new.scan).far) }
        ensures heard { IfOk result (λ value. HeardNumber value (S.seen self.old.scan).coming (S.seen self.new.scan).coming) }
        ensures asked { OnOk result ((S.seen self.new.scan).asked
            ≡ and_asked (reset_first self.old.state ++ clearing_again) (S.seen self.old.scan).asked) }
        ensures rises { RoseWithin (resets self.old.state + 3) (reset_clocks * resets self.old.state + clearing_clocks + ir_clocks)
            (S.seen self.old.scan) (S.seen self.new.scan) }
        ensures cause { IfErr result (ScanFails (S.seen self.old.scan) (S.seen self.new.scan)) }
        ensures state { LeavesState self.new.state result }
        ensures keeps { ScanKeeps (S.seen self.old.scan) (S.seen self.new.scan) result }
    {
        let value = self.clear()?;
        self.select(instruction_code::DMI)?;
        Ok(value)
    }
}
