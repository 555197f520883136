ghost use Rattle.std.specs.Prelude.{◌≡◌, ◌≤◌};
ghost use Rattle.std.proofs.Props.{props};
ghost use Rattle.debug_model.specs.Dmi.{CanOperate};
ghost use Rattle.probe_dmi.specs.declared.state.State.TheVariants.{New};
ghost use Rattle.probe_dmi.specs.Operations.{link_seen};
ghost use Rattle.debug_model.specs.Asked.{abits_behind};
ghost use Rattle.probe_dmi.specs.Pace.{IsPace, never_waits, nothing_learnt};
ghost use Rattle.probe_dmi.specs.Registers.{IsWidth};

use crate::pace::Pace;
use crate::register::{ABITS_LEAST, ABITS_MOST, Registers};
use crate::state::State;
use arrayvec::ArrayVec;
use debug_model::{Dmi, DmiFault, DmiOp, Dtmcs, OPERATIONS_MOST, Scan};

/// Operations over scans.
///
/// An address has the bits that `dtmcs` told, where they are from 7 to 30, and 7 until then.
#[derive(Drop)]
pub struct Link<S: Scan> {
    registers: Registers<S>,
    abits: u8,
    pace: Pace,
    ghost in_range: { (7 ≤ abits) × (abits ≤ 30) },
    ghost is_pace: { IsPace pace } by { Prim.hlevel props },
    ghost width: { IsWidth abits (S.seen registers.scan).far } by { Prim.hlevel props },
}

impl<S: Scan> Link<S> {
    /// Operations over these scans, which `into_scan` hands back. The first call resets the TAP. It never waits.
    pub fn new(scan: S) -> Self
        requires link { CanOperate (S.seen scan).far }
        ensures scan { result.registers.scan ≡ scan }
        ensures state { result.registers.state ≡ New }
        ensures abits { result.abits ≡ 7 }
        ensures pace { result.pace ≡ never_waits }
    {
        Link::with_pace(scan, Pace::never())
    }

    /// As `new`, but it learns from busy answers for how many clocks, at most 24, it is to wait in Run-Test/Idle before each scan of several operations.
    pub fn paced(scan: S) -> Self
        requires link { CanOperate (S.seen scan).far }
        ensures scan { result.registers.scan ≡ scan }
        ensures state { result.registers.state ≡ New }
        ensures abits { result.abits ≡ 7 }
        ensures pace { result.pace ≡ nothing_learnt }
    {
        Link::with_pace(scan, Pace::learning())
    }

    fn with_pace(scan: S, pace: Pace) -> Self
        requires pace { IsPace pace }
        requires link { CanOperate (S.seen scan).far }
        ensures scan { result.registers.scan ≡ scan }
        ensures state { result.registers.state ≡ New }
        ensures abits { result.abits ≡ 7 }
        ensures pace { result.pace ≡ pace }
    {
        Link {
            registers: Registers {
                scan,
                state: State::New,
            },
            abits: ABITS_LEAST,
            pace,
        }
    }

    /// The scans as they stand.
    pub fn into_scan(self) -> S
        ensures { result ≡ self.registers.scan }
    {
        self.registers.scan
    }
}

/// The bits of an address behind a reading of `dtmcs`.
fn abits_behind(found: u8, old: u8) -> u8
    requires least { 7 ≤ old }
    requires most { old ≤ 30 }
    ensures value { result ≡ abits_behind found old }
    ensures least { 7 ≤ result }
    ensures most { result ≤ 30 }
{
    if ABITS_LEAST <= found && found <= ABITS_MOST {
        return found;
    }
    old
}

impl<S: Scan> Dmi for Link<S> {
    ghost seen = { λ l. link_seen (S.seen l.registers.scan) l.registers.state l.abits };

    fn idcode(&mut self) -> Result<u32, DmiFault> {
        let idcode = self.registers.idcode()?;
        Ok(idcode)
    }

    fn dtmcs(&mut self) -> Result<u32, DmiFault> {
        let dtmcs = self.registers.clear()?;
        self.abits = abits_behind(Dtmcs::from_word(dtmcs).abits, self.abits);
        Ok(dtmcs)
    }

    fn read(&mut self, address: u8) -> Result<u32, DmiFault> {
        let value = self
            .registers
            .operate(self.abits, &mut self.pace, DmiOp::Read(address))?;
        Ok(value)
    }

    fn write(&mut self, address: u8, value: u32) -> Result<(), DmiFault> {
        self.registers
            .operate(self.abits, &mut self.pace, DmiOp::Write(address, value))?;
        Ok(())
    }

    fn many(
        &mut self,
        ops: &[DmiOp],
        results: &mut ArrayVec<u32, OPERATIONS_MOST>,
    ) -> Result<(), DmiFault> {
        let done = self
            .registers
            .stream(self.abits, &mut self.pace, ops, results);
        if done.is_err() {
            results.clear();
        }
        done
    }

    fn alive(&self) -> bool {
        self.registers.is_alive()
    }

    fn faults(&self) -> u64 {
        self.registers.faults()
    }
}
