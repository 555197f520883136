ghost use Rattle.std.specs.Prelude.{◌≡◌, ◌≤◌, ◌<◌, ◌^◌, IfOk, IfErr, OnOk};
ghost use Rattle.probe_access.specs.Cuts.{IfCut, LeftAside, Leaves, MaybePutBack, Unchanged};
ghost use Rattle.probe_access.specs.Scratches.{PutBackAt, SavedAt, ScratchLeft};
ghost use Rattle.probe_access.specs.MemoryRuns.{GaveUp, Loses, PutBack, PutBackFailed, SaveFailed, Saved};
ghost use Rattle.debug_model.specs.Rises.{Within};
ghost use Rattle.probe_access.specs.Never.{NeverLost};
ghost use Rattle.debug_model.specs.Kept.{CanCall, Keeps};
ghost use Rattle.probe_run.specs.Told.{Fails, OnChip, told};
ghost use Rattle.probe_access.specs.Faults.{access_why};
ghost use Rattle.debug_model.specs.Kept.{StandsUnless};
ghost use Rattle.probe_run.specs.Told.{Serving};

use crate::fault::AccessFault;
use crate::program::{X8, X9};
use crate::transfers::{read_register, write_register};
use debug_model::Dmi;
use probe_run::Halted;

/// x8 and x9 of a halted hart, as they were. It has to be spent: put back, or abandoned with a fault that loses the session.
pub struct Scratch {
    pub(crate) x8: u64,
    pub(crate) x9: u64,
}

/// Reads x8 and x9 of the selected hart.
#[tactic(auto, using(debug_model::proofs::RiseLemmas::within_then, debug_model::proofs::RiseLemmas::within_more))]
pub(crate) fn save_scratch<D: Dmi>(link: &mut D) -> Result<Scratch, AccessFault>
    requires callable { CanCall (D.seen link.old) }
    ensures saved { IfOk result (λ scratch. Saved scratch.x8 scratch.x9 (told (D.seen link.old)) (told (D.seen link.new))) }
    ensures failed { IfErr result (Fails SaveFailed (D.seen link.old) (D.seen link.new)) }
    ensures rises { Within 32 (D.seen link.old) (D.seen link.new) }
    ensures never { IfErr result (NeverLost (D.seen link.old)) }
    ensures keeps { Keeps access_why (D.seen link.old) (D.seen link.new) result }
{
    let x8 = read_register(link, X8)?;
    let x9 = read_register(link, X9)?;
    Ok(Scratch { x8, x9 })
}

impl Scratch {
    /// Writes x8 and x9 of the selected hart.
    #[tactic(auto, using(debug_model::proofs::RiseLemmas::within_then, debug_model::proofs::RiseLemmas::within_more))]
    pub(crate) fn put_back<D: Dmi>(self, link: &mut D) -> Result<(), AccessFault>
        requires callable { CanCall (D.seen link.old) }
        ensures put_back { OnOk result (PutBack self.x8 self.x9 (told (D.seen link.old)) (told (D.seen link.new))) }
        ensures failed { IfErr result (Fails (PutBackFailed self.x8 self.x9) (D.seen link.old) (D.seen link.new)) }
        ensures rises { Within 16 (D.seen link.old) (D.seen link.new) }
        ensures never { IfErr result (NeverLost (D.seen link.old)) }
        ensures keeps { Keeps access_why (D.seen link.old) (D.seen link.new) result }
    {
        let Scratch { x8, x9 } = self;
        write_register(link, X8, x8)?;
        write_register(link, X9, x9)?;
        Ok(())
    }

    /// Puts x8 and x9 of the halted hart back, which is selected.
    pub fn restore<D: Dmi>(self, link: &mut D, halted: &Halted) -> Result<(), AccessFault>
        requires callable { CanCall (D.seen link.old) }
        requires serving { Serving halted.now.number (D.seen link.old).far }
        ensures restored { OnOk result (OnChip (PutBackAt halted.now.number self.x8 self.x9) (D.seen link.old) (D.seen link.new)) }
        ensures put_back { OnOk result (PutBack self.x8 self.x9 (told (D.seen link.old)) (told (D.seen link.new))) }
        ensures left { IfErr result (ScratchLeft (D.seen link.old).far) }
        ensures failed { IfErr result (Fails (PutBackFailed self.x8 self.x9) (D.seen link.old) (D.seen link.new)) }
        ensures cut { IfErr result (IfCut (Leaves (LeftAside (MaybePutBack self.x8 self.x9) halted.now.number) (D.seen link.old).far (D.seen link.new).far)) }
        ensures serving { OnOk result (Serving halted.now.number (D.seen link.new).far) }
        ensures rises { Within 16 (D.seen link.old) (D.seen link.new) }
        ensures never { IfErr result (NeverLost (D.seen link.old)) }
        ensures keeps { Keeps access_why (D.seen link.old) (D.seen link.new) result }
    {
        let _halted = halted;
        self.put_back(link)?;
        Ok(())
    }

    /// Gives the values up, with the fault that loses the session.
    pub fn abandon(self, fault: AccessFault) -> AccessFault
        requires loses { Loses fault }
        ensures { result ≡ fault }
    {
        let Scratch { x8: _, x9: _ } = self;
        fault
    }

    /// Hands a fault on, and puts x8 and x9 back first where the hart still serves. A fault of that comes in its place.
    #[tactic(auto, using(debug_model::proofs::RiseLemmas::within_none))]
    pub(crate) fn give_up<D: Dmi>(self, link: &mut D, fault: AccessFault) -> AccessFault
        requires behind { StandsUnless (D.seen link.old) (access_why fault) }
        ensures gave_up { GaveUp self.x8 self.x9 (D.seen link.old).fault_count (D.seen link.new).fault_count (told (D.seen link.old))
            (told (D.seen link.new)) fault result }
        ensures behind { StandsUnless (D.seen link.new) (access_why result) }
        ensures rises { Within 16 (D.seen link.old) (D.seen link.new) }
        ensures never { NeverLost (D.seen link.old) fault → NeverLost (D.seen link.old) result }
        ensures later { (D.seen link.old).fault_count ≤ (D.seen link.new).fault_count }
        ensures fixed { (D.seen link.new).fixed ≡ (D.seen link.old).fixed }
    {
        match fault {
            AccessFault::Memory(_) => match self.put_back(link) {
                Ok(()) => fault,
                Err(worse) => worse,
            },
            AccessFault::Register(_) => match self.put_back(link) {
                Ok(()) => fault,
                Err(worse) => worse,
            },
            _ => self.abandon(fault),
        }
    }
}

/// Reads x8 and x9 of the halted hart, which is selected, so that they can be put back.
pub fn save<D: Dmi>(link: &mut D, halted: &Halted) -> Result<Scratch, AccessFault>
    requires callable { CanCall (D.seen link.old) }
    requires serving { Serving halted.now.number (D.seen link.old).far }
    ensures saved_at { IfOk result (λ scratch. OnChip (SavedAt halted.now.number scratch.x8 scratch.x9) (D.seen link.old) (D.seen link.new)) }
    ensures saved { IfOk result (λ scratch. Saved scratch.x8 scratch.x9 (told (D.seen link.old)) (told (D.seen link.new))) }
    ensures left { IfErr result (ScratchLeft (D.seen link.old).far) }
    ensures failed { IfErr result (Fails SaveFailed (D.seen link.old) (D.seen link.new)) }
    ensures cut { IfErr result (IfCut (Leaves (LeftAside Unchanged halted.now.number) (D.seen link.old).far (D.seen link.new).far)) }
    ensures serving { OnOk result (Serving halted.now.number (D.seen link.new).far) }
    ensures rises { Within 32 (D.seen link.old) (D.seen link.new) }
    ensures never { IfErr result (NeverLost (D.seen link.old)) }
    ensures keeps { Keeps access_why (D.seen link.old) (D.seen link.new) result }
{
    let _halted = halted;
    let scratch = save_scratch(link)?;
    Ok(scratch)
}
