//! A software breakpoint that is lifted while a hart steps over it: by the halted hart's own program buffer.

ghost use Rattle.std.specs.Prelude.{◌≡◌, true, IfErr, IfOk, OnOk};
ghost use Rattle.rv_model.specs.declared.size.Size.TheVariants.{B4};
ghost use Rattle.rv_model.specs.Memory.{is_aligned};
ghost use Rattle.debug_model.specs.Kept.{CanCall, Keeps};
ghost use Rattle.debug_model.specs.Rises.{Within};
ghost use Rattle.probe_run.specs.Told.{Fails, OnChip, Serving, told};
ghost use Rattle.probe_access.specs.Accesses.{AccessLeft, IfMemory, StoreRefused, StoredAt};
ghost use Rattle.probe_access.specs.Cuts.{AccessLeftOff, IfCut, Leaves, Scratched, StoreLeaves};
ghost use Rattle.probe_access.specs.Faults.{access_why};
ghost use Rattle.probe_access.specs.MemoryRuns.{Around, AroundFailed, StoreFailedInside, StoredInside};
ghost use Rattle.soft_laws.specs.SoftBreaks.{ebreak_word, is_listed};
ghost use Rattle.soft_break.specs.Leading.{CoverLeads, LiftLeads};
ghost use Rattle.soft_break.specs.Patches.{original_of};

use crate::table::{EBREAK, SoftTable};
use debug_model::Dmi;
use probe_access::{AccessFault, store};
use probe_run::Halted;
use rv_model::Size;

/// A breakpoint whose word was put back. It has to be spent: covered again, or abandoned with a fault that loses the session.
pub struct Uncovered {
    pub(crate) at: u64,
    ghost within: { is_aligned at B4 ≡ true },
}

impl SoftTable {
    /// Stores the word that the breakpoint at an address has taken the place of, by the halted hart, which is selected: one access. A breakpoint is set there.
    #[tactic(auto, using(crate::proofs::LeadLemmas::lift_leads))]
    pub fn uncover<D: Dmi>(
        &self,
        link: &mut D,
        h: &Halted,
        at: u64,
    ) -> Result<Uncovered, AccessFault>
        requires callable { CanCall (D.seen link.old) }
        requires serving { Serving h.now.number (D.seen link.old).far }
        requires planted { is_listed self.now.addresses at ≡ true }
        ensures uncovered { IfOk result (λ uncovered. uncovered.at ≡ at) }
        ensures stored { OnOk result (OnChip (StoredAt B4 at (original_of at self.now)) (D.seen link.old) (D.seen link.new)) }
        ensures leads { OnOk result (LiftLeads at (original_of at self.now) (D.seen link.old).far (D.seen link.new).far) }
        ensures around { OnOk result (Around (StoredInside B4 at (original_of at self.now)) (told (D.seen link.old)) (told (D.seen link.new))) }
        ensures left { IfErr result (AccessLeft (StoreRefused B4 at) at (D.seen link.old).far (D.seen link.new).far) }
        ensures failed { IfErr result (Fails (AroundFailed (StoredInside B4 at (original_of at self.now)) (StoreFailedInside B4 at (original_of at self.now)))
            (D.seen link.old) (D.seen link.new)) }
        ensures cut { IfErr result (IfCut (Leaves (AccessLeftOff Scratched (StoreLeaves B4 at (original_of at self.now)) h.now.number)
            (D.seen link.old).far (D.seen link.new).far)) }
        ensures serving { OnOk result (Serving h.now.number (D.seen link.new).far) }
        ensures serving_still { IfErr result (IfMemory (Serving h.now.number (D.seen link.new).far)) }
        ensures rises { Within 66 (D.seen link.old) (D.seen link.new) }
        ensures keeps { Keeps access_why (D.seen link.old) (D.seen link.new) result }
    {
        store(link, h, Size::B4, at, u64::from(self.original(at)))?;
        Ok(Uncovered { at })
    }
}

impl Uncovered {
    /// Stores an ebreak there again, by the halted hart, which is selected: one access.
    #[tactic(auto, using(crate::proofs::LeadLemmas::cover_leads))]
    pub fn cover<D: Dmi>(self, link: &mut D, h: &Halted) -> Result<(), AccessFault>
        requires callable { CanCall (D.seen link.old) }
        requires serving { Serving h.now.number (D.seen link.old).far }
        ensures stored { OnOk result (OnChip (StoredAt B4 self.at ebreak_word) (D.seen link.old) (D.seen link.new)) }
        ensures leads { OnOk result (CoverLeads self.at (D.seen link.old).far (D.seen link.new).far) }
        ensures around { OnOk result (Around (StoredInside B4 self.at ebreak_word) (told (D.seen link.old)) (told (D.seen link.new))) }
        ensures left { IfErr result (AccessLeft (StoreRefused B4 self.at) self.at (D.seen link.old).far (D.seen link.new).far) }
        ensures failed { IfErr result (Fails (AroundFailed (StoredInside B4 self.at ebreak_word) (StoreFailedInside B4 self.at ebreak_word))
            (D.seen link.old) (D.seen link.new)) }
        ensures cut { IfErr result (IfCut (Leaves (AccessLeftOff Scratched (StoreLeaves B4 self.at ebreak_word) h.now.number)
            (D.seen link.old).far (D.seen link.new).far)) }
        ensures serving { OnOk result (Serving h.now.number (D.seen link.new).far) }
        ensures serving_still { IfErr result (IfMemory (Serving h.now.number (D.seen link.new).far)) }
        ensures rises { Within 66 (D.seen link.old) (D.seen link.new) }
        ensures keeps { Keeps access_why (D.seen link.old) (D.seen link.new) result }
    {
        let Uncovered { at } = self;
        store(link, h, Size::B4, at, u64::from(EBREAK))?;
        Ok(())
    }

    /// Gives the breakpoint up, with the fault that lost the session.
    pub fn abandon<E>(self, fault: E) -> E
        ensures { result ≡ fault }
    {
        let Uncovered { at: _ } = self;
        fault
    }
}
