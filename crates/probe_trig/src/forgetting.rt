ghost use Rattle.std.specs.Prelude.{IfErr, OnOk};
ghost use Rattle.debug_model.specs.Rises.{Within};
ghost use Rattle.probe_trig.specs.Never.{SlotNeverLost};
ghost use Rattle.debug_model.specs.Kept.{CanCall, Keeps};
ghost use Rattle.probe_run.specs.Told.{told, OnChip, Serving, Fails};
ghost use Rattle.probe_access.specs.Cuts.{IfCut, LeftAside, Leaves};
ghost use Rattle.probe_access.specs.Scratches.{ScratchLeft};
ghost use Rattle.probe_trig.specs.Faults.{ByFault, IfAccess, trig_why};
ghost use Rattle.probe_trig.specs.Runs.{ChangesAny};
ghost use Rattle.probe_trig.specs.Slots.{AtHarts, DebugAlone, ForgotAt};
ghost use Rattle.probe_trig.specs.Transfers.{Did, FailedIn};
ghost use Rattle.probe_trig.specs.declared.change.Change.TheVariants.{Forget};

use crate::change::Change;
use crate::fault::TrigFault;
use crate::rewriting::change_hits;
use debug_model::Dmi;
use probe_run::Halted;

/// Clears the hit of each slot of the halted hart, which is selected, as is due where its pc is written.
pub fn forget_hits<D: Dmi>(link: &mut D, halted: &Halted) -> Result<(), TrigFault>
    requires callable { CanCall (D.seen link.old) }
    requires serving { Serving halted.now.number (D.seen link.old).far }
    ensures forgot { OnOk result (OnChip (AtHarts (ForgotAt halted.now.number)) (D.seen link.old) (D.seen link.new)) }
    ensures did { OnOk result (Did (ChangesAny Forget) halted.now.number (told (D.seen link.old)) (told (D.seen link.new))) }
    ensures left { IfErr result (ByFault (ScratchLeft (D.seen link.old).far) ⊥ ⊥) }
    ensures failed { IfErr result (ByFault (Fails (FailedIn (ChangesAny Forget) halted.now.number) (D.seen link.old) (D.seen link.new)) ⊥ ⊥) }
    ensures cut { IfErr result (IfAccess (IfCut (Leaves (LeftAside DebugAlone halted.now.number) (D.seen link.old).far (D.seen link.new).far))) }
    ensures serving { OnOk result (Serving halted.now.number (D.seen link.new).far) }
    ensures rises { Within 152 (D.seen link.old) (D.seen link.new) }
    ensures never { IfErr result (SlotNeverLost (D.seen link.old)) }
    ensures keeps { Keeps trig_why (D.seen link.old) (D.seen link.new) result }
{
    let _some = change_hits(link, halted, Change::Forget)?;
    Ok(())
}
