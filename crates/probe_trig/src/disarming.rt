ghost use Rattle.std.specs.Prelude.{◌<◌, true, false, IfOk, IfErr, OnOk};
ghost use Rattle.debug_model.specs.Rises.{Within};
ghost use Rattle.probe_trig.specs.Never.{SlotNeverLost};
ghost use Rattle.probe_access.specs.Never.{NeverLost};
ghost use Rattle.debug_model.specs.Kept.{CanCall, Keeps};
ghost use Rattle.probe_run.specs.Told.{told, OnChip, Fails, Serving};
ghost use Rattle.probe_access.specs.Faults.{access_why};
ghost use Rattle.probe_access.specs.Cuts.{IfCut, LeftAside, Leaves};
ghost use Rattle.probe_access.specs.Scratches.{ScratchLeft};
ghost use Rattle.probe_trig.specs.Faults.{ByFault, IfAccess, UnlessAccess, trig_why};
ghost use Rattle.probe_trig.specs.Runs.{Frees, FreesAny};
ghost use Rattle.probe_trig.specs.Slots.{AtHarts, DebugAlone, FreedAt, UnusedAt};
ghost use Rattle.probe_trig.specs.Transfers.{Did, FailedIn};

use crate::fault::TrigFault;
use crate::register::{TriggerRegister, read_word, reg, set_reg};
use crate::words::shows_free;
use debug_model::Dmi;
use probe_access::AccessFault;
use probe_run::Halted;
use rv_model::DISABLED_WORD;

/// Frees a slot where it is in use, and answers whether it was free.
fn free<D: Dmi>(link: &mut D, halted: &Halted, slot: u8) -> Result<bool, AccessFault>
    requires callable { CanCall (D.seen link.old) }
    requires serving { Serving halted.now.number (D.seen link.old).far }
    ensures did { IfOk result (λ was_free. Did (Frees slot was_free) halted.now.number (told (D.seen link.old)) (told (D.seen link.new))) }
    ensures failed { IfErr result (Fails (FailedIn (FreesAny slot) halted.now.number) (D.seen link.old) (D.seen link.new)) }
    ensures serving { OnOk result (Serving halted.now.number (D.seen link.new).far) }
    ensures rises { Within 56 (D.seen link.old) (D.seen link.new) }
    ensures never { IfErr result (NeverLost (D.seen link.old)) }
    ensures keeps { Keeps access_why (D.seen link.old) (D.seen link.new) result }
{
    let kept = reg(link, halted, TriggerRegister::Tselect)?;
    let tdata1 = read_word(link, halted, slot)?;
    if shows_free(tdata1) {
        set_reg(link, halted, TriggerRegister::Tselect, kept)?;
        return Ok(true);
    }
    set_reg(link, halted, TriggerRegister::Tdata1, DISABLED_WORD)?;
    set_reg(link, halted, TriggerRegister::Tselect, kept)?;
    Ok(false)
}

/// Frees a slot, below 4, of the halted hart, which is selected; its hit goes with it. `NotInUse` where it is free.
pub fn disarm<D: Dmi>(link: &mut D, halted: &Halted, slot: u8) -> Result<(), TrigFault>
    requires slot { slot < 4 }
    requires callable { CanCall (D.seen link.old) }
    requires serving { Serving halted.now.number (D.seen link.old).far }
    ensures freed { OnOk result (OnChip (AtHarts (FreedAt slot halted.now.number)) (D.seen link.old) (D.seen link.new)) }
    ensures did { OnOk result (Did (Frees slot false) halted.now.number (told (D.seen link.old)) (told (D.seen link.new))) }
    ensures left { IfErr result (ByFault (ScratchLeft (D.seen link.old).far)
        ⊥
        (OnChip (AtHarts (UnusedAt slot halted.now.number)) (D.seen link.old) (D.seen link.new))) }
    ensures failed { IfErr result (ByFault (Fails (FailedIn (FreesAny slot) halted.now.number) (D.seen link.old) (D.seen link.new))
        ⊥
        (Did (Frees slot true) halted.now.number (told (D.seen link.old)) (told (D.seen link.new)))) }
    ensures cut { IfErr result (IfAccess (IfCut (Leaves (LeftAside DebugAlone halted.now.number) (D.seen link.old).far (D.seen link.new).far))) }
    ensures serving_still { IfErr result (UnlessAccess (Serving halted.now.number (D.seen link.new).far)) }
    ensures serving { OnOk result (Serving halted.now.number (D.seen link.new).far) }
    ensures rises { Within 56 (D.seen link.old) (D.seen link.new) }
    ensures never { IfErr result (SlotNeverLost (D.seen link.old)) }
    ensures keeps { Keeps trig_why (D.seen link.old) (D.seen link.new) result }
{
    if free(link, halted, slot)? {
        return Err(TrigFault::NotInUse);
    }
    Ok(())
}
