ghost use Rattle.std.specs.Prelude.{◌≡◌, ◌<◌, true, false, IfOk, IfErr, OnOk};
ghost use Rattle.probe_session.specs.Answers.{FreedAs, TakenAs};
ghost use Rattle.probe_session.specs.Calls.{SlotsFell, StepFell, StepFromFell, StepFromMade, StepMade, StepOverFell, StepOverMade, Viewed};
ghost use Rattle.probe_access.specs.SingleSteps.{ReadsDcsr};
ghost use Rattle.probe_session.specs.Links.{AttachedHalted, Goes};
ghost use Rattle.probe_trig.specs.Runs.{ArmsAny, FreesAny, ReadsAny};
ghost use Rattle.probe_trig.specs.SlotRegisters.{CanArm};
ghost use Rattle.probe_run.specs.Told.{told, Fails};
ghost use Rattle.debug_model.specs.Rises.{Within};
ghost use Rattle.probe_session.specs.Never.{NeverGivesUp};

use crate::fault::Failure;
use debug_model::{Dmi, SlotUse};
use probe_run::Halted;
use probe_trig::{SlotView, TrigFault};

/// The slots of the halted hart.
pub(crate) fn slots<D: Dmi>(link: &mut D, halted: &Halted) -> Result<SlotView, Failure>
    requires serving { AttachedHalted halted.now.number (D.seen link.old) }
    ensures viewed { IfOk result
        (λ view. Viewed halted.now.number view (told (D.seen link.old)) (told (D.seen link.new))) }
    ensures fell { IfErr result (Fails (SlotsFell ReadsAny halted.now.number) (D.seen link.old) (D.seen link.new)) }
    ensures rises { Within 184 (D.seen link.old) (D.seen link.new) }
    ensures never { IfErr result (NeverGivesUp (D.seen link.old)) }
    ensures keeps { Goes (λ _. AttachedHalted halted.now.number) (D.seen link.old) (D.seen link.new) result }
{
    let seen = probe_trig::slots(link, halted)?;
    Ok(seen)
}

/// Arms the lowest free slot of the halted hart, and answers its number; none where all are in use.
pub(crate) fn arm<D: Dmi>(
    link: &mut D,
    halted: &Halted,
    what: SlotUse,
) -> Result<Option<u8>, Failure>
    requires can { CanArm what }
    requires serving { AttachedHalted halted.now.number (D.seen link.old) }
    ensures taken { IfOk result
        (TakenAs halted.now.number what (told (D.seen link.old)) (told (D.seen link.new))) }
    ensures fell { IfErr result (Fails (SlotsFell (ArmsAny what) halted.now.number) (D.seen link.old) (D.seen link.new)) }
    ensures rises { Within 152 (D.seen link.old) (D.seen link.new) }
    ensures never { IfErr result (NeverGivesUp (D.seen link.old)) }
    ensures keeps { Goes (λ _. AttachedHalted halted.now.number) (D.seen link.old) (D.seen link.new) result }
{
    match probe_trig::arm(link, halted, what) {
        Ok(slot) => Ok(Some(slot)),
        Err(fault) => match fault {
            TrigFault::NoFreeSlot => Ok(None),
            other => Err(Failure::from(other)),
        },
    }
}

/// Frees a slot of the halted hart, and answers whether it was in use.
pub(crate) fn disarm<D: Dmi>(link: &mut D, halted: &Halted, slot: u8) -> Result<bool, Failure>
    requires slot { slot < 4 }
    requires serving { AttachedHalted halted.now.number (D.seen link.old) }
    ensures freed { IfOk result
        (FreedAs halted.now.number slot (told (D.seen link.old)) (told (D.seen link.new))) }
    ensures fell { IfErr result (Fails (SlotsFell (FreesAny slot) halted.now.number) (D.seen link.old) (D.seen link.new)) }
    ensures rises { Within 56 (D.seen link.old) (D.seen link.new) }
    ensures never { IfErr result (NeverGivesUp (D.seen link.old)) }
    ensures keeps { Goes (λ _. AttachedHalted halted.now.number) (D.seen link.old) (D.seen link.new) result }
{
    match probe_trig::disarm(link, halted, slot) {
        Ok(()) => Ok(true),
        Err(fault) => match fault {
            TrigFault::NotInUse => Ok(false),
            other => Err(Failure::from(other)),
        },
    }
}

/// Makes the halted hart do one instruction with its slots off that have a hit.
pub(crate) fn step_over<D: Dmi>(link: &mut D, halted: Halted) -> Result<Halted, Failure>
    requires serving { AttachedHalted halted.number (D.seen link.old) }
    ensures made { OnOk result (StepOverMade halted.number (told (D.seen link.old)) (told (D.seen link.new))) }
    ensures fell { IfErr result (Fails (StepOverFell halted.number) (D.seen link.old) (D.seen link.new)) }
    ensures hart { IfOk result (λ again. again.number ≡ halted.number) }
    ensures rises { Within 369 (D.seen link.old) (D.seen link.new) }
    ensures never { IfErr result (NeverGivesUp (D.seen link.old)) }
    ensures keeps { Goes (λ _. AttachedHalted halted.number) (D.seen link.old) (D.seen link.new) result }
{
    let again = probe_trig::step_over(link, halted)?;
    Ok(again)
}

/// Makes the halted hart do one instruction, and leaves its slots as they are.
pub(crate) fn step<D: Dmi>(link: &mut D, halted: Halted) -> Result<Halted, Failure>
    requires serving { AttachedHalted halted.number (D.seen link.old) }
    ensures made { OnOk result (StepMade halted.number (told (D.seen link.old)) (told (D.seen link.new))) }
    ensures fell { IfErr result (Fails (StepFell halted.number) (D.seen link.old) (D.seen link.new)) }
    ensures hart { IfOk result (λ again. again.number ≡ halted.number) }
    ensures rises { Within 49 (D.seen link.old) (D.seen link.new) }
    ensures never { IfErr result (NeverGivesUp (D.seen link.old)) }
    ensures keeps { Goes (λ _. AttachedHalted halted.number) (D.seen link.old) (D.seen link.new) result }
{
    let again = probe_access::step(link, halted)?;
    Ok(again)
}

/// The same where `word` is what the hart's `dcsr` was just read as.
pub(crate) fn step_from<D: Dmi>(link: &mut D, halted: Halted, word: u64) -> Result<Halted, Failure>
    requires serving { AttachedHalted halted.number (D.seen link.old) }
    requires reads { ReadsDcsr halted.number word (D.seen link.old).far }
    ensures made { OnOk result (StepFromMade halted.number word (told (D.seen link.old)) (told (D.seen link.new))) }
    ensures fell { IfErr result (Fails (StepFromFell halted.number word) (D.seen link.old) (D.seen link.new)) }
    ensures hart { IfOk result (λ again. again.number ≡ halted.number) }
    ensures rises { Within 34 (D.seen link.old) (D.seen link.new) }
    ensures never { IfErr result (NeverGivesUp (D.seen link.old)) }
    ensures keeps { Goes (λ _. AttachedHalted halted.number) (D.seen link.old) (D.seen link.new) result }
{
    let again = probe_access::step_from(link, halted, word)?;
    Ok(again)
}
