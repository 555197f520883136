ghost use Rattle.std.specs.Prelude.{◌≡◌, IfOk, IfErr, OnOk};
ghost use Rattle.debug_model.specs.Rises.{Within};
ghost use Rattle.probe_trig.specs.Never.{SlotNeverLost};
ghost use Rattle.probe_access.specs.Never.{NeverLost};
ghost use Rattle.debug_model.specs.Kept.{CanCall, Keeps};
ghost use Rattle.probe_run.specs.Told.{told, OnChip, Fails, Serving};
ghost use Rattle.probe_access.specs.Faults.{access_why};
ghost use Rattle.debug_model.specs.Told.{IsHalted, IsReady, Selects};
ghost use Rattle.probe_access.specs.Cuts.{IfCut};
ghost use Rattle.probe_access.specs.SingleSteps.{StepLeft};
ghost use Rattle.probe_run.specs.Happens.{Exists};
ghost use Rattle.probe_trig.specs.declared.change.Change.TheVariants.{Hold};
ghost use Rattle.probe_trig.specs.Faults.{ByFault, IfAccess, trig_why};
ghost use Rattle.probe_trig.specs.Going.{GoFailed, GoLeft, GoesAt, GoneAs, IfStopped, IsOfHart, WentBy};
ghost use Rattle.probe_trig.specs.Slots.{AtHarts};
ghost use Rattle.probe_trig.specs.StepCuts.{BackCut, GoCut, LeavesAt, OverCut};
ghost use Rattle.probe_trig.specs.Stepping.{BackAt, BackFailed, Ends, EndsAny, OverAt, OverFailed, OverLeft, SteppedBack, SteppedOverAny, ending, shows_step};
ghost use Rattle.probe_trig.specs.Transfers.{Did, FailedIn};

use crate::change::Change;
use crate::fault::TrigFault;
use crate::gone::Gone;
use crate::register::{TriggerRegister, reg};
use crate::rewriting::change_hits;
use debug_model::Dmi;
use probe_access::{AccessFault, step};
use probe_run::Halted;
use rv_model::{Cause, Dcsr};

/// A hart behind a single step.
#[derive(Drop)]
struct Stepped {
    halted: Halted,
    /// Whether the step was a whole one, so that an instruction was executed or trapped.
    executed: bool,
}

/// Whether a word of `dcsr` shows a hart that halted behind a whole step: then none of its slots has a hit
/// (RISC-V Debug Specification 1.0, "Debug Control and Status", cause).
pub fn shows_step(word: u64) -> bool
    ensures { result ≡ shows_step word }
{
    Dcsr::from_word(word).cause == Cause::Step.number()
}

/// What is made of the slots with a hit behind a single step.
fn ending(executed: bool) -> Change
    ensures { result ≡ ending executed }
{
    if executed {
        Change::PutBackAndForget
    } else {
        Change::PutBack
    }
}

/// Puts the slots with a hit on again, behind a single step, and forgets the hits where the step was a whole one, which it answers.
fn put_back<D: Dmi>(link: &mut D, halted: &Halted) -> Result<bool, AccessFault>
    requires callable { CanCall (D.seen link.old) }
    requires serving { Serving halted.now.number (D.seen link.old).far }
    ensures did { IfOk result (λ executed. Did (Ends executed) halted.now.number (told (D.seen link.old)) (told (D.seen link.new))) }
    ensures failed { IfErr result (Fails (FailedIn EndsAny halted.now.number) (D.seen link.old) (D.seen link.new)) }
    ensures serving { OnOk result (Serving halted.now.number (D.seen link.new).far) }
    ensures rises { Within 168 (D.seen link.old) (D.seen link.new) }
    ensures never { IfErr result (NeverLost (D.seen link.old)) }
    ensures keeps { Keeps access_why (D.seen link.old) (D.seen link.new) result }
{
    let word = reg(link, halted, TriggerRegister::Dcsr)?;
    let executed = shows_step(word);
    let _some = change_hits(link, halted, ending(executed))?;
    Ok(executed)
}

/// Makes a single step of the halted hart, whose slots with a hit are off, and puts them on again.
fn step_back<D: Dmi>(link: &mut D, halted: Halted) -> Result<Stepped, AccessFault>
    requires callable { CanCall (D.seen link.old) }
    requires serving { Serving halted.number (D.seen link.old).far }
    ensures back_at { IfOk result (λ stepped. OnChip (AtHarts (BackAt stepped.executed halted.number)) (D.seen link.old) (D.seen link.new)) }
    ensures stepped { IfOk result (λ stepped. SteppedBack stepped.executed halted.number (told (D.seen link.old)) (told (D.seen link.new))) }
    ensures hart { IfOk result (λ stepped. stepped.halted.number ≡ halted.number) }
    ensures version { IfOk result (λ stepped. stepped.halted.version ≡ halted.version) }
    ensures left { IfErr result (StepLeft halted.number (D.seen link.old).far (D.seen link.new).far) }
    ensures failed { IfErr result (Fails (BackFailed halted.number) (D.seen link.old) (D.seen link.new)) }
    ensures cut { IfErr result (IfCut (LeavesAt (BackCut halted.number) (D.seen link.old).far (D.seen link.new).far)) }
    ensures serving { OnOk result (Serving halted.number (D.seen link.new).far) }
    ensures rises { Within 217 (D.seen link.old) (D.seen link.new) }
    ensures never { IfErr result (NeverLost (D.seen link.old)) }
    ensures keeps { Keeps access_why (D.seen link.old) (D.seen link.new) result }
{
    let again = step(link, halted)?;
    let executed = put_back(link, &again)?;
    Ok(Stepped {
        halted: again,
        executed,
    })
}

/// Makes the halted hart, which is selected, do one instruction with its slots off that have a hit. Behind it they are on again, and where an
/// instruction was executed or trapped their hits are cleared (RISC-V Debug Specification 1.0, "Single Step").
pub fn step_over<D: Dmi>(link: &mut D, halted: Halted) -> Result<Halted, TrigFault>
    requires callable { CanCall (D.seen link.old) }
    requires serving { Serving halted.number (D.seen link.old).far }
    ensures over_at { OnOk result (OnChip (AtHarts (OverAt halted.number)) (D.seen link.old) (D.seen link.new)) }
    ensures did { OnOk result (SteppedOverAny halted.number (told (D.seen link.old)) (told (D.seen link.new))) }
    ensures hart { IfOk result (λ again. again.number ≡ halted.number) }
    ensures version { IfOk result (λ again. again.version ≡ halted.version) }
    ensures left { IfErr result (ByFault (OverLeft halted.number (D.seen link.old).far (D.seen link.new).far) ⊥ ⊥) }
    ensures failed { IfErr result (ByFault (Fails (OverFailed halted.number) (D.seen link.old) (D.seen link.new)) ⊥ ⊥) }
    ensures cut { IfErr result (IfAccess (IfCut (LeavesAt (OverCut halted.number) (D.seen link.old).far (D.seen link.new).far))) }
    ensures serving { OnOk result (Serving halted.number (D.seen link.new).far) }
    ensures rises { Within 369 (D.seen link.old) (D.seen link.new) }
    ensures never { IfErr result (SlotNeverLost (D.seen link.old)) }
    ensures keeps { Keeps trig_why (D.seen link.old) (D.seen link.new) result }
{
    let _some = change_hits(link, &halted, Change::Hold)?;
    let stepped = step_back(link, halted)?;
    Ok(stepped.halted)
}

/// Lets the halted hart go, which is selected. Where slots have a hit it is stepped over them first; if that ends for another cause than the
/// step, the hart is handed back halted.
pub fn let_go<D: Dmi>(link: &mut D, halted: Halted) -> Result<Gone, TrigFault>
    requires callable { CanCall (D.seen link.old) }
    requires serving { Serving halted.number (D.seen link.old).far }
    ensures goes_at { IfOk result (λ gone. OnChip (AtHarts (GoesAt halted.number gone)) (D.seen link.old) (D.seen link.new)) }
    ensures went { IfOk result (λ gone. WentBy halted.number gone (told (D.seen link.old)) (told (D.seen link.new))) }
    ensures hart { IfOk result (IsOfHart halted.number) }
    ensures version { IfOk result (GoneAs halted.version) }
    ensures left { IfErr result (ByFault (GoLeft halted.number (D.seen link.old).far (D.seen link.new).far) ⊥ ⊥) }
    ensures failed { IfErr result (ByFault (Fails (GoFailed halted.number) (D.seen link.old) (D.seen link.new)) ⊥ ⊥) }
    ensures cut { IfErr result (IfAccess (IfCut (LeavesAt (GoCut halted.number) (D.seen link.old).far (D.seen link.new).far))) }
    ensures exists { OnOk result (Exists halted.number (D.seen link.new).far) }
    ensures ready { OnOk result (IsReady (D.seen link.new).far) }
    ensures selects { OnOk result (Selects halted.number (D.seen link.new).far) }
    ensures halted { IfOk result (IfStopped (IsHalted halted.number (D.seen link.new).far)) }
    ensures rises { Within 371 (D.seen link.old) (D.seen link.new) }
    ensures never { IfErr result (SlotNeverLost (D.seen link.old)) }
    ensures keeps { Keeps trig_why (D.seen link.old) (D.seen link.new) result }
{
    let some = change_hits(link, &halted, Change::Hold)?;
    if !some {
        let running = halted.resume(link)?;
        return Ok(Gone::Free(running));
    }
    let stepped = step_back(link, halted)?;
    if !stepped.executed {
        return Ok(Gone::Stopped(stepped.halted));
    }
    let running = stepped.halted.resume(link)?;
    Ok(Gone::Free(running))
}
