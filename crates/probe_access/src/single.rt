ghost use Rattle.std.specs.Prelude.{◌≡◌, ◌≤◌, true, false, IfOk, IfErr, OnOk};
ghost use Rattle.probe_access.specs.BlockCuts.{MaybeFlagged, StepCut};
ghost use Rattle.probe_access.specs.Cuts.{IfCut, LeftAside, Leaves};
ghost use Rattle.probe_access.specs.Scratches.{ScratchLeft};
ghost use Rattle.probe_access.specs.SingleSteps.{FlaggedAt, KeepsEbreakm, ReadsDcsr, StepLeft, SteppedAt};
ghost use Rattle.probe_access.specs.StepRuns.{ClearFailed, FlagCleared, FlagFailed, FlagWritten, StepFailed, StepFromFailed, SteppedFrom, SteppedOnce, with_flag};
ghost use Rattle.debug_model.specs.Rises.{Within};
ghost use Rattle.probe_access.specs.Never.{NeverLost};
ghost use Rattle.debug_model.specs.Kept.{CanCall, Keeps};
ghost use Rattle.probe_run.specs.Told.{Fails, OnChip, told};
ghost use Rattle.probe_access.specs.Faults.{access_why};
ghost use Rattle.probe_run.specs.Told.{Serving};

use crate::dcsr::read_dcsr;
use crate::fault::AccessFault;
use crate::registers::set_reg;
use debug_model::Dmi;
use probe_run::Halted;
use rv_model::{Dcsr, register_number};

/// A word of `dcsr` with its step flag so, and with it `stepie`: a step takes an interrupt where a turn without a debugger does.
fn flagged(word: u64, on: bool) -> u64
    ensures { result ≡ with_flag on word }
{
    let dcsr = Dcsr {
        step: on,
        stepie: on,
        ..Dcsr::from_word(word)
    };
    dcsr.word()
}

/// Writes `dcsr` of the halted hart, which is selected, with the step flag and `stepie` so, by a word of it that was read earlier: what a write reaches
/// beside them is as it was then.
fn set_flag<D: Dmi>(link: &mut D, halted: &Halted, word: u64, on: bool) -> Result<(), AccessFault>
    requires callable { CanCall (D.seen link.old) }
    requires serving { Serving halted.now.number (D.seen link.old).far }
    requires ebreakm { KeepsEbreakm halted.now.number word (D.seen link.old).far }
    ensures flagged_at { OnOk result (OnChip (FlaggedAt on halted.now.number) (D.seen link.old) (D.seen link.new)) }
    ensures written { OnOk result (FlagWritten on word (told (D.seen link.old)) (told (D.seen link.new))) }
    ensures left { IfErr result (ScratchLeft (D.seen link.old).far) }
    ensures failed { IfErr result (Fails (FlagFailed on word) (D.seen link.old) (D.seen link.new)) }
    ensures cut { IfErr result (IfCut (Leaves (LeftAside (MaybeFlagged on) halted.now.number) (D.seen link.old).far (D.seen link.new).far)) }
    ensures serving { OnOk result (Serving halted.now.number (D.seen link.new).far) }
    ensures rises { Within 8 (D.seen link.old) (D.seen link.new) }
    ensures never { IfErr result (NeverLost (D.seen link.old)) }
    ensures keeps { Keeps access_why (D.seen link.old) (D.seen link.new) result }
{
    let value = flagged(word, on);
    set_reg(link, halted, register_number::DCSR, value)?;
    Ok(())
}

/// Clears the step flag and `stepie` in `dcsr` of the halted hart, which is selected. `dcsr` is read for it, since a step may have changed what a write
/// reaches there: a hart with several privilege modes goes on in the one that `prv` names (RISC-V Debug Specification 1.0, "Debug Control and Status").
#[tactic(auto, using(debug_model::proofs::RiseLemmas::within_then, debug_model::proofs::RiseLemmas::within_more))]
fn clear_flag<D: Dmi>(link: &mut D, halted: &Halted) -> Result<(), AccessFault>
    requires callable { CanCall (D.seen link.old) }
    requires serving { Serving halted.now.number (D.seen link.old).far }
    ensures flagged_at { OnOk result (OnChip (FlaggedAt false halted.now.number) (D.seen link.old) (D.seen link.new)) }
    ensures cleared { OnOk result (FlagCleared (told (D.seen link.old)) (told (D.seen link.new))) }
    ensures left { IfErr result (ScratchLeft (D.seen link.old).far) }
    ensures failed { IfErr result (Fails ClearFailed (D.seen link.old) (D.seen link.new)) }
    ensures cut { IfErr result (IfCut (Leaves (LeftAside (MaybeFlagged false) halted.now.number) (D.seen link.old).far (D.seen link.new).far)) }
    ensures serving { OnOk result (Serving halted.now.number (D.seen link.new).far) }
    ensures rises { Within 23 (D.seen link.old) (D.seen link.new) }
    ensures never { IfErr result (NeverLost (D.seen link.old)) }
    ensures keeps { Keeps access_why (D.seen link.old) (D.seen link.new) result }
{
    let word = read_dcsr(link, halted)?;
    set_flag(link, halted, word, false)?;
    Ok(())
}

/// Makes the halted hart, which is selected, do one instruction, as `step` does, where `word` is what its `dcsr` was just read as: it is not read again
/// in front of the step.
#[tactic(auto, using(debug_model::proofs::RiseLemmas::within_then, debug_model::proofs::RiseLemmas::within_more))]
pub fn step_from<D: Dmi>(link: &mut D, halted: Halted, word: u64) -> Result<Halted, AccessFault>
    requires callable { CanCall (D.seen link.old) }
    requires serving { Serving halted.number (D.seen link.old).far }
    requires reads { ReadsDcsr halted.number word (D.seen link.old).far }
    ensures stepped_at { OnOk result (OnChip (SteppedAt halted.number) (D.seen link.old) (D.seen link.new)) }
    ensures stepped { OnOk result (SteppedFrom halted.number word (told (D.seen link.old)) (told (D.seen link.new))) }
    ensures hart { IfOk result (λ again. again.number ≡ halted.number) }
    ensures version { IfOk result (λ again. again.version ≡ halted.version) }
    ensures left { IfErr result (StepLeft halted.number (D.seen link.old).far (D.seen link.new).far) }
    ensures failed { IfErr result (Fails (StepFromFailed halted.number word) (D.seen link.old) (D.seen link.new)) }
    ensures cut { IfErr result (IfCut (Leaves (StepCut halted.number) (D.seen link.old).far (D.seen link.new).far)) }
    ensures serving { OnOk result (Serving halted.number (D.seen link.new).far) }
    ensures rises { Within 34 (D.seen link.old) (D.seen link.new) }
    ensures never { IfErr result (NeverLost (D.seen link.old)) }
    ensures keeps { Keeps access_why (D.seen link.old) (D.seen link.new) result }
{
    set_flag(link, &halted, word, true)?;
    let again = halted.run_one(link)?;
    clear_flag(link, &again)?;
    Ok(again)
}

/// Makes the halted hart, which is selected, do one instruction: sets the step flag and `stepie` in its `dcsr`, lets it go until a Look sees it halted
/// again, and clears both. `Run` where 64 Looks did not: the flag is still set then (RISC-V Debug Specification 1.0, "Single Step").
#[tactic(auto, using(debug_model::proofs::RiseLemmas::within_then, debug_model::proofs::RiseLemmas::within_more))]
pub fn step<D: Dmi>(link: &mut D, halted: Halted) -> Result<Halted, AccessFault>
    requires callable { CanCall (D.seen link.old) }
    requires serving { Serving halted.number (D.seen link.old).far }
    ensures stepped_at { OnOk result (OnChip (SteppedAt halted.number) (D.seen link.old) (D.seen link.new)) }
    ensures stepped { OnOk result (SteppedOnce halted.number (told (D.seen link.old)) (told (D.seen link.new))) }
    ensures hart { IfOk result (λ again. again.number ≡ halted.number) }
    ensures version { IfOk result (λ again. again.version ≡ halted.version) }
    ensures left { IfErr result (StepLeft halted.number (D.seen link.old).far (D.seen link.new).far) }
    ensures failed { IfErr result (Fails (StepFailed halted.number) (D.seen link.old) (D.seen link.new)) }
    ensures cut { IfErr result (IfCut (Leaves (StepCut halted.number) (D.seen link.old).far (D.seen link.new).far)) }
    ensures serving { OnOk result (Serving halted.number (D.seen link.new).far) }
    ensures rises { Within 49 (D.seen link.old) (D.seen link.new) }
    ensures never { IfErr result (NeverLost (D.seen link.old)) }
    ensures keeps { Keeps access_why (D.seen link.old) (D.seen link.new) result }
{
    let word = read_dcsr(link, &halted)?;
    let again = step_from(link, halted, word)?;
    Ok(again)
}
