//! A hart that runs is halted, one that is halted is let go, or made to do one instruction.

ghost use Rattle.std.specs.Prelude.{◌≡◌, ◌≤◌, true, false, IfOk, IfErr, OnOk, Some};
ghost use Rattle.debug_model.specs.Told.{IsHalted, IsReady, Selects};
ghost use Rattle.probe_run.specs.Happens.{Exists, HaltLeft, HaltsAt, Leaves, ResumeLeft, ResumesAt, StepLeft, StepsAt};
ghost use Rattle.probe_run.specs.Looks.{test_of};
ghost use Rattle.probe_run.specs.Outcomes.{AskedAs, HaltFails, HaltedBy, ResumeFails, ResumedBy, RunBroke, StepFails, SteppedBy};
ghost use Rattle.debug_model.specs.Kept.{CanCall, Keeps};
ghost use Rattle.debug_model.specs.Rises.{FailsByWire, Within};
ghost use Rattle.probe_run.specs.Soon.{NeverInVain, StepSet, WaitedInVain, WithinLooks};
ghost use Rattle.probe_run.specs.Told.{Breaks, Fails, OnChip, told};
ghost use Rattle.probe_run.specs.Outcomes.{run_why};

use crate::control::{Request, control, control_and_look};
use crate::fault::RunFault;
use crate::hart::{Halted, Running};
use crate::wait::{LOOKS_MOST, Waited, Wanted, look};
use debug_model::{Dmi, DmiFault, Dmstatus};

/// Asks this of a hart, and looks at it until one Look shows what is wanted, at most 64 times. The first Look goes with the request.
fn ask<D: Dmi>(
    link: &mut D,
    hart: u16,
    request: Request,
    wanted: Wanted,
) -> Result<Waited, DmiFault>
    requires callable { CanCall (D.seen link.old) }
    ensures asked { IfOk result (AskedAs request hart wanted (told (D.seen link.old)) (told (D.seen link.new))) }
    ensures broke { IfErr result (Breaks (RunBroke request (test_of wanted) hart) (D.seen link.old) (D.seen link.new)) }
    ensures rises { Within 65 (D.seen link.old) (D.seen link.new) }
    ensures never { IfErr result (FailsByWire (D.seen link.old)) }
    ensures soon { WithinLooks request (test_of wanted) hart (D.seen link.old) (D.seen link.new) }
    ensures vain { IfOk result (WaitedInVain request (test_of wanted) hart (D.seen link.old)) }
    ensures keeps { Keeps Some (D.seen link.old) (D.seen link.new) result }
{
    let mut word = control_and_look(link, hart, request)?;
    'looks: for _looks in 1..LOOKS_MOST {
        if wanted.is_shown(Dmstatus::from_word(word)) {
            return Ok(Waited::Shown);
        }
        word = look(link)?;
    }
    let last = Dmstatus::from_word(word);
    if wanted.is_shown(last) {
        return Ok(Waited::Shown);
    }
    Ok(Waited::Unshown {
        acknowledged: Wanted::Acknowledged.is_shown(last),
    })
}

impl Running {
    #[tactic(auto, using(debug_model::proofs::RiseLemmas::within_then, debug_model::proofs::RiseLemmas::within_more))]
    /// Halts the hart: one write of `dmcontrol` asks it, Looks follow until one sees it halted, at most 64, and one write clears the request.
    /// `NoHalt(64)` where no Look saw it halted: the request is still set then.
    pub fn halt<D: Dmi>(self, link: &mut D) -> Result<Halted, RunFault>
        requires callable { CanCall (D.seen link.old) }
        requires ready { IsReady (D.seen link.old).far }
        requires exists { Exists self.number (D.seen link.old).far }
        ensures did { OnOk result (HaltedBy self.number (told (D.seen link.old)) (told (D.seen link.new))) }
        ensures fails { IfErr result (Fails (HaltFails self.number) (D.seen link.old) (D.seen link.new)) }
        ensures happened { OnOk result (OnChip (Leaves (HaltsAt self.number) self.number) (D.seen link.old) (D.seen link.new)) }
        ensures left { IfErr result (HaltLeft self.number (D.seen link.old).far (D.seen link.new).far) }
        ensures hart { IfOk result (λ halted. halted.number ≡ self.number) }
        ensures version { IfOk result (λ halted. halted.version ≡ self.version) }
        ensures ready { OnOk result (IsReady (D.seen link.new).far) }
        ensures selects { OnOk result (Selects self.number (D.seen link.new).far) }
        ensures halted { OnOk result (IsHalted self.number (D.seen link.new).far) }
        ensures rises { Within 3 (D.seen link.old) (D.seen link.new) }
        ensures never { IfErr result (NeverInVain (D.seen link.old)) }
        ensures keeps { Keeps run_why (D.seen link.old) (D.seen link.new) result }
    {
        match ask(link, self.number, Request::Halt, Wanted::Halted)? {
            Waited::Shown => {
                control(link, self.number, Request::Nothing)?;
                Ok(Halted {
                    number: self.number,
                    version: self.version,
                })
            }
            Waited::Unshown { .. } => Err(RunFault::NoHalt(LOOKS_MOST)),
        }
    }
}

impl Halted {
    /// Lets the hart go: one write of `dmcontrol` asks it, and Looks follow until one sees that acknowledged, at most 64.
    /// `NoAck(64)` where none did: the request may still be set then.
    pub fn resume<D: Dmi>(self, link: &mut D) -> Result<Running, RunFault>
        requires callable { CanCall (D.seen link.old) }
        requires ready { IsReady (D.seen link.old).far }
        requires halted { IsHalted self.number (D.seen link.old).far }
        ensures did { OnOk result (ResumedBy self.number (told (D.seen link.old)) (told (D.seen link.new))) }
        ensures fails { IfErr result (Fails (ResumeFails self.number) (D.seen link.old) (D.seen link.new)) }
        ensures happened { OnOk result (OnChip (Leaves (ResumesAt self.number) self.number) (D.seen link.old) (D.seen link.new)) }
        ensures left { IfErr result (ResumeLeft self.number (D.seen link.old).far (D.seen link.new).far) }
        ensures hart { IfOk result (λ running. running.number ≡ self.number) }
        ensures version { IfOk result (λ running. running.version ≡ self.version) }
        ensures ready { OnOk result (IsReady (D.seen link.new).far) }
        ensures selects { OnOk result (Selects self.number (D.seen link.new).far) }
        ensures exists { OnOk result (Exists self.number (D.seen link.new).far) }
        ensures rises { Within 2 (D.seen link.old) (D.seen link.new) }
        ensures never { IfErr result (NeverInVain (D.seen link.old)) }
        ensures keeps { Keeps run_why (D.seen link.old) (D.seen link.new) result }
    {
        match ask(link, self.number, Request::Resume, Wanted::Acknowledged)? {
            Waited::Shown => Ok(Running {
                number: self.number,
                version: self.version,
            }),
            Waited::Unshown { .. } => Err(RunFault::NoAck(LOOKS_MOST)),
        }
    }

    /// Makes the hart, whose `dcsr.step` is set, do one instruction: one write of `dmcontrol` asks it, and Looks follow until one sees that
    /// acknowledged and the hart halted again, at most 64. Where none did, `NoAck(64)` if the last saw no ack, and else `NoHalt(64)`.
    pub fn run_one<D: Dmi>(self, link: &mut D) -> Result<Halted, RunFault>
        requires callable { CanCall (D.seen link.old) }
        requires ready { IsReady (D.seen link.old).far }
        requires halted { IsHalted self.number (D.seen link.old).far }
        ensures did { OnOk result (SteppedBy self.number (told (D.seen link.old)) (told (D.seen link.new))) }
        ensures fails { IfErr result (Fails (StepFails self.number) (D.seen link.old) (D.seen link.new)) }
        ensures happened { OnOk result (OnChip (Leaves (StepsAt self.number) self.number) (D.seen link.old) (D.seen link.new)) }
        ensures left { IfErr result (StepLeft self.number (D.seen link.old).far (D.seen link.new).far) }
        ensures hart { IfOk result (λ halted. halted.number ≡ self.number) }
        ensures version { IfOk result (λ halted. halted.version ≡ self.version) }
        ensures ready { OnOk result (IsReady (D.seen link.new).far) }
        ensures selects { OnOk result (Selects self.number (D.seen link.new).far) }
        ensures halted { OnOk result (IsHalted self.number (D.seen link.new).far) }
        ensures rises { Within 65 (D.seen link.old) (D.seen link.new) }
        ensures soon { StepSet self.number (D.seen link.old).far → Within 3 (D.seen link.old) (D.seen link.new) }
        ensures never { StepSet self.number (D.seen link.old).far → IfErr result (NeverInVain (D.seen link.old)) }
        ensures keeps { Keeps run_why (D.seen link.old) (D.seen link.new) result }
    {
        match ask(link, self.number, Request::Resume, Wanted::Both)? {
            Waited::Shown => Ok(self),
            Waited::Unshown { acknowledged: true } => Err(RunFault::NoHalt(LOOKS_MOST)),
            Waited::Unshown {
                acknowledged: false,
            } => Err(RunFault::NoAck(LOOKS_MOST)),
        }
    }
}
