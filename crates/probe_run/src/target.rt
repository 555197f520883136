ghost use Rattle.std.specs.Prelude.{◌≡◌, ◌≤◌, ◌<◌, ◌^◌, IfOk, IfErr, OnOk};
ghost use Rattle.debug_model.specs.Told.{IsReady, Selects};
ghost use Rattle.probe_run.specs.Happens.{IsAsSeen, Leaves, LookLeft, LooksAt};
ghost use Rattle.probe_run.specs.Outcomes.{IsSeen, LookAgainFails, LookFails, LookedAgain, LookedAt, SeenAs};
ghost use Rattle.probe_run.specs.Looks.{seen_in};
ghost use Rattle.debug_model.specs.Kept.{CanCall, Keeps};
ghost use Rattle.debug_model.specs.Rises.{Within};
ghost use Rattle.probe_run.specs.Soon.{NeverInVain};
ghost use Rattle.probe_run.specs.Told.{Fails, OnChip, told};
ghost use Rattle.probe_run.specs.Outcomes.{run_why};

use crate::control::{Request, control_and_look};
use crate::fault::RunFault;
use crate::hart::{Halted, Running, Seen};
use crate::wait;
use debug_model::{Dmi, Dmstatus};
use rv_model::Version;

/// A chip whose debug module was opened by `connect`.
#[derive(Debug, Drop)]
pub struct Target {
    pub(crate) version: Version,
}

/// What a word of `dmstatus` shows of the hart that is selected, at a chip of this release.
fn seen_of(word: u32, hart: u16, version: Version) -> Seen
    requires { hart < 2 ^ 10 }
    ensures sight { IsSeen hart (seen_in word) result }
    ensures version { SeenAs version result }
{
    let status = Dmstatus::from_word(word);
    if status.nonexistent {
        Seen::Absent
    } else if status.halted {
        Seen::Halted(Halted {
            number: hart,
            version,
        })
    } else {
        Seen::Running(Running {
            number: hart,
            version,
        })
    }
}

impl Target {
    /// The release of the debug specification that the chip follows: the one that the opening read in `dmstatus`.
    pub fn version(&self) -> Version
        ensures { result ≡ self.now.version }
    {
        self.version
    }

    /// One Look of a hart with a number of at most 1023: it is selected by a write of `dmcontrol`, and `dmstatus` is read once, in one call.
    pub fn look<D: Dmi>(&self, link: &mut D, hart: u16) -> Result<Seen, RunFault>
        requires hart { hart < 2 ^ 10 }
        requires callable { CanCall (D.seen link.old) }
        requires ready { IsReady (D.seen link.old).far }
        ensures did { IfOk result (LookedAt hart (told (D.seen link.old)) (told (D.seen link.new))) }
        ensures fails { IfErr result (Fails (LookFails hart) (D.seen link.old) (D.seen link.new)) }
        ensures happened { IfOk result (λ seen. OnChip (Leaves (LooksAt hart seen) hart) (D.seen link.old) (D.seen link.new)) }
        ensures left { IfErr result (LookLeft hart (D.seen link.old).far (D.seen link.new).far) }
        ensures ready { OnOk result (IsReady (D.seen link.new).far) }
        ensures selects { OnOk result (Selects hart (D.seen link.new).far) }
        ensures seen { IfOk result (IsAsSeen (D.seen link.new).far) }
        ensures version { IfOk result (SeenAs self.now.version) }
        ensures rises { Within 2 (D.seen link.old) (D.seen link.new) }
        ensures never { IfErr result (NeverInVain (D.seen link.old)) }
        ensures keeps { Keeps run_why (D.seen link.old) (D.seen link.new) result }
    {
        let word = control_and_look(link, hart, Request::Nothing)?;
        Ok(seen_of(word, hart, self.version))
    }

    /// One more Look of the hart that is selected, whose number is at most 1023: `dmstatus` is read once, and nothing is written.
    pub fn look_again<D: Dmi>(&self, link: &mut D, hart: u16) -> Result<Seen, RunFault>
        requires hart { hart < 2 ^ 10 }
        requires callable { CanCall (D.seen link.old) }
        requires ready { IsReady (D.seen link.old).far }
        requires selects { Selects hart (D.seen link.old).far }
        ensures did { IfOk result (LookedAgain hart (told (D.seen link.old)) (told (D.seen link.new))) }
        ensures fails { IfErr result (Fails LookAgainFails (D.seen link.old) (D.seen link.new)) }
        ensures happened { IfOk result (λ seen. OnChip (Leaves (LooksAt hart seen) hart) (D.seen link.old) (D.seen link.new)) }
        ensures left { IfErr result (LookLeft hart (D.seen link.old).far (D.seen link.new).far) }
        ensures ready { OnOk result (IsReady (D.seen link.new).far) }
        ensures selects { OnOk result (Selects hart (D.seen link.new).far) }
        ensures seen { IfOk result (IsAsSeen (D.seen link.new).far) }
        ensures version { IfOk result (SeenAs self.now.version) }
        ensures rises { Within 1 (D.seen link.old) (D.seen link.new) }
        ensures never { IfErr result (NeverInVain (D.seen link.old)) }
        ensures keeps { Keeps run_why (D.seen link.old) (D.seen link.new) result }
    {
        let word = wait::look(link)?;
        Ok(seen_of(word, hart, self.version))
    }
}

/// What a chip of this release is once it was opened.
pub(crate) fn opened(version: Version) -> Target
    ensures { result.version ≡ version }
{
    Target { version }
}
