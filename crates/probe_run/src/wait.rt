ghost use Rattle.std.specs.Prelude.{◌≡◌, ◌≤◌, ◌∷◌, [], false, IfOk, IfErr, Some};
ghost use Rattle.probe_run.specs.Acts.{Did};
ghost use Rattle.probe_run.specs.Looks.{look_act, seen_in_status, test_of};
ghost use Rattle.probe_run.specs.Waits.{LookBroke};
ghost use Rattle.debug_model.specs.Kept.{CanCall, Keeps};
ghost use Rattle.debug_model.specs.Rises.{FailsByWire, Within};
ghost use Rattle.probe_run.specs.Told.{Breaks, told};

use debug_model::{Dmi, DmiFault, Dmstatus};

/// How many Looks a call makes at most.
pub const LOOKS_MOST: u32 = 64;

/// What a call waits for.
#[derive(Clone, Copy)]
pub enum Wanted {
    /// The hart is halted.
    Halted,
    /// It has acknowledged a request to resume.
    Acknowledged,
    /// It has acknowledged a request to resume, and is halted again.
    Both,
}

impl Wanted {
    /// Whether a Look shows it. Of a hart that is not there nothing is shown.
    pub fn is_shown(self, status: Dmstatus) -> bool
        ensures { result ≡ test_of self (seen_in_status status) }
    {
        if status.nonexistent {
            return false;
        }
        match self {
            Wanted::Halted => status.halted,
            Wanted::Acknowledged => status.resumeack,
            Wanted::Both => status.resumeack && status.halted,
        }
    }
}

/// How a wait ended.
#[derive(Clone, Copy)]
pub enum Waited {
    /// The last Look showed what was wanted.
    Shown,
    /// So many Looks as may be made did not; whether the last of them showed a resume acknowledged.
    Unshown {
        /// The last Look's resume ack.
        acknowledged: bool,
    },
}

/// One Look of the selected hart: one read of `dmstatus`.
pub fn look<D: Dmi>(link: &mut D) -> Result<u32, DmiFault>
    requires callable { CanCall (D.seen link.old) }
    ensures did { IfOk result (λ word. Did (told (D.seen link.old)) (look_act word ∷ []) (told (D.seen link.new))) }
    ensures broke { IfErr result (Breaks (LookBroke []) (D.seen link.old) (D.seen link.new)) }
    ensures rises { Within 1 (D.seen link.old) (D.seen link.new) }
    ensures never { IfErr result (FailsByWire (D.seen link.old)) }
    ensures keeps { Keeps Some (D.seen link.old) (D.seen link.new) result }
{
    let word = link.read(Dmstatus::ADDRESS)?;
    Ok(word)
}
