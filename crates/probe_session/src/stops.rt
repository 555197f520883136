ghost use Rattle.std.specs.Prelude.{IfOk, IfErr};
ghost use Rattle.probe_session.specs.Calls.{FoundStop, StopFell};
ghost use Rattle.probe_session.specs.Links.{AttachedHalted, Goes};
ghost use Rattle.probe_run.specs.Told.{told, Fails};
ghost use Rattle.debug_model.specs.Rises.{Within};
ghost use Rattle.probe_session.specs.Never.{NeverGivesUp};

use crate::fault::Failure;
use debug_model::Dmi;
use probe_access::Stop;
use probe_run::Halted;

/// Where the halted hart stands, and why.
pub(crate) fn stop<D: Dmi>(link: &mut D, halted: &Halted) -> Result<Stop, Failure>
    requires serving { AttachedHalted halted.now.number (D.seen link.old) }
    ensures found { IfOk result (λ stop. FoundStop halted.now.number stop.pc stop.cause (told (D.seen link.old))
        (told (D.seen link.new))) }
    ensures fell { IfErr result (Fails (StopFell halted.now.number) (D.seen link.old) (D.seen link.new)) }
    ensures rises { Within 26 (D.seen link.old) (D.seen link.new) }
    ensures never { IfErr result (NeverGivesUp (D.seen link.old)) }
    ensures keeps { Goes (λ _. AttachedHalted halted.now.number) (D.seen link.old) (D.seen link.new) result }
{
    let at = probe_access::stop(link, halted)?;
    Ok(at)
}
