ghost use Rattle.std.specs.Prelude.{◌<◌, ◌^◌, IfOk, IfErr, OnOk};
ghost use Rattle.probe_run.specs.Happens.{IsAsSeen};
ghost use Rattle.probe_session.specs.Calls.{LookFell, LookMade};
ghost use Rattle.probe_session.specs.Known.{Knows};
ghost use Rattle.probe_session.specs.Links.{Attached, AttachedAt, Goes};
ghost use Rattle.probe_session.specs.Seen.{IsOf};
ghost use Rattle.probe_run.specs.Told.{told, Fails};
ghost use Rattle.debug_model.specs.Rises.{Within};
ghost use Rattle.probe_session.specs.Never.{NeverGivesUp};

use crate::fault::Failure;
use crate::known::Known;
use debug_model::Dmi;
use probe_run::{Seen, Target};

/// One Look of a hart, of which this is known: it is selected first where it is not known to be.
pub(crate) fn look<D: Dmi>(
    link: &mut D,
    target: &Target,
    hart: u16,
    known: Known,
) -> Result<Seen, Failure>
    requires hart { hart < 2 ^ 10 }
    requires serving { Attached (D.seen link.old) }
    requires knows { Knows known hart (D.seen link.old).far }
    ensures saw { IfOk result (LookMade hart (told (D.seen link.old)) (told (D.seen link.new))) }
    ensures fell { IfErr result (Fails (LookFell hart) (D.seen link.old) (D.seen link.new)) }
    ensures seen { IfOk result (IsAsSeen (D.seen link.new).far) }
    ensures of { IfOk result (IsOf hart) }
    ensures still { OnOk result (Knows known hart (D.seen link.new).far) }
    ensures rises { Within 2 (D.seen link.old) (D.seen link.new) }
    ensures never { IfErr result (NeverGivesUp (D.seen link.old)) }
    ensures keeps { Goes (λ _. AttachedAt hart) (D.seen link.old) (D.seen link.new) result }
{
    if known.is_selected() {
        Ok(target.look_again(link, hart)?)
    } else {
        Ok(target.look(link, hart)?)
    }
}
