ghost use Rattle.std.specs.Prelude.{◌<◌, ◌^◌, [], IfOk, IfErr, OnOk};
ghost use Rattle.debug_model.specs.Told.{Selects};
ghost use Rattle.probe_session.specs.Goes.{Falls};
ghost use Rattle.probe_session.specs.Known.{Knows};
ghost use Rattle.probe_session.specs.Links.{Attached, Goes};
ghost use Rattle.probe_session.specs.Met.{MetAs, AttachedMet, SaysError, SaysNoStep, before_look};
ghost use Rattle.probe_run.specs.Told.{told, Fails};
ghost use Rattle.debug_model.specs.Rises.{Within};
ghost use Rattle.probe_session.specs.Never.{NeverGivesUp};

use crate::fault::Failure;
use crate::known::Known;
use crate::looks::look;
use debug_model::Dmi;
use printed_lines::Line;
use probe_run::{Halted, Seen, Target};

/// What the Look of a command for a halted hart comes to.
#[derive(Drop)]
pub enum Met {
    /// The hart is halted.
    At(Halted),
    /// It is not there, or runs: this line says so.
    Says(Line),
}

/// The Look of a command for a halted hart, of which this is known.
pub fn meet<D: Dmi>(link: &mut D, target: &Target, hart: u16, known: Known) -> Result<Met, Failure>
    requires hart { hart < 2 ^ 10 }
    requires serving { Attached (D.seen link.old) }
    requires knows { Knows known hart (D.seen link.old).far }
    ensures met { IfOk result (MetAs hart (told (D.seen link.old)) (told (D.seen link.new))) }
    ensures falls { IfErr result (Fails (Falls (before_look hart) []) (D.seen link.old) (D.seen link.new)) }
    ensures selects { OnOk result (Selects hart (D.seen link.new).far) }
    ensures still { OnOk result (Knows known hart (D.seen link.new).far) }
    ensures says { IfOk result SaysNoStep }
    ensures error { IfOk result SaysError }
    ensures rises { Within 2 (D.seen link.old) (D.seen link.new) }
    ensures never { IfErr result (NeverGivesUp (D.seen link.old)) }
    ensures keeps { Goes AttachedMet (D.seen link.old) (D.seen link.new) result }
{
    match look(link, target, hart, known)? {
        Seen::Absent => Ok(Met::Says(Line::NoHart(hart))),
        Seen::Running(_) => Ok(Met::Says(Line::IsRunning(hart))),
        Seen::Halted(halted) => Ok(Met::At(halted)),
    }
}
