//! `idcode`: which chip it is.

ghost use Rattle.std.specs.Prelude.{[], IfOk, IfErr, OnOk};
ghost use Rattle.abstract_debugger.specs.Lines.Line.{Idcode};
ghost use Rattle.probe_session.specs.Commands.{at_idcode, ends_with};
ghost use Rattle.probe_session.specs.Goes.{Falls, Went};
ghost use Rattle.probe_session.specs.Links.{Attached, Goes, SelectionStays};
ghost use Rattle.probe_session.specs.Said.{said_by};
ghost use Rattle.probe_run.specs.Told.{told, Fails, OnChip};
ghost use Rattle.debug_model.specs.Rises.{Within};
ghost use Rattle.probe_session.specs.Never.{NeverGivesUp};

use crate::fault::Failure;
use debug_model::Dmi;
use printed_lines::Line;

/// Resets the TAP and reads the IDCODE.
pub(crate) fn idcode_line<D: Dmi>(link: &mut D) -> Result<Line, Failure>
    requires serving { Attached (D.seen link.old) }
    ensures went { IfOk result (λ line. Went at_idcode (ends_with (said_by line)) [] (told (D.seen link.old))
        (told (D.seen link.new))) }
    ensures falls { IfErr result (Fails (Falls at_idcode []) (D.seen link.old) (D.seen link.new)) }
    ensures selection { OnOk result (OnChip SelectionStays (D.seen link.old) (D.seen link.new)) }
    ensures rises { Within 1 (D.seen link.old) (D.seen link.new) }
    ensures never { IfErr result (NeverGivesUp (D.seen link.old)) }
    ensures keeps { Goes (λ _. Attached) (D.seen link.old) (D.seen link.new) result }
{
    let number = link.idcode()?;
    Ok(Line::Idcode(number))
}
