//! `write`: a value stored several times, from an address upwards.

ghost use Rattle.std.specs.Prelude.{[], IfOk, IfErr, OnOk};
ghost use Rattle.debug_model.specs.Command.{IsBlock};
ghost use Rattle.rv_model.specs.Size.{count_of};
ghost use Rattle.probe_session.specs.Commands.{ends_with};
ghost use Rattle.probe_session.specs.Goes.{Falls, Went};
ghost use Rattle.probe_session.specs.Links.{Attached, Goes, SelectionStays};
ghost use Rattle.probe_session.specs.Reach.{AttachedBy, path_by, place_by, written};
ghost use Rattle.probe_session.specs.Said.{said_by};
ghost use Rattle.probe_run.specs.Told.{told, Fails, OnChip};
ghost use Rattle.debug_model.specs.Rises.{Within};
ghost use Rattle.probe_session.specs.Never.{NeverGivesUp};
ghost use Rattle.probe_access.specs.BlockRises.{store_rises};

use crate::fault::Failure;
use crate::reach::{Reach, store_by};
use debug_model::Dmi;
use printed_lines::Line;
use probe_access::is_aligned;
use rv_model::Size;

/// Stores a value so many times from an address upwards, and says how many, or where memory refused one.
pub(crate) fn written_line<D: Dmi>(
    link: &mut D,
    reach: &Reach,
    size: Size,
    address: u64,
    value: u64,
    count: u16,
) -> Result<Line, Failure>
    requires block { IsBlock (count_of size) address count }
    requires serving { AttachedBy reach.now (D.seen link.old) }
    ensures went { IfOk result (λ line. Went (λ next. place_by reach.now (written size address value count (path_by reach.now) next))
        (ends_with (said_by line)) [] (told (D.seen link.old)) (told (D.seen link.new))) }
    ensures falls { IfErr result (Fails (Falls (λ next. place_by reach.now (written size address value count (path_by reach.now) next)) [])
        (D.seen link.old) (D.seen link.new)) }
    ensures selection { OnOk result (OnChip SelectionStays (D.seen link.old) (D.seen link.new)) }
    ensures rises { Within (store_rises count) (D.seen link.old) (D.seen link.new) }
    ensures never { IfErr result (NeverGivesUp (D.seen link.old)) }
    ensures keeps { Goes (λ _. Attached) (D.seen link.old) (D.seen link.new) result }
{
    if !is_aligned(size, address) {
        return Ok(Line::MemoryFault(address));
    }
    match store_by(link, reach, size, address, count, value)? {
        None => Ok(Line::Wrote(count)),
        Some(at) => Ok(Line::MemoryFault(at)),
    }
}
