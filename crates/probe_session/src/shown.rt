//! What a command shows, and its lines.

ghost use Rattle.std.specs.Prelude.{◌≡◌, ◌≤◌, false, IfOk, IfErr, OnOk};
ghost use Rattle.abstract_debugger.specs.Laws.{Quiet};
ghost use Rattle.probe_session.specs.Goes.{Fell, Spoke};
ghost use Rattle.probe_session.specs.Links.{Attached, Goes, SelectionStays};
ghost use Rattle.probe_session.specs.Places.{idle};
ghost use Rattle.probe_session.specs.Shown.{AttachedShown, IfLine, IsOfBlock, at_lines_of};
ghost use Rattle.probe_run.specs.Told.{told, OnChip};
ghost use Rattle.debug_model.specs.Rises.{Within};
ghost use Rattle.probe_session.specs.Never.{NeverGivesUp};
ghost use Rattle.probe_session.specs.Budget.{rises_of_shown};

use crate::all_registers::put_registers;
use crate::dumping::put_rows;
use crate::fault::Failure;
use crate::put::put_line;
use crate::reach::Reach;
use crate::reading::put_elements;
use crate::slots_shown::put_slots;
use debug_model::Dmi;
use jt_base::Sink;
use printed_lines::Line;
use probe_run::Halted;
use rv_model::Size;

/// What a command shows, behind what it has done.
#[derive(Drop)]
pub(crate) enum Shown {
    /// This line.
    Line(Line),
    /// pc and x1 to x31 of this hart, a line each.
    Registers(Halted),
    /// The slots of this hart, a line each.
    Slots(Halted),
    /// So many elements of memory of a size, from an address upwards, a line each.
    Elements(Reach, Size, u64, u16),
    /// So many bytes of memory from an address upwards, sixteen to a line.
    Bytes(Reach, u64, u16),
}

/// Puts the lines of what is shown, those of a block of memory behind its last access, and answers whether one of them is an error line.
/// Where memory refuses an access the line that says so is the last.
pub(crate) fn show<D: Dmi, K: Sink>(
    link: &mut D,
    shown: Shown,
    out: &mut K,
) -> Result<bool, Failure>
    requires block { IsOfBlock shown }
    requires serving { AttachedShown shown (D.seen link.old) }
    ensures spoke { IfOk result (λ wrong. Spoke (at_lines_of shown) idle wrong (told (D.seen link.old)) (told (D.seen link.new))
        (K.contents out.old) (K.contents out.new)) }
    ensures fell { IfErr result (Fell Quiet (at_lines_of shown) (D.seen link.old).fault_count (D.seen link.new).fault_count
        (told (D.seen link.old)) (told (D.seen link.new)) (K.fault_count out.old)
        (K.fault_count out.new) (K.contents out.old) (K.contents out.new)) }
    ensures selection { OnOk result (OnChip SelectionStays (D.seen link.old) (D.seen link.new)) }
    ensures line { OnOk result (IfLine shown ((D.seen link.new).far ≡ (D.seen link.old).far)) }
    ensures rises { Within (rises_of_shown shown) (D.seen link.old) (D.seen link.new) }
    ensures never { IfErr result (NeverGivesUp (D.seen link.old)) }
    ensures keeps { Goes (λ _. Attached) (D.seen link.old) (D.seen link.new) result }
    ensures sink_later { K.fault_count out.old ≤ K.fault_count out.new }
{
    match shown {
        Shown::Line(line) => {
            put_line(out, &line)?;
            Ok(line.is_error())
        }
        Shown::Registers(halted) => {
            put_registers(link, &halted, out)?;
            Ok(false)
        }
        Shown::Slots(halted) => {
            put_slots(link, &halted, out)?;
            Ok(false)
        }
        Shown::Elements(reach, size, address, count) => {
            put_elements(link, &reach, size, address, count, out)
        }
        Shown::Bytes(reach, address, count) => put_rows(link, &reach, address, count, out),
    }
}
