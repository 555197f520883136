//! `read`: elements of memory from an address upwards, a line each.

ghost use Rattle.std.specs.Prelude.{◌≡◌, ◌≤◌, ◌+◌, ◌*◌, [], true, false, length, map, IfOk, IfErr, OnErr, OnOk};
ghost use Rattle.abstract_debugger.specs.Lines.{text_of_all};
ghost use Rattle.jt_base.specs.Faults.{Rises};
ghost use Rattle.jt_base.specs.Sink.{GrewByPrefix, grown};
ghost use Rattle.debug_model.specs.Command.{IsBlock, all_addresses};
ghost use Rattle.probe_access.specs.BusRuns.{cut_to};
ghost use Rattle.probe_session.specs.declared.fault.Failure.TheVariants as failure;
ghost use Rattle.debug_model.specs.declared.command.Command.TheVariants as command;
ghost use Rattle.rv_model.specs.Size.{count_of};
ghost use Rattle.probe_session.specs.Commands.{before, state_of};
ghost use Rattle.abstract_debugger.specs.Laws.{Quiet};
ghost use Rattle.probe_session.specs.Goes.{Falls, Fell, Spoke, Went};
ghost use Rattle.probe_session.specs.Known.{Knows, known_by};
ghost use Rattle.probe_session.specs.Links.{Attached, Goes, SelectionStays};
ghost use Rattle.probe_session.specs.Places.{idle};
ghost use Rattle.probe_session.specs.Reach.{AttachedBy};
ghost use Rattle.probe_session.specs.Showing.{at_read, element_lines};
ghost use Rattle.probe_session.specs.Shown.{AttachedShown, IsOfBlock, at_shown};
ghost use Rattle.probe_run.specs.Told.{told, Fails, OnChip};
ghost use Rattle.debug_model.specs.Rises.{Within};
ghost use Rattle.probe_session.specs.Never.{NeverGivesUp};
ghost use Rattle.probe_access.specs.BlockRises.{load_rises};
ghost use Rattle.probe_session.specs.Budget.{rises_of_shown};

use crate::fault::Failure;
use crate::memory::Elements;
use crate::put::put_line;
use crate::reach::{Reach, Reached, load_by};
use crate::session::Session;
use crate::shown::Shown;
use debug_model::Dmi;
use jt_base::Sink;
use printed_lines::Line;
use probe_access::{cut_to, is_aligned};
use rv_model::Size;

/// Puts the line of each element, upwards from an address; what a value holds above the size is left out.
pub fn put_values<K: Sink>(
    out: &mut K,
    size: Size,
    address: u64,
    values: &[u64],
) -> Result<(), Failure>
    requires ends { address + length values.now * count_of size ≤ all_addresses }
    ensures put { OnOk result (K.contents out.new ≡ grown (text_of_all (element_lines size address (map (cut_to size) values.now))) (K.contents out.old)) }
    ensures cut { OnErr result
        (GrewByPrefix (text_of_all (element_lines size address (map (cut_to size) values.now))) (K.contents out.old) (K.contents out.new)) }
    ensures sink { IfErr result (λ f. f ≡ failure.Sink) }
    ensures cause { OnErr result (Rises (K.fault_count out.old) (K.fault_count out.new)) }
    ensures later { K.fault_count out.old ≤ K.fault_count out.new }
{
    'showing: for number in 0..values.len() {
        let at = address + number as u64 * u64::from(size.count());
        put_line(out, &Line::Element(at, size, cut_to(size, values[number])))?;
    }
    Ok(())
}

/// Loads the elements, and puts the line of each that memory held. It answers whether memory refused one, which is then said in the last line.
pub(crate) fn put_elements<D: Dmi, K: Sink>(
    link: &mut D,
    reach: &Reach,
    size: Size,
    address: u64,
    count: u16,
    out: &mut K,
) -> Result<bool, Failure>
    requires block { IsBlock (count_of size) address count }
    requires serving { AttachedBy reach.now (D.seen link.old) }
    ensures spoke { IfOk result (λ wrong. Spoke (at_read reach.now size address count) idle wrong (told (D.seen link.old))
        (told (D.seen link.new)) (K.contents out.old) (K.contents out.new)) }
    ensures fell { IfErr result (Fell Quiet (at_read reach.now size address count) (D.seen link.old).fault_count (D.seen link.new).fault_count
        (told (D.seen link.old)) (told (D.seen link.new)) (K.fault_count out.old)
        (K.fault_count out.new) (K.contents out.old) (K.contents out.new)) }
    ensures selection { OnOk result (OnChip SelectionStays (D.seen link.old) (D.seen link.new)) }
    ensures rises { Within (load_rises count) (D.seen link.old) (D.seen link.new) }
    ensures never { IfErr result (NeverGivesUp (D.seen link.old)) }
    ensures keeps { Goes (λ _. Attached) (D.seen link.old) (D.seen link.new) result }
    ensures sink_later { K.fault_count out.old ≤ K.fault_count out.new }
{
    if !is_aligned(size, address) {
        put_line(out, &Line::MemoryFault(address))?;
        return Ok(true);
    }
    let mut values = Elements::new();
    let is_whole = load_by(link, reach, size, address, count, &mut values)?;
    put_values(out, size, address, values.as_slice())?;
    if is_whole {
        return Ok(false);
    }
    let at = address + values.len() as u64 * u64::from(size.count());
    put_line(out, &Line::MemoryFault(at))?;
    Ok(true)
}

impl Session {
    /// What `read` does in front of its accesses, and what it shows: so many elements of memory from an address upwards.
    pub(crate) fn elements<D: Dmi>(
        &self,
        link: &mut D,
        size: Size,
        address: u64,
        count: u16,
    ) -> Result<Shown, Failure>
        requires block { IsBlock (count_of size) address count }
        requires serving { Attached (D.seen link.old) }
        requires knows { Knows self.now.known self.now.hart (D.seen link.old).far }
        ensures went { IfOk result (λ shown. Went (before (command.Read size address count) (state_of self.now)) (at_shown shown (state_of self.now)) []
            (told (D.seen link.old)) (told (D.seen link.new))) }
        ensures falls { IfErr result (Fails (Falls (before (command.Read size address count) (state_of self.now)) [])
            (D.seen link.old) (D.seen link.new)) }
        ensures knows { OnOk result (Knows (known_by self.now.path self.now.known) self.now.hart (D.seen link.new).far) }
        ensures rises { Within 2 (D.seen link.old) (D.seen link.new) }
        ensures never { IfErr result (NeverGivesUp (D.seen link.old)) }
        ensures few { IfOk result (λ shown. rises_of_shown shown ≤ load_rises count) }
        ensures keeps { Goes AttachedShown (D.seen link.old) (D.seen link.new) result }
        ensures block { IfOk result IsOfBlock }
    {
        match self.reach(link)? {
            Reached::Says(line) => Ok(Shown::Line(line)),
            Reached::By(reach) => Ok(Shown::Elements(reach, size, address, count)),
        }
    }
}
