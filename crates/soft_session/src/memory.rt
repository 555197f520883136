//! `read`, `write` and `dump`: a user reads and writes the words themselves, and not the ebreaks that stand in their place.

ghost use Rattle.std.specs.Prelude.{◌≡◌, ◌≤◌, ◌+◌, ◌*◌, true, false, length, map, IfErr, IfOk, OnErr, OnOk};
ghost use Rattle.abstract_debugger.specs.Plan.{Plan};
ghost use Rattle.debug_model.specs.declared.command.Command.TheVariants as command;
ghost use Rattle.debug_model.specs.declared.soft_command.SoftCommand.TheVariants.{Plain};
ghost use Rattle.debug_model.specs.Command.{IsBlock, all_addresses};
ghost use Rattle.rv_model.specs.Memory.{is_aligned};
ghost use Rattle.rv_model.specs.Size.{count_of};
ghost use Rattle.printed_lines.specs.declared.line.Line.TheVariants as printed;
ghost use Rattle.probe_access.specs.BusRuns.{cut_to};
ghost use Rattle.probe_run.specs.Told.{told};
ghost use Rattle.soft_laws.specs.SoftBreaks.{meets_some};
ghost use Rattle.probe_session.specs.declared.fault.Failure.TheVariants as failure;
ghost use Rattle.probe_session.specs.declared.fault.LostCause.TheVariants as lost;
ghost use Rattle.probe_session.specs.declared.odd.Odd.TheVariants as odd;
ghost use Rattle.probe_session.specs.declared.known.Known.TheVariants.{Nothing};
ghost use Rattle.probe_session.specs.Known.{Knows};
ghost use Rattle.probe_session.specs.Links.{Attached, Goes};
ghost use Rattle.probe_session.specs.Commands.{state_of};
ghost use Rattle.probe_session.specs.Reach.{AttachedBy, AttachedReached, MemoryRest, ReachedAs, before_reach};
ghost use Rattle.soft_break.specs.Patches.{table_of};
ghost use Rattle.soft_laws.specs.Lowered.{Table};
ghost use Rattle.soft_session.specs.Caused.{LineCaused, LinkCaused};
ghost use Rattle.soft_session.specs.Cuts.{CommandCut, Cuts, CutsOf, at_command};
ghost use Rattle.soft_session.specs.Led.{CommandLed, LineLed, soft_state};
ghost use Rattle.soft_session.specs.Memory.{LinesLed, RestCut, RestLed, at_rest, shown_values, to_dump, to_read, to_write};
ghost use Rattle.soft_session.specs.Tables.{Holds};

use crate::session::SoftSession;
use debug_model::Dmi;
use jt_base::Sink;
use printed_lines::Line;
use probe_access::{cut_to, is_aligned};
use probe_session::{
    Elements, Failure, Known, LostCause, Odd, Reach, Reached, load_by, put_bytes, put_line,
    put_values, store_by,
};
use rv_model::Size;
use soft_break::SoftTable;

/// The way to memory that was chosen; what is known of the hart is not known behind it.
fn reach<D: Dmi>(soft: &mut SoftSession, link: &mut D) -> Result<Reached, Failure>
    requires serving { Attached (D.seen link.old) }
    requires knows { Knows soft.old.session.known soft.old.session.hart (D.seen link.old).far }
    ensures reached { IfOk result (ReachedAs (state_of soft.old.session) (told (D.seen link.old)) (told (D.seen link.new))) }
    ensures cut { IfErr result (λ f. (r : MemoryRest) → Cuts (before_reach (state_of soft.old.session) r) (told (D.seen link.old)) f
        (told (D.seen link.new))) }
    ensures state { soft_state soft.new ≡ soft_state soft.old }
    ensures table { soft.new.table ≡ soft.old.table }
    ensures unknown { OnOk result (soft.new.session.known ≡ Nothing) }
    ensures caused { IfErr result (LinkCaused (D.seen link.old) (D.seen link.new)) }
    ensures keeps { Goes AttachedReached (D.seen link.old) (D.seen link.new) result }
{
    let reached = soft.session.reach(link)?;
    soft.session.known = Known::Nothing;
    Ok(reached)
}

/// Puts the words themselves in the place of the ebreaks in the elements that were loaded from an address upwards.
fn hide_all(table: &SoftTable, size: Size, address: u64, values: &mut Elements)
    requires aligned { is_aligned address size ≡ true }
    requires ends { address + length values.old.items * count_of size ≤ all_addresses }
    ensures many { length values.new.items ≡ length values.old.items }
    ensures hidden { map (cut_to size) values.new.items ≡ shown_values (table_of table.now) size address (map (cut_to size) values.old.items) }
{
    'hiding: for number in 0..values.len() {
        let at = address + number as u64 * u64::from(size.count());
        let held = values.as_slice()[number];
        values.as_mut_slice()[number] = table.hide(size, at, cut_to(size, held));
    }
}

/// The line of an element that memory refused. Memory has held each word at which a breakpoint is set: a chip that refuses one is lost.
fn refusal(table: &SoftTable, size: Size, at: u64) -> Result<Line, Failure>
    ensures line { IfOk result (λ line. line ≡ printed.MemoryFault at) }
    ensures beside { OnOk result (meets_some table.now.addresses at (count_of size) ≡ false) }
    ensures lost { IfErr result (λ f. f ≡ failure.Lost (lost.Odd odd.Refusal)) }
    ensures met { OnErr result (meets_some table.now.addresses at (count_of size) ≡ true) }
{
    if table.meets(size, at) {
        return Err(Failure::Lost(LostCause::Odd(Odd::Refusal)));
    }
    Ok(Line::MemoryFault(at))
}

/// Loads elements, and puts the line of each that memory held. It answers whether memory refused one, which is then said in the last line.
fn put_elements<D: Dmi, K: Sink>(
    link: &mut D,
    reach: &Reach,
    table: &SoftTable,
    size: Size,
    address: u64,
    count: u16,
    out: &mut K,
) -> Result<bool, Failure>
    requires block { IsBlock (count_of size) address count }
    requires serving { AttachedBy reach.now (D.seen link.old) }
    ensures led { IfOk result (λ wrong. LinesLed reach.now (to_read size address count reach.now) table.now wrong (told (D.seen link.old))
        (told (D.seen link.new)) (K.contents out.old) (K.contents out.new)) }
    ensures cut { IfErr result (RestCut reach.now (to_read size address count reach.now) table.now (told (D.seen link.old)) (told (D.seen link.new))
        (K.contents out.old) (K.contents out.new)) }
    ensures caused { IfErr result (LineCaused (D.seen link.old) (D.seen link.new) (K.fault_count out.old) (K.fault_count out.new)) }
    ensures keeps { Goes (λ _. Attached) (D.seen link.old) (D.seen link.new) result }
    ensures sink_later { K.fault_count out.old ≤ K.fault_count out.new }
{
    if !is_aligned(size, address) {
        put_line(out, &Line::MemoryFault(address))?;
        return Ok(true);
    }
    let mut values = Elements::new();
    let is_whole = load_by(link, reach, size, address, count, &mut values)?;
    hide_all(table, size, address, &mut values);
    put_values(out, size, address, values.as_slice())?;
    if is_whole {
        return Ok(false);
    }
    let at = address + values.len() as u64 * u64::from(size.count());
    put_line(out, &Line::MemoryFault(at))?;
    Ok(true)
}

/// Loads bytes, and puts the rows of those that memory held. It answers whether memory refused one, which is then said in the last line.
fn put_rows<D: Dmi, K: Sink>(
    link: &mut D,
    reach: &Reach,
    table: &SoftTable,
    address: u64,
    count: u16,
    out: &mut K,
) -> Result<bool, Failure>
    requires block { IsBlock 1 address count }
    requires serving { AttachedBy reach.now (D.seen link.old) }
    ensures led { IfOk result (λ wrong. LinesLed reach.now (to_dump address count reach.now) table.now wrong (told (D.seen link.old)) (told (D.seen link.new))
        (K.contents out.old) (K.contents out.new)) }
    ensures cut { IfErr result (RestCut reach.now (to_dump address count reach.now) table.now (told (D.seen link.old)) (told (D.seen link.new))
        (K.contents out.old) (K.contents out.new)) }
    ensures caused { IfErr result (LineCaused (D.seen link.old) (D.seen link.new) (K.fault_count out.old) (K.fault_count out.new)) }
    ensures keeps { Goes (λ _. Attached) (D.seen link.old) (D.seen link.new) result }
    ensures sink_later { K.fault_count out.old ≤ K.fault_count out.new }
{
    let mut values = Elements::new();
    let is_whole = load_by(link, reach, Size::B1, address, count, &mut values)?;
    hide_all(table, Size::B1, address, &mut values);
    put_bytes(out, address, values.as_slice())?;
    if is_whole {
        return Ok(false);
    }
    let at = address + values.len() as u64;
    put_line(out, &Line::MemoryFault(at))?;
    Ok(true)
}

/// So many elements of memory from an address upwards.
pub(crate) fn read<D: Dmi, K: Sink>(
    soft: &mut SoftSession,
    link: &mut D,
    size: Size,
    address: u64,
    count: u16,
    out: &mut K,
) -> Result<bool, Failure>
    requires block { IsBlock (count_of size) address count }
    requires serving { Attached (D.seen link.old) }
    requires knows { Knows soft.old.session.known soft.old.session.hart (D.seen link.old).far }
    ensures led { IfOk result (λ wrong. CommandLed (Plain (command.Read size address count)) soft.old soft.new wrong (told (D.seen link.old))
        (told (D.seen link.new)) (K.contents out.old) (K.contents out.new)) }
    ensures cut { IfErr result (CommandCut (Plain (command.Read size address count)) (soft_state soft.old) soft.old.table (told (D.seen link.old))
        (told (D.seen link.new)) (K.contents out.old) (K.contents out.new)) }
    ensures unknown { OnOk result (soft.new.session.known ≡ Nothing) }
    ensures caused { IfErr result (LineCaused (D.seen link.old) (D.seen link.new) (K.fault_count out.old) (K.fault_count out.new)) }
    ensures keeps { Goes (λ _. Attached) (D.seen link.old) (D.seen link.new) result }
    ensures sink_later { K.fault_count out.old ≤ K.fault_count out.new }
{
    match reach(soft, link)? {
        Reached::Says(line) => {
            put_line(out, &line)?;
            Ok(line.is_error())
        }
        Reached::By(way) => put_elements(link, &way, &soft.table, size, address, count, out),
    }
}

/// So many bytes of memory from an address upwards, sixteen to a row.
pub(crate) fn dump<D: Dmi, K: Sink>(
    soft: &mut SoftSession,
    link: &mut D,
    address: u64,
    count: u16,
    out: &mut K,
) -> Result<bool, Failure>
    requires block { IsBlock 1 address count }
    requires serving { Attached (D.seen link.old) }
    requires knows { Knows soft.old.session.known soft.old.session.hart (D.seen link.old).far }
    ensures led { IfOk result (λ wrong. CommandLed (Plain (command.Dump address count)) soft.old soft.new wrong (told (D.seen link.old))
        (told (D.seen link.new)) (K.contents out.old) (K.contents out.new)) }
    ensures cut { IfErr result (CommandCut (Plain (command.Dump address count)) (soft_state soft.old) soft.old.table (told (D.seen link.old))
        (told (D.seen link.new)) (K.contents out.old) (K.contents out.new)) }
    ensures unknown { OnOk result (soft.new.session.known ≡ Nothing) }
    ensures caused { IfErr result (LineCaused (D.seen link.old) (D.seen link.new) (K.fault_count out.old) (K.fault_count out.new)) }
    ensures keeps { Goes (λ _. Attached) (D.seen link.old) (D.seen link.new) result }
    ensures sink_later { K.fault_count out.old ≤ K.fault_count out.new }
{
    match reach(soft, link)? {
        Reached::Says(line) => {
            put_line(out, &line)?;
            Ok(line.is_error())
        }
        Reached::By(way) => put_rows(link, &way, &soft.table, address, count, out),
    }
}

/// Stores a value so many times from an address upwards, each time with the ebreaks that stand there, and says how many, or where memory refused one.
fn written_line<D: Dmi>(
    link: &mut D,
    reach: &Reach,
    table: &mut SoftTable,
    size: Size,
    address: u64,
    value: u64,
    count: u16,
) -> Result<Line, Failure>
    requires block { IsBlock (count_of size) address count }
    requires serving { AttachedBy reach.now (D.seen link.old) }
    ensures led { IfOk result (RestLed reach.now (to_write size address value count reach.now) table.old table.new (told (D.seen link.old)) (told
        (D.seen link.new))) }
    ensures cut { IfErr result (λ f. (next : Plan) (t : Table) → Holds table.old t
        → Cuts (at_rest reach.now (to_write size address value count reach.now) next t) (told (D.seen link.old)) f (told (D.seen link.new))) }
    ensures same { table.new.addresses ≡ table.old.addresses }
    ensures caused { IfErr result (LinkCaused (D.seen link.old) (D.seen link.new)) }
    ensures keeps { Goes (λ _. Attached) (D.seen link.old) (D.seen link.new) result }
{
    if !is_aligned(size, address) {
        return Ok(Line::MemoryFault(address));
    }
    'storing: for number in 0..count {
        let at = address + u64::from(number) * u64::from(size.count());
        let stored = table.merge(size, at, value);
        if let Some(refused) = store_by(link, reach, size, at, 1, stored)? {
            return refusal(table, size, refused);
        }
    }
    Ok(Line::Wrote(count))
}

/// A value, stored so many times from an address upwards.
pub(crate) fn write<D: Dmi>(
    soft: &mut SoftSession,
    link: &mut D,
    size: Size,
    address: u64,
    value: u64,
    count: u16,
) -> Result<Line, Failure>
    requires block { IsBlock (count_of size) address count }
    requires serving { Attached (D.seen link.old) }
    requires knows { Knows soft.old.session.known soft.old.session.hart (D.seen link.old).far }
    ensures led { IfOk result (LineLed (Plain (command.Write size address value count)) soft.old soft.new (told (D.seen link.old)) (told (D.seen link.new))) }
    ensures cut { IfErr result (CutsOf soft.old.table (at_command (Plain (command.Write size address value count)) (soft_state soft.old))
        (told (D.seen link.old)) (told (D.seen link.new))) }
    ensures unknown { OnOk result (soft.new.session.known ≡ Nothing) }
    ensures caused { IfErr result (LinkCaused (D.seen link.old) (D.seen link.new)) }
    ensures keeps { Goes (λ _. Attached) (D.seen link.old) (D.seen link.new) result }
{
    match reach(soft, link)? {
        Reached::Says(line) => Ok(line),
        Reached::By(way) => written_line(link, &way, &mut soft.table, size, address, value, count),
    }
}
