//! `soft`, `unsoft`, and the end of a session, which takes every breakpoint out.

ghost use Rattle.std.specs.Prelude.{◌≡◌, [], true, false, slice_get, IfErr, IfOk, IfSome, OnOk};
ghost use Rattle.debug_model.specs.SoftCommand.{IsSoftAddress};
ghost use Rattle.debug_model.specs.declared.soft_command.SoftCommand.TheVariants.{Soft, Unsoft};
ghost use Rattle.probe_run.specs.Told.{told};
ghost use Rattle.probe_session.specs.declared.known.Known.TheVariants.{Nothing};
ghost use Rattle.probe_session.specs.Going.{Branches};
ghost use Rattle.probe_session.specs.Links.{Attached, Goes};
ghost use Rattle.soft_break.specs.Patches.{Upwards};
ghost use Rattle.soft_laws.specs.Lowered.{Table};
ghost use Rattle.soft_laws.specs.SoftBreaks.{is_listed};
ghost use Rattle.soft_session.specs.Caused.{LinkCaused};
ghost use Rattle.soft_session.specs.Cuts.{Cuts, CutsOf, at_closing, at_command, at_planting, at_prepared};
ghost use Rattle.soft_session.specs.Led.{LineLed, soft_state};
ghost use Rattle.soft_session.specs.Setting.{ClosedLed, PlantedLed, PreparedLed, failure_of_soft, is_refusal, planted_list};

use crate::session::SoftSession;
use debug_model::Dmi;
use printed_lines::Line;
use probe_access::AccessFault;
use probe_session::{Failure, Known, LostCause, Odd, Session};
use soft_break::{PATCHES_MOST, Prepared, SoftFault, SoftTable, prepare};

/// What a fault of a table's call makes of a session where none of memory is its answer.
fn failure_of(fault: SoftFault) -> Failure
    ensures { result ≡ failure_of_soft fault }
{
    match fault {
        SoftFault::Access(why) => Failure::from(why),
        SoftFault::Full | SoftFault::Set | SoftFault::NotSet => {
            Failure::Lost(LostCause::Odd(Odd::Refusal))
        }
    }
}

/// Whether memory has refused an access.
fn is_refusal(fault: SoftFault) -> bool
    ensures { result ≡ is_refusal fault }
{
    match fault {
        SoftFault::Access(why) => match why {
            AccessFault::Memory(_) => true,
            _ => false,
        },
        SoftFault::Full | SoftFault::Set | SoftFault::NotSet => false,
    }
}

/// In front of the first breakpoint each hart is made to halt at an ebreak.
fn prepare_first<D: Dmi>(
    link: &mut D,
    session: &Session,
    table: &SoftTable,
) -> Result<Prepared, Failure>
    requires serving { Attached (D.seen link.old) }
    ensures led { IfOk result (PreparedLed table.now.addresses (told (D.seen link.old)) (told (D.seen link.new))) }
    ensures cut { IfErr result (λ f. (b : Branches) (t : Table) → Cuts (at_prepared table.now.addresses b t) (told (D.seen link.old)) f
        (told (D.seen link.new))) }
    ensures caused { IfErr result (LinkCaused (D.seen link.old) (D.seen link.new)) }
    ensures keeps { Goes (λ _. Attached) (D.seen link.old) (D.seen link.new) result }
{
    if !table.patches().is_empty() {
        return Ok(Prepared::Ready);
    }
    let prepared = prepare(link, &session.target)?;
    Ok(prepared)
}

/// Sets a breakpoint where none is, and there is room for one. It answers whether memory held the word.
fn plant_word<D: Dmi>(link: &mut D, table: &mut SoftTable, at: u64) -> Result<bool, Failure>
    requires serving { Attached (D.seen link.old) }
    requires word { IsSoftAddress at }
    requires free { is_listed table.old.addresses at ≡ false }
    ensures led { IfOk result (PlantedLed at table.old table.new (told (D.seen link.old)) (told (D.seen link.new))) }
    ensures cut { IfErr result (CutsOf table.old (at_planting at) (told (D.seen link.old)) (told (D.seen link.new))) }
    ensures list { IfOk result (λ held. table.new.addresses ≡ planted_list at held table.old.addresses) }
    ensures caused { IfErr result (LinkCaused (D.seen link.old) (D.seen link.new)) }
    ensures keeps { Goes (λ _. Attached) (D.seen link.old) (D.seen link.new) result }
{
    match table.plant(link, at) {
        Ok(()) => Ok(true),
        Err(fault) => {
            if is_refusal(fault) {
                Ok(false)
            } else {
                Err(failure_of(fault))
            }
        }
    }
}

/// The lowest address at which a breakpoint is set.
fn lowest(table: &SoftTable) -> Option<u64>
    ensures first { result ≡ slice_get table.now.addresses 0 }
    ensures word { IfSome result IsSoftAddress }
    ensures upwards { Upwards table.now.addresses }
{
    table.patches().first().copied()
}

impl SoftSession {
    /// Sets a breakpoint.
    pub(crate) fn set<D: Dmi>(&mut self, link: &mut D, at: u64) -> Result<Line, Failure>
        requires serving { Attached (D.seen link.old) }
        requires word { IsSoftAddress at }
        ensures led { IfOk result (LineLed (Soft at) self.old self.new (told (D.seen link.old)) (told (D.seen link.new))) }
        ensures cut { IfErr result (CutsOf self.old.table (at_command (Soft at) (soft_state self.old)) (told (D.seen link.old)) (told (D.seen link.new))) }
        ensures unknown { self.new.session.known ≡ Nothing }
        ensures caused { IfErr result (LinkCaused (D.seen link.old) (D.seen link.new)) }
        ensures keeps { Goes (λ _. Attached) (D.seen link.old) (D.seen link.new) result }
    {
        self.session.known = Known::Nothing;
        if self.table.planted(at) {
            return Ok(Line::SoftIsSet(at));
        }
        if self.table.patches().len() == PATCHES_MOST {
            return Ok(Line::NoFreeSoftBreak);
        }
        match prepare_first(link, &self.session, &self.table)? {
            Prepared::Running(hart) => Ok(Line::IsRunning(hart)),
            Prepared::Ready => {
                if plant_word(link, &mut self.table, at)? {
                    Ok(Line::SoftSet(at))
                } else {
                    Ok(Line::MemoryFault(at))
                }
            }
        }
    }

    /// Takes a breakpoint out.
    pub(crate) fn clear<D: Dmi>(&mut self, link: &mut D, at: u64) -> Result<Line, Failure>
        requires serving { Attached (D.seen link.old) }
        requires word { IsSoftAddress at }
        ensures led { IfOk result (LineLed (Unsoft at) self.old self.new (told (D.seen link.old)) (told (D.seen link.new))) }
        ensures cut { IfErr result (CutsOf self.old.table (at_command (Unsoft at) (soft_state self.old)) (told (D.seen link.old)) (told (D.seen link.new))) }
        ensures unknown { self.new.session.known ≡ Nothing }
        ensures caused { IfErr result (LinkCaused (D.seen link.old) (D.seen link.new)) }
        ensures keeps { Goes (λ _. Attached) (D.seen link.old) (D.seen link.new) result }
    {
        self.session.known = Known::Nothing;
        if !self.table.planted(at) {
            return Ok(Line::SoftNotSet(at));
        }
        match self.table.unplant(link, at) {
            Ok(()) => Ok(Line::SoftClear(at)),
            Err(fault) => Err(failure_of(fault)),
        }
    }

    /// Takes every breakpoint out, upwards.
    pub(crate) fn close<D: Dmi>(&mut self, link: &mut D) -> Result<(), Failure>
        requires serving { Attached (D.seen link.old) }
        ensures led { OnOk result (ClosedLed self.old.table self.new.table (told (D.seen link.old)) (told (D.seen link.new))) }
        ensures cut { IfErr result (CutsOf self.old.table (at_closing self.old.table.addresses) (told (D.seen link.old)) (told (D.seen link.new))) }
        ensures none { OnOk result (self.new.table.addresses ≡ []) }
        ensures unknown { self.new.session.known ≡ Nothing }
        ensures caused { IfErr result (LinkCaused (D.seen link.old) (D.seen link.new)) }
        ensures keeps { Goes (λ _. Attached) (D.seen link.old) (D.seen link.new) result }
    {
        self.session.known = Known::Nothing;
        'closing: while let Some(at) = lowest(&self.table) {
            match self.table.unplant(link, at) {
                Ok(()) => {}
                Err(fault) => return Err(failure_of(fault)),
            }
        }
        Ok(())
    }
}
