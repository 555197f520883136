//! The lines that a halted hart answers.

ghost use Rattle.std.specs.Prelude.{◌≡◌, ◌<◌, [], true, false, IfOk, IfErr};
ghost use Rattle.rv_model.specs.Registers.{mip_number};
ghost use Rattle.probe_access.specs.Pending.{is_mip};
ghost use Rattle.probe_session.specs.Calls.{IsOfCores};
ghost use Rattle.probe_session.specs.Commands.{at_arming, at_ebreak, at_freeing, at_register, at_stop_line, at_written_register, ends_with};
ghost use Rattle.probe_session.specs.Goes.{Falls, Went};
ghost use Rattle.probe_session.specs.Known.{StandsStepped, says_step};
ghost use Rattle.probe_session.specs.Links.{AttachedAt, AttachedHalted, Goes};
ghost use Rattle.probe_session.specs.Said.{said_by};
ghost use Rattle.probe_session.specs.Slots.{what_of};
ghost use Rattle.probe_session.specs.Steps.{with_ebreakm};
ghost use Rattle.probe_trig.specs.SlotRegisters.{CanArm};
ghost use Rattle.probe_run.specs.Told.{told, Fails};
ghost use Rattle.debug_model.specs.Rises.{Within};
ghost use Rattle.probe_session.specs.Never.{NeverGivesUp};

use crate::fault::Failure;
use crate::registers::{pending_or_none, reg, reg_or_none, set_reg_if_taken};
use crate::slots::{arm, disarm, slots};
use crate::stops::stop;
use debug_model::{Dmi, SlotUse};
use printed_lines::Line;
use probe_run::Halted;
use rv_model::{Cause, Dcsr, SlotSet, register_number};

/// The line that says where the hart stands, and why; beside a trigger, with the slots that have a hit.
pub fn stop_line<D: Dmi>(link: &mut D, halted: &Halted) -> Result<Line, Failure>
    requires serving { AttachedHalted halted.now.number (D.seen link.old) }
    ensures went { IfOk result
        (λ line. Went (at_stop_line halted.now.number) (ends_with (said_by line)) [] (told (D.seen link.old))
        (told (D.seen link.new))) }
    ensures falls { IfErr result (Fails (Falls (at_stop_line halted.now.number) []) (D.seen link.old) (D.seen link.new)) }
    ensures whole { IfOk result (λ line. says_step line ≡ true → StandsStepped halted.now.number (D.seen link.new).far) }
    ensures rises { Within 210 (D.seen link.old) (D.seen link.new) }
    ensures never { IfErr result (NeverGivesUp (D.seen link.old)) }
    ensures keeps { Goes (λ _. AttachedAt halted.now.number) (D.seen link.old) (D.seen link.new) result }
{
    let at = stop(link, halted)?;
    if at.cause == Cause::Trigger.number() {
        let seen = slots(link, halted)?;
        return Ok(Line::Halted {
            pc: at.pc,
            cause: at.cause,
            hits: seen.hits,
        });
    }
    Ok(Line::Halted {
        pc: at.pc,
        cause: at.cause,
        hits: SlotSet(0),
    })
}

/// The line that shows `mip`, by the one access that tells it.
fn pending_line<D: Dmi>(link: &mut D, halted: &Halted) -> Result<Line, Failure>
    requires serving { AttachedHalted halted.now.number (D.seen link.old) }
    ensures went { IfOk result
        (λ line. Went (at_register halted.now.number mip_number) (ends_with (said_by line)) [] (told (D.seen link.old))
        (told (D.seen link.new))) }
    ensures falls { IfErr result (Fails (Falls (at_register halted.now.number mip_number) []) (D.seen link.old) (D.seen link.new)) }
    ensures rises { Within 16 (D.seen link.old) (D.seen link.new) }
    ensures never { IfErr result (NeverGivesUp (D.seen link.old)) }
    ensures keeps { Goes (λ _. AttachedAt halted.now.number) (D.seen link.old) (D.seen link.new) result }
{
    match pending_or_none(link, halted)? {
        Some(value) => Ok(Line::Register(register_number::MIP, value)),
        None => Ok(Line::RegisterRefused(register_number::MIP)),
    }
}

/// The line that shows a register that the hart itself holds.
fn held_line<D: Dmi>(link: &mut D, halted: &Halted, number: u16) -> Result<Line, Failure>
    requires of { IsOfCores number }
    requires other { is_mip number ≡ false }
    requires serving { AttachedHalted halted.now.number (D.seen link.old) }
    ensures went { IfOk result
        (λ line. Went (at_register halted.now.number number) (ends_with (said_by line)) [] (told (D.seen link.old))
        (told (D.seen link.new))) }
    ensures falls { IfErr result (Fails (Falls (at_register halted.now.number number) []) (D.seen link.old) (D.seen link.new)) }
    ensures rises { Within 16 (D.seen link.old) (D.seen link.new) }
    ensures never { IfErr result (NeverGivesUp (D.seen link.old)) }
    ensures keeps { Goes (λ _. AttachedAt halted.now.number) (D.seen link.old) (D.seen link.new) result }
{
    match reg_or_none(link, halted, number)? {
        Some(value) => Ok(Line::Register(number, value)),
        None => Ok(Line::RegisterRefused(number)),
    }
}

/// The line that shows a register.
pub(crate) fn register_line<D: Dmi>(
    link: &mut D,
    halted: &Halted,
    number: u16,
) -> Result<Line, Failure>
    requires of { IsOfCores number }
    requires serving { AttachedHalted halted.now.number (D.seen link.old) }
    ensures went { IfOk result
        (λ line. Went (at_register halted.now.number number) (ends_with (said_by line)) [] (told (D.seen link.old))
        (told (D.seen link.new))) }
    ensures falls { IfErr result (Fails (Falls (at_register halted.now.number number) []) (D.seen link.old) (D.seen link.new)) }
    ensures rises { Within 16 (D.seen link.old) (D.seen link.new) }
    ensures never { IfErr result (NeverGivesUp (D.seen link.old)) }
    ensures keeps { Goes (λ _. AttachedAt halted.now.number) (D.seen link.old) (D.seen link.new) result }
{
    if number == register_number::MIP {
        return pending_line(link, halted);
    }
    held_line(link, halted, number)
}

/// Writes a register, and the line that shows it then. A written pc forgets the slots' hits.
pub(crate) fn written_register_line<D: Dmi>(
    link: &mut D,
    halted: &Halted,
    number: u16,
    value: u64,
) -> Result<Line, Failure>
    requires of { IsOfCores number }
    requires serving { AttachedHalted halted.now.number (D.seen link.old) }
    ensures went { IfOk result (λ line. Went (at_written_register halted.now.number number value) (ends_with (said_by line)) []
        (told (D.seen link.old)) (told (D.seen link.new))) }
    ensures falls { IfErr result (Fails (Falls (at_written_register halted.now.number number value) []) (D.seen link.old) (D.seen link.new)) }
    ensures rises { Within 176 (D.seen link.old) (D.seen link.new) }
    ensures never { IfErr result (NeverGivesUp (D.seen link.old)) }
    ensures keeps { Goes (λ _. AttachedAt halted.now.number) (D.seen link.old) (D.seen link.new) result }
{
    if !set_reg_if_taken(link, halted, number, value)? {
        return Ok(Line::RegisterRefused(number));
    }
    if number == register_number::DPC {
        probe_trig::forget_hits(link, halted)?;
        return register_line(link, halted, number);
    }
    register_line(link, halted, number)
}

/// A word of `dcsr` with `ebreakm` so.
fn with_ebreakm(word: u64, is_on: bool) -> u64
    ensures { result ≡ with_ebreakm is_on word }
{
    let dcsr = Dcsr {
        ebreakm: is_on,
        ..Dcsr::from_word(word)
    };
    dcsr.word()
}

/// Says whether the hart's ebreak halts it.
pub(crate) fn ebreak_line<D: Dmi>(
    link: &mut D,
    halted: &Halted,
    is_on: bool,
) -> Result<Line, Failure>
    requires serving { AttachedHalted halted.now.number (D.seen link.old) }
    ensures went { IfOk result
        (λ line. Went (at_ebreak halted.now.number is_on) (ends_with (said_by line)) [] (told (D.seen link.old))
        (told (D.seen link.new))) }
    ensures falls { IfErr result (Fails (Falls (at_ebreak halted.now.number is_on) []) (D.seen link.old) (D.seen link.new)) }
    ensures rises { Within 24 (D.seen link.old) (D.seen link.new) }
    ensures never { IfErr result (NeverGivesUp (D.seen link.old)) }
    ensures keeps { Goes (λ _. AttachedAt halted.now.number) (D.seen link.old) (D.seen link.new) result }
{
    let word = reg(link, halted, register_number::DCSR)?;
    probe_access::set_reg(
        link,
        halted,
        register_number::DCSR,
        with_ebreakm(word, is_on),
    )?;
    Ok(Line::Ebreak(is_on))
}

/// Arms the lowest free slot.
pub(crate) fn armed_line<D: Dmi>(
    link: &mut D,
    halted: &Halted,
    what: SlotUse,
) -> Result<Line, Failure>
    requires can { CanArm what }
    requires serving { AttachedHalted halted.now.number (D.seen link.old) }
    ensures went { IfOk result
        (λ line. Went (at_arming halted.now.number (what_of what)) (ends_with (said_by line)) [] (told (D.seen link.old))
        (told (D.seen link.new))) }
    ensures falls { IfErr result (Fails (Falls (at_arming halted.now.number (what_of what)) []) (D.seen link.old) (D.seen link.new)) }
    ensures rises { Within 152 (D.seen link.old) (D.seen link.new) }
    ensures never { IfErr result (NeverGivesUp (D.seen link.old)) }
    ensures keeps { Goes (λ _. AttachedAt halted.now.number) (D.seen link.old) (D.seen link.new) result }
{
    match arm(link, halted, what)? {
        Some(slot) => Ok(Line::Slot(slot, what, false)),
        None => Ok(Line::NoFreeSlot),
    }
}

/// Frees a slot.
pub(crate) fn freed_line<D: Dmi>(link: &mut D, halted: &Halted, slot: u8) -> Result<Line, Failure>
    requires slot { slot < 4 }
    requires serving { AttachedHalted halted.now.number (D.seen link.old) }
    ensures went { IfOk result
        (λ line. Went (at_freeing halted.now.number slot) (ends_with (said_by line)) [] (told (D.seen link.old))
        (told (D.seen link.new))) }
    ensures falls { IfErr result (Fails (Falls (at_freeing halted.now.number slot) []) (D.seen link.old) (D.seen link.new)) }
    ensures rises { Within 56 (D.seen link.old) (D.seen link.new) }
    ensures never { IfErr result (NeverGivesUp (D.seen link.old)) }
    ensures keeps { Goes (λ _. AttachedAt halted.now.number) (D.seen link.old) (D.seen link.new) result }
{
    if disarm(link, halted, slot)? {
        Ok(Line::Slot(slot, SlotUse::Free, false))
    } else {
        Ok(Line::SlotNotInUse(slot))
    }
}
