//! `step` and `resume`: a halted hart goes on.

ghost use Rattle.std.specs.Prelude.{◌≡◌, ◌*◌, ◌+◌, [], true, IfOk, IfErr, OnOk};
ghost use Rattle.abstract_debugger.specs.Debugger.{going};
ghost use Rattle.abstract_debugger.specs.Lines.Line.{Resumed};
ghost use Rattle.abstract_debugger.specs.Plan.Plan.{say};
ghost use Rattle.rv_model.specs.DebugRegisters.{dcsr_number};
ghost use Rattle.probe_session.specs.Calls.{ReadFell};
ghost use Rattle.probe_session.specs.Commands.{at_letting_go, ends_with};
ghost use Rattle.probe_session.specs.Goes.{Falls, Went};
ghost use Rattle.probe_session.specs.Going.{StepSeen, at_one, behind_first, behind_one};
ghost use Rattle.probe_session.specs.Known.{Knows, StandsStepped, says_step};
ghost use Rattle.probe_session.specs.Links.{AttachedAt, AttachedHalted, Goes};
ghost use Rattle.probe_session.specs.Places.{ready, still};
ghost use Rattle.probe_session.specs.Reach.{stepped};
ghost use Rattle.probe_session.specs.Said.{said_by};
ghost use Rattle.probe_session.specs.Steps.{any_in};
ghost use Rattle.probe_run.specs.Told.{told, Fails};
ghost use Rattle.debug_model.specs.Rises.{Within};
ghost use Rattle.probe_session.specs.Never.{NeverGivesUp};

use crate::fault::Failure;
use crate::hart_lines::stop_line;
use crate::known::Known;
use crate::registers::reg;
use crate::slots::{slots, step, step_from, step_over};
use debug_model::Dmi;
use printed_lines::Line;
use probe_run::Halted;
use probe_trig::{SlotView, shows_step};
use rv_model::register_number;

/// Whether the halted hart stands behind a whole step, so that none of its slots has a hit: `dcsr` shows it, and is read where it is not known.
fn is_behind_step<D: Dmi>(link: &mut D, halted: &Halted, known: Known) -> Result<bool, Failure>
    requires serving { AttachedHalted halted.now.number (D.seen link.old) }
    requires knows { Knows known halted.now.number (D.seen link.old).far }
    ensures seen { IfOk result (StepSeen halted.now.number (told (D.seen link.old)) (told (D.seen link.new))) }
    ensures fell { IfErr result (Fails (ReadFell halted.now.number dcsr_number) (D.seen link.old) (D.seen link.new)) }
    ensures rises { Within 16 (D.seen link.old) (D.seen link.new) }
    ensures never { IfErr result (NeverGivesUp (D.seen link.old)) }
    ensures keeps { Goes (λ _. AttachedHalted halted.now.number) (D.seen link.old) (D.seen link.new) result }
{
    if known.is_stepped() {
        return Ok(true);
    }
    let word = reg(link, halted, register_number::DCSR)?;
    Ok(shows_step(word))
}

/// Makes one single step of a halted hart, of which this is known. Where it halted behind a whole step none of its slots is visited.
pub fn step_once<D: Dmi>(link: &mut D, halted: Halted, known: Known) -> Result<Halted, Failure>
    requires serving { AttachedHalted halted.number (D.seen link.old) }
    requires knows { Knows known halted.number (D.seen link.old).far }
    ensures went { OnOk result (Went (at_one halted.number) (behind_one halted.number) [] (told (D.seen link.old)) (told (D.seen link.new))) }
    ensures falls { IfErr result (Fails (Falls (at_one halted.number) []) (D.seen link.old) (D.seen link.new)) }
    ensures hart { IfOk result (λ again. again.number ≡ halted.number) }
    ensures rises { Within 385 (D.seen link.old) (D.seen link.new) }
    ensures never { IfErr result (NeverGivesUp (D.seen link.old)) }
    ensures keeps { Goes (λ _. AttachedHalted halted.number) (D.seen link.old) (D.seen link.new) result }
{
    if known.is_stepped() {
        return step(link, halted);
    }
    let word = reg(link, &halted, register_number::DCSR)?;
    if shows_step(word) {
        step_from(link, halted, word)
    } else {
        step_over(link, halted)
    }
}

/// Makes up to so many single steps more of a hart that has made one, until one stops for another cause, and says where the hart stands then.
fn more_steps_line<D: Dmi>(link: &mut D, halted: Halted, more: u16) -> Result<Line, Failure>
    requires serving { AttachedHalted halted.number (D.seen link.old) }
    ensures went { IfOk result (λ line. Went (behind_first more halted.number) (ends_with (said_by line)) [] (told (D.seen link.old))
        (told (D.seen link.new))) }
    ensures falls { IfErr result (Fails (Falls (behind_first more halted.number) []) (D.seen link.old) (D.seen link.new)) }
    ensures whole { IfOk result (λ line. says_step line ≡ true → StandsStepped halted.number (D.seen link.new).far) }
    ensures rises { Within (50 * more + 210) (D.seen link.old) (D.seen link.new) }
    ensures never { IfErr result (NeverGivesUp (D.seen link.old)) }
    ensures keeps { Goes (λ _. AttachedAt halted.number) (D.seen link.old) (D.seen link.new) result }
{
    let mut now = halted;
    'stepping: for _step in 0..more {
        let word = reg(link, &now, register_number::DCSR)?;
        if !shows_step(word) {
            return stop_line(link, &now);
        }
        now = step_from(link, now, word)?;
    }
    stop_line(link, &now)
}

/// Makes up to so many single steps of a halted hart, of which this is known, until one stops for another cause, and says where it stands then.
pub(crate) fn stepped_line<D: Dmi>(
    link: &mut D,
    halted: Halted,
    count: u16,
    known: Known,
) -> Result<Line, Failure>
    requires serving { AttachedHalted halted.number (D.seen link.old) }
    requires knows { Knows known halted.number (D.seen link.old).far }
    ensures went { IfOk result (λ line. Went (λ next. still halted.number (stepped count halted.number next))
        (ends_with (said_by line)) [] (told (D.seen link.old)) (told (D.seen link.new))) }
    ensures falls { IfErr result (Fails (Falls (λ next. still halted.number (stepped count halted.number next)) []) (D.seen link.old) (D.seen link.new)) }
    ensures whole { IfOk result (λ line. says_step line ≡ true → StandsStepped halted.number (D.seen link.new).far) }
    ensures rises { Within (50 * count + 545) (D.seen link.old) (D.seen link.new) }
    ensures never { IfErr result (NeverGivesUp (D.seen link.old)) }
    ensures keeps { Goes (λ _. AttachedAt halted.number) (D.seen link.old) (D.seen link.new) result }
{
    if count == 0 {
        return stop_line(link, &halted);
    }
    let again = step_once(link, halted, known)?;
    more_steps_line(link, again, count - 1)
}

/// Whether any slot has a hit.
pub fn has_any(view: &SlotView) -> bool
    ensures { result ≡ any_in view.now }
{
    let hits = view.hits;
    hits.has(0) || hits.has(1) || hits.has(2) || hits.has(3)
}

/// Lets a hart go that none of its slots holds back.
pub fn free_line<D: Dmi>(link: &mut D, halted: Halted) -> Result<Line, Failure>
    requires serving { AttachedHalted halted.number (D.seen link.old) }
    ensures went { IfOk result (λ line. Went (λ next. ready halted.number (going halted.number (say Resumed next)))
        (ends_with (said_by line)) [] (told (D.seen link.old)) (told (D.seen link.new))) }
    ensures falls { IfErr result (Fails (Falls (λ next. ready halted.number (going halted.number (say Resumed next))) []) (D.seen link.old) (D.seen link.new)) }
    ensures rises { Within 2 (D.seen link.old) (D.seen link.new) }
    ensures never { IfErr result (NeverGivesUp (D.seen link.old)) }
    ensures keeps { Goes (λ _. AttachedAt halted.number) (D.seen link.old) (D.seen link.new) result }
{
    halted.resume(link)?;
    Ok(Line::Resumed)
}

/// Lets a hart go whose slots may have a hit. Where some have one it is stepped over them first; if that stops it for another cause, the line says where
/// it stands.
fn let_go_over_line<D: Dmi>(link: &mut D, halted: Halted) -> Result<Line, Failure>
    requires serving { AttachedHalted halted.number (D.seen link.old) }
    ensures went { IfOk result (λ line. Went (at_letting_go halted.number) (ends_with (said_by line)) [] (told (D.seen link.old))
        (told (D.seen link.new))) }
    ensures falls { IfErr result (Fails (Falls (at_letting_go halted.number) []) (D.seen link.old) (D.seen link.new)) }
    ensures rises { Within 779 (D.seen link.old) (D.seen link.new) }
    ensures never { IfErr result (NeverGivesUp (D.seen link.old)) }
    ensures keeps { Goes (λ _. AttachedAt halted.number) (D.seen link.old) (D.seen link.new) result }
{
    let seen = slots(link, &halted)?;
    if !has_any(&seen) {
        return free_line(link, halted);
    }
    let again = step_over(link, halted)?;
    let word = reg(link, &again, register_number::DCSR)?;
    if shows_step(word) {
        return free_line(link, again);
    }
    stop_line(link, &again)
}

/// Lets a halted hart go, of which this is known, and steps it over its slots first that have a hit. Where it halted behind a whole step none is visited.
pub(crate) fn let_go_line<D: Dmi>(
    link: &mut D,
    halted: Halted,
    known: Known,
) -> Result<Line, Failure>
    requires serving { AttachedHalted halted.number (D.seen link.old) }
    requires knows { Knows known halted.number (D.seen link.old).far }
    ensures went { IfOk result (λ line. Went (at_letting_go halted.number) (ends_with (said_by line)) [] (told (D.seen link.old))
        (told (D.seen link.new))) }
    ensures falls { IfErr result (Fails (Falls (at_letting_go halted.number) []) (D.seen link.old) (D.seen link.new)) }
    ensures rises { Within 795 (D.seen link.old) (D.seen link.new) }
    ensures never { IfErr result (NeverGivesUp (D.seen link.old)) }
    ensures keeps { Goes (λ _. AttachedAt halted.number) (D.seen link.old) (D.seen link.new) result }
{
    if is_behind_step(link, &halted, known)? {
        free_line(link, halted)
    } else {
        let_go_over_line(link, halted)
    }
}
