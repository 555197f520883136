//! `step` and `resume`.

ghost use Rattle.std.specs.Prelude.{◌≡◌, ◌<◌, ◌^◌, IfErr, IfOk, OnOk};
ghost use Rattle.abstract_debugger.specs.Plan.{Plan};
ghost use Rattle.debug_model.specs.declared.command.Command.TheVariants as command;
ghost use Rattle.debug_model.specs.declared.soft_command.SoftCommand.TheVariants.{Plain};
ghost use Rattle.probe_run.specs.Told.{told};
ghost use Rattle.probe_session.specs.declared.known.Known.TheVariants.{Nothing};
ghost use Rattle.probe_session.specs.Known.{Knows};
ghost use Rattle.probe_session.specs.Links.{Attached, AttachedAt, AttachedHalted, Goes};
ghost use Rattle.probe_session.specs.Met.{AttachedMet, MetAs, Rest, before_look};
ghost use Rattle.probe_session.specs.Places.{still};
ghost use Rattle.soft_session.specs.Caused.{LinkCaused};
ghost use Rattle.soft_session.specs.Cuts.{Cuts, CutsOf, at_command, at_gone, at_resuming, at_steps};
ghost use Rattle.soft_session.specs.Led.{LineLed, soft_state};
ghost use Rattle.soft_session.specs.Stepping.{GoingLed, GoneLed, HitSeen, StepsLed};

use crate::over::{Stepped, breakpoint_at, one_step, step_over_breakpoint};
use crate::session::SoftSession;
use debug_model::Dmi;
use printed_lines::Line;
use probe_run::Halted;
use probe_session::{Failure, Known, Met, free_line, has_any, meet, stop_line};
use probe_trig::slots;
use soft_break::SoftTable;

/// Makes up to so many single steps of a halted hart, until one stops for another cause, and says where it stands then.
fn steps_line<D: Dmi>(
    link: &mut D,
    halted: Halted,
    table: &SoftTable,
    count: u16,
) -> Result<Line, Failure>
    requires serving { AttachedHalted halted.number (D.seen link.old) }
    ensures led { IfOk result (StepsLed count halted.number table.now (told (D.seen link.old)) (told (D.seen link.new))) }
    ensures cut { IfErr result (CutsOf table.now (at_steps count table.now.addresses halted.number) (told (D.seen link.old)) (told (D.seen link.new))) }
    ensures caused { IfErr result (LinkCaused (D.seen link.old) (D.seen link.new)) }
    ensures keeps { Goes (λ _. AttachedAt halted.number) (D.seen link.old) (D.seen link.new) result }
{
    let mut now = halted;
    'stepping: for _step in 0..count {
        let stepped = one_step(link, now, table)?;
        now = stepped.halted;
        if !stepped.is_whole {
            return stop_line(link, &now);
        }
    }
    stop_line(link, &now)
}

/// Whether any slot of the halted hart has a hit.
fn has_hit<D: Dmi>(link: &mut D, halted: &Halted) -> Result<bool, Failure>
    requires serving { AttachedHalted halted.now.number (D.seen link.old) }
    ensures seen { IfOk result (HitSeen halted.now.number (told (D.seen link.old)) (told (D.seen link.new))) }
    ensures cut { IfErr result (λ f. (p : Plan) → Cuts (still halted.now.number p) (told (D.seen link.old)) f (told (D.seen link.new))) }
    ensures caused { IfErr result (LinkCaused (D.seen link.old) (D.seen link.new)) }
    ensures keeps { Goes (λ _. AttachedHalted halted.now.number) (D.seen link.old) (D.seen link.new) result }
{
    let view = slots(link, halted)?;
    Ok(has_any(&view))
}

/// Lets a halted hart go that stands behind a single step, or says where it stands where that was no whole one.
fn gone_line<D: Dmi>(link: &mut D, stepped: Stepped) -> Result<Line, Failure>
    requires serving { AttachedHalted stepped.halted.number (D.seen link.old) }
    ensures led { IfOk result (GoneLed stepped.halted.number stepped.is_whole (told (D.seen link.old)) (told (D.seen link.new))) }
    ensures cut { IfErr result (λ f. (next : Plan) → Cuts (at_gone stepped.halted.number stepped.is_whole next) (told (D.seen link.old)) f
        (told (D.seen link.new))) }
    ensures caused { IfErr result (LinkCaused (D.seen link.old) (D.seen link.new)) }
    ensures keeps { Goes (λ _. AttachedAt stepped.halted.number) (D.seen link.old) (D.seen link.new) result }
{
    if stepped.is_whole {
        free_line(link, stepped.halted)
    } else {
        stop_line(link, &stepped.halted)
    }
}

/// Lets a halted hart go; where it stands at a breakpoint, or some of its slots have a hit, it is stepped over that first.
fn going_line<D: Dmi>(link: &mut D, halted: Halted, table: &SoftTable) -> Result<Line, Failure>
    requires serving { AttachedHalted halted.number (D.seen link.old) }
    ensures led { IfOk result (GoingLed halted.number table.now (told (D.seen link.old)) (told (D.seen link.new))) }
    ensures cut { IfErr result (CutsOf table.now (at_resuming table.now.addresses halted.number) (told (D.seen link.old)) (told (D.seen link.new))) }
    ensures caused { IfErr result (LinkCaused (D.seen link.old) (D.seen link.new)) }
    ensures keeps { Goes (λ _. AttachedAt halted.number) (D.seen link.old) (D.seen link.new) result }
{
    match breakpoint_at(link, &halted, table)? {
        Some(at) => {
            let stepped = step_over_breakpoint(link, halted, table, at)?;
            gone_line(link, stepped)
        }
        None => {
            if !has_hit(link, &halted)? {
                return free_line(link, halted);
            }
            let stepped = one_step(link, halted, table)?;
            gone_line(link, stepped)
        }
    }
}

/// The Look of a command for a halted hart; what is known of the hart is not known behind it.
pub(crate) fn meet_hart<D: Dmi>(soft: &mut SoftSession, link: &mut D) -> Result<Met, Failure>
    requires serving { Attached (D.seen link.old) }
    requires knows { Knows soft.old.session.known soft.old.session.hart (D.seen link.old).far }
    ensures met { IfOk result (MetAs soft.old.session.hart (told (D.seen link.old)) (told (D.seen link.new))) }
    ensures cut { IfErr result (λ f. (r : Rest) → Cuts (before_look soft.old.session.hart r) (told (D.seen link.old)) f (told (D.seen link.new))) }
    ensures state { soft_state soft.new ≡ soft_state soft.old }
    ensures table { soft.new.table ≡ soft.old.table }
    ensures unknown { OnOk result (soft.new.session.known ≡ Nothing) }
    ensures caused { IfErr result (LinkCaused (D.seen link.old) (D.seen link.new)) }
    ensures keeps { Goes AttachedMet (D.seen link.old) (D.seen link.new) result }
{
    let met = meet(
        link,
        &soft.session.target,
        soft.session.hart,
        soft.session.known,
    )?;
    soft.session.known = Known::Nothing;
    Ok(met)
}

/// Makes up to so many single steps, and says where the hart stands.
pub(crate) fn step<D: Dmi>(
    soft: &mut SoftSession,
    link: &mut D,
    count: u16,
) -> Result<Line, Failure>
    requires serving { Attached (D.seen link.old) }
    requires knows { Knows soft.old.session.known soft.old.session.hart (D.seen link.old).far }
    ensures led { IfOk result (LineLed (Plain (command.Step count)) soft.old soft.new (told (D.seen link.old)) (told (D.seen link.new))) }
    ensures cut { IfErr result (CutsOf soft.old.table (at_command (Plain (command.Step count)) (soft_state soft.old)) (told (D.seen link.old))
        (told (D.seen link.new))) }
    ensures unknown { OnOk result (soft.new.session.known ≡ Nothing) }
    ensures caused { IfErr result (LinkCaused (D.seen link.old) (D.seen link.new)) }
    ensures keeps { Goes (λ _. Attached) (D.seen link.old) (D.seen link.new) result }
{
    match meet_hart(soft, link)? {
        Met::Says(line) => Ok(line),
        Met::At(halted) => steps_line(link, halted, &soft.table, count),
    }
}

/// Lets the hart go.
pub(crate) fn resume<D: Dmi>(soft: &mut SoftSession, link: &mut D) -> Result<Line, Failure>
    requires serving { Attached (D.seen link.old) }
    requires knows { Knows soft.old.session.known soft.old.session.hart (D.seen link.old).far }
    ensures led { IfOk result (LineLed (Plain command.Resume) soft.old soft.new (told (D.seen link.old)) (told (D.seen link.new))) }
    ensures cut { IfErr result (CutsOf soft.old.table (at_command (Plain command.Resume) (soft_state soft.old)) (told (D.seen link.old))
        (told (D.seen link.new))) }
    ensures unknown { OnOk result (soft.new.session.known ≡ Nothing) }
    ensures caused { IfErr result (LinkCaused (D.seen link.old) (D.seen link.new)) }
    ensures keeps { Goes (λ _. Attached) (D.seen link.old) (D.seen link.new) result }
{
    match meet_hart(soft, link)? {
        Met::Says(line) => Ok(line),
        Met::At(halted) => going_line(link, halted, &soft.table),
    }
}
