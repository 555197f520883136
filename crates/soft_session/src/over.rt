//! A single step of a hart at a breakpoint: the word is put back for the step alone.

ghost use Rattle.std.specs.Prelude.{◌≡◌, true, IfErr, IfOk};
ghost use Rattle.abstract_debugger.specs.Plan.{Plan};
ghost use Rattle.probe_run.specs.Told.{told};
ghost use Rattle.probe_session.specs.Going.{Branches, at_one};
ghost use Rattle.probe_session.specs.Links.{AttachedHalted, Goes};
ghost use Rattle.probe_session.specs.Places.{still};
ghost use Rattle.soft_laws.specs.SoftBreaks.{is_listed};
ghost use Rattle.soft_session.specs.Caused.{LinkCaused};
ghost use Rattle.soft_session.specs.Cuts.{Cuts, CutsOf, at_one_of, at_over};
ghost use Rattle.soft_session.specs.Stepping.{OneLed, OverLed, PcRead, StepLed};

use debug_model::Dmi;
use probe_run::Halted;
use probe_session::{Failure, Known, reg, step_once};
use probe_trig::shows_step;
use rv_model::register_number;
use soft_break::SoftTable;

/// A hart behind a single step.
#[derive(Drop)]
pub(crate) struct Stepped {
    pub(crate) halted: Halted,
    /// Whether it halted for no other cause than the step.
    pub(crate) is_whole: bool,
}

/// The breakpoint that a halted hart stands at, if any.
pub(crate) fn breakpoint_at<D: Dmi>(
    link: &mut D,
    halted: &Halted,
    table: &SoftTable,
) -> Result<Option<u64>, Failure>
    requires serving { AttachedHalted halted.now.number (D.seen link.old) }
    ensures read { IfOk result (PcRead halted.now.number table.now.addresses (told (D.seen link.old)) (told (D.seen link.new))) }
    ensures cut { IfErr result (λ f. (p : Plan) → Cuts (still halted.now.number p) (told (D.seen link.old)) f (told (D.seen link.new))) }
    ensures caused { IfErr result (LinkCaused (D.seen link.old) (D.seen link.new)) }
    ensures keeps { Goes (λ _. AttachedHalted halted.now.number) (D.seen link.old) (D.seen link.new) result }
{
    if table.patches().is_empty() {
        return Ok(None);
    }
    let pc = reg(link, halted, register_number::DPC)?;
    if table.planted(pc) {
        Ok(Some(pc))
    } else {
        Ok(None)
    }
}

/// Makes one single step of a halted hart.
pub(crate) fn step_plainly<D: Dmi>(link: &mut D, halted: Halted) -> Result<Stepped, Failure>
    requires serving { AttachedHalted halted.number (D.seen link.old) }
    ensures led { IfOk result (λ s. StepLed halted.number (told (D.seen link.old)) (told (D.seen link.new)) s.is_whole) }
    ensures cut { IfErr result (λ f. (b : Branches) → Cuts (at_one halted.number b) (told (D.seen link.old)) f (told (D.seen link.new))) }
    ensures hart { IfOk result (λ s. s.halted.number ≡ halted.number) }
    ensures caused { IfErr result (LinkCaused (D.seen link.old) (D.seen link.new)) }
    ensures keeps { Goes (λ _. AttachedHalted halted.number) (D.seen link.old) (D.seen link.new) result }
{
    let again = step_once(link, halted, Known::Nothing)?;
    let word = reg(link, &again, register_number::DCSR)?;
    Ok(Stepped {
        halted: again,
        is_whole: shows_step(word),
    })
}

/// Makes one single step of a halted hart that stands at a breakpoint.
pub(crate) fn step_over_breakpoint<D: Dmi>(
    link: &mut D,
    halted: Halted,
    table: &SoftTable,
    at: u64,
) -> Result<Stepped, Failure>
    requires serving { AttachedHalted halted.number (D.seen link.old) }
    requires set { is_listed table.now.addresses at ≡ true }
    ensures led { IfOk result (λ s. OverLed at halted.number table.now (told (D.seen link.old)) (told (D.seen link.new)) s.is_whole) }
    ensures cut { IfErr result (CutsOf table.now (at_over at halted.number) (told (D.seen link.old)) (told (D.seen link.new))) }
    ensures hart { IfOk result (λ s. s.halted.number ≡ halted.number) }
    ensures caused { IfErr result (LinkCaused (D.seen link.old) (D.seen link.new)) }
    ensures keeps { Goes (λ _. AttachedHalted halted.number) (D.seen link.old) (D.seen link.new) result }
{
    let lifted = table.uncover(link, &halted, at)?;
    match step_plainly(link, halted) {
        Ok(stepped) => {
            lifted.cover(link, &stepped.halted)?;
            Ok(stepped)
        }
        Err(failure) => Err(lifted.abandon(failure)),
    }
}

/// Makes one single step of a halted hart, which may stand at a breakpoint.
pub(crate) fn one_step<D: Dmi>(
    link: &mut D,
    halted: Halted,
    table: &SoftTable,
) -> Result<Stepped, Failure>
    requires serving { AttachedHalted halted.number (D.seen link.old) }
    ensures led { IfOk result (λ s. OneLed halted.number table.now (told (D.seen link.old)) (told (D.seen link.new)) s.is_whole) }
    ensures cut { IfErr result (CutsOf table.now (at_one_of table.now.addresses halted.number) (told (D.seen link.old)) (told (D.seen link.new))) }
    ensures hart { IfOk result (λ s. s.halted.number ≡ halted.number) }
    ensures caused { IfErr result (LinkCaused (D.seen link.old) (D.seen link.new)) }
    ensures keeps { Goes (λ _. AttachedHalted halted.number) (D.seen link.old) (D.seen link.new) result }
{
    match breakpoint_at(link, &halted, table)? {
        Some(at) => step_over_breakpoint(link, halted, table, at),
        None => step_plainly(link, halted),
    }
}
