//! `regs`: the registers of the hart, a line each.

ghost use Rattle.std.specs.Prelude.{◌≡◌, ◌≤◌, [], false, IfOk, IfErr, OnOk};
ghost use Rattle.probe_access.specs.Pending.{is_mip};
ghost use Rattle.debug_model.specs.declared.command.Command.TheVariants as command;
ghost use Rattle.probe_session.specs.Calls.{IsOfCores};
ghost use Rattle.probe_session.specs.Commands.{before, state_of};
ghost use Rattle.abstract_debugger.specs.Laws.{Quiet};
ghost use Rattle.probe_session.specs.Goes.{Falls, Fell, Spoke, Went};
ghost use Rattle.debug_model.specs.Told.{Selects};
ghost use Rattle.probe_session.specs.Known.{Knows};
ghost use Rattle.probe_session.specs.Links.{Attached, AttachedHalted, Goes, SelectionStays};
ghost use Rattle.probe_session.specs.Places.{idle};
ghost use Rattle.probe_session.specs.Showing.{CalmRegisters, at_all_registers, at_next_register, at_registers};
ghost use Rattle.probe_session.specs.Shown.{AttachedShown, IsOfBlock, at_shown};
ghost use Rattle.probe_run.specs.Told.{told, Fails, OnChip};
ghost use Rattle.debug_model.specs.Rises.{Within};
ghost use Rattle.probe_session.specs.Never.{NeverGivesUp};
ghost use Rattle.probe_session.specs.Budget.{rises_of_shown};

use crate::fault::Failure;
use crate::met::{Met, meet};
use crate::put::put_line;
use crate::registers::reg;
use crate::session::Session;
use crate::shown::Shown;
use debug_model::Dmi;
use jt_base::Sink;
use printed_lines::Line;
use probe_run::Halted;
use rv_model::register_number;

/// Puts the line of a register that each hart itself holds.
fn put_register<D: Dmi, K: Sink>(
    link: &mut D,
    halted: &Halted,
    number: u16,
    out: &mut K,
) -> Result<(), Failure>
    requires of { IsOfCores number }
    requires other { is_mip number ≡ false }
    requires serving { AttachedHalted halted.now.number (D.seen link.old) }
    ensures spoke { OnOk result (Spoke (at_next_register halted.now.number number) (at_registers halted.now.number) false
        (told (D.seen link.old)) (told (D.seen link.new)) (K.contents out.old)
        (K.contents out.new)) }
    ensures fell { IfErr result (Fell CalmRegisters (at_next_register halted.now.number number) (D.seen link.old).fault_count (D.seen link.new).fault_count
        (told (D.seen link.old)) (told (D.seen link.new)) (K.fault_count out.old)
        (K.fault_count out.new) (K.contents out.old) (K.contents out.new)) }
    ensures selection { OnOk result (OnChip SelectionStays (D.seen link.old) (D.seen link.new)) }
    ensures rises { Within 16 (D.seen link.old) (D.seen link.new) }
    ensures never { IfErr result (NeverGivesUp (D.seen link.old)) }
    ensures keeps { Goes (λ _. AttachedHalted halted.now.number) (D.seen link.old) (D.seen link.new) result }
    ensures sink_later { K.fault_count out.old ≤ K.fault_count out.new }
{
    let value = reg(link, halted, number)?;
    put_line(out, &Line::Register(number, value))?;
    Ok(())
}

/// Puts the lines of pc and of x1 to x31.
pub(crate) fn put_registers<D: Dmi, K: Sink>(
    link: &mut D,
    halted: &Halted,
    out: &mut K,
) -> Result<(), Failure>
    requires serving { AttachedHalted halted.now.number (D.seen link.old) }
    ensures spoke { OnOk result (Spoke (at_all_registers halted.now.number) idle false (told (D.seen link.old))
        (told (D.seen link.new)) (K.contents out.old) (K.contents out.new)) }
    ensures fell { IfErr result (Fell Quiet (at_all_registers halted.now.number) (D.seen link.old).fault_count (D.seen link.new).fault_count
        (told (D.seen link.old)) (told (D.seen link.new)) (K.fault_count out.old)
        (K.fault_count out.new) (K.contents out.old) (K.contents out.new)) }
    ensures selection { OnOk result (OnChip SelectionStays (D.seen link.old) (D.seen link.new)) }
    ensures rises { Within 512 (D.seen link.old) (D.seen link.new) }
    ensures never { IfErr result (NeverGivesUp (D.seen link.old)) }
    ensures keeps { Goes (λ _. Attached) (D.seen link.old) (D.seen link.new) result }
    ensures sink_later { K.fault_count out.old ≤ K.fault_count out.new }
{
    put_register(link, halted, register_number::DPC, out)?;
    'showing: for x in 1..32u16 {
        put_register(link, halted, register_number::X0 + x, out)?;
    }
    Ok(())
}

impl Session {
    /// The Look of `regs`, and what it shows: pc and x1 to x31 of the hart.
    pub(crate) fn regs<D: Dmi>(&self, link: &mut D) -> Result<Shown, Failure>
        requires serving { Attached (D.seen link.old) }
        requires knows { Knows self.now.known self.now.hart (D.seen link.old).far }
        ensures went { IfOk result (λ shown. Went (before command.Regs (state_of self.now)) (at_shown shown (state_of self.now)) []
            (told (D.seen link.old)) (told (D.seen link.new))) }
        ensures falls { IfErr result (Fails (Falls (before command.Regs (state_of self.now)) []) (D.seen link.old) (D.seen link.new)) }
        ensures selects { OnOk result (Selects self.now.hart (D.seen link.new).far) }
        ensures rises { Within 2 (D.seen link.old) (D.seen link.new) }
        ensures never { IfErr result (NeverGivesUp (D.seen link.old)) }
        ensures few { IfOk result (λ shown. rises_of_shown shown ≤ 512) }
        ensures keeps { Goes AttachedShown (D.seen link.old) (D.seen link.new) result }
        ensures block { IfOk result IsOfBlock }
    {
        match meet(link, &self.target, self.hart, self.known)? {
            Met::Says(line) => Ok(Shown::Line(line)),
            Met::At(halted) => Ok(Shown::Registers(halted)),
        }
    }
}
