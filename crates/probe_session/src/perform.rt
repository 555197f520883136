//! The commands, by their kind.

ghost use Rattle.std.specs.Prelude.{◌≤◌, ◌+◌, [], IfOk, IfErr, IfSome};
ghost use Rattle.debug_model.specs.Command.{IsWithinRanges};
ghost use Rattle.probe_session.specs.Commands.{before, state_of};
ghost use Rattle.probe_session.specs.Goes.{Falls};
ghost use Rattle.probe_session.specs.Known.{Knows, known_behind};
ghost use Rattle.probe_session.specs.Links.{Attached, Goes};
ghost use Rattle.probe_session.specs.Shown.{AttachedUpTo, DoneUpTo, IsOfBlock};
ghost use Rattle.probe_run.specs.Told.{told, Fails};
ghost use Rattle.debug_model.specs.Rises.{Within};
ghost use Rattle.probe_session.specs.Never.{NeverGivesUp};
ghost use Rattle.probe_session.specs.Budget.{command_rises, rises_of_shown, rises_up_to};

use crate::fault::Failure;
use crate::identity::idcode_line;
use crate::session::Session;
use crate::shown::Shown;
use debug_model::{Command, Dmi};

impl Session {
    /// Does a command up to what it shows, and answers that; of `end` nothing is shown.
    pub(crate) fn perform<D: Dmi>(
        &mut self,
        link: &mut D,
        command: Command,
    ) -> Result<Option<Shown>, Failure>
        requires within { IsWithinRanges command }
        requires serving { Attached (D.seen link.old) }
        requires knows { Knows self.old.known self.old.hart (D.seen link.old).far }
        ensures did { IfOk result (DoneUpTo command (state_of self.old) (state_of self.new) (told (D.seen link.old)) (told (D.seen link.new))) }
        ensures falls { IfErr result (Fails (Falls (before command (state_of self.old)) []) (D.seen link.old) (D.seen link.new)) }
        ensures rises { Within (rises_up_to command) (D.seen link.old) (D.seen link.new) }
        ensures never { IfErr result (NeverGivesUp (D.seen link.old)) }
        ensures few { IfOk result (λ shown. IfSome shown (λ s. rises_up_to command + rises_of_shown s ≤ command_rises command)) }
        ensures keeps { Goes AttachedUpTo (D.seen link.old) (D.seen link.new) result }
        ensures knows { IfOk result (λ shown. Knows (known_behind command shown self.new.hart self.new.path self.new.known) self.new.hart
            (D.seen link.new).far) }
        ensures block { IfOk result (λ shown. IfSome shown IsOfBlock) }
    {
        let shown = match command {
            Command::Idcode => Shown::Line(idcode_line(link)?),
            Command::Hart(hart) => Shown::Line(self.select(link, hart)?),
            Command::State => Shown::Line(self.state(link)?),
            Command::Halt => Shown::Line(self.halt(link)?),
            Command::Resume => Shown::Line(self.resume(link)?),
            Command::Step(count) => Shown::Line(self.step(link, count)?),
            Command::Wait(looks) => Shown::Line(self.wait(link, looks)?),
            Command::Regs => self.regs(link)?,
            Command::Reg(name) => Shown::Line(self.reg(link, name)?),
            Command::SetReg(name, value) => Shown::Line(self.set_reg(link, name, value)?),
            Command::Read(size, address, count) => self.elements(link, size, address, count)?,
            Command::Write(size, address, value, count) => {
                Shown::Line(self.write(link, size, address, value, count)?)
            }
            Command::Dump(address, count) => self.bytes(link, address, count)?,
            Command::Via(path) => Shown::Line(self.choose(path)),
            Command::Break(address) => Shown::Line(self.break_at(link, address)?),
            Command::Watch(kind, address) => Shown::Line(self.watch(link, kind, address)?),
            Command::Count(turns) => Shown::Line(self.count(link, turns)?),
            Command::Clear(slot) => Shown::Line(self.clear(link, slot)?),
            Command::Slots => self.slots(link)?,
            Command::Ebreak(is_on) => Shown::Line(self.ebreak(link, is_on)?),
            Command::End => return Ok(None),
        };
        Ok(Some(shown))
    }
}
