//! The commands of one line.

ghost use Rattle.std.specs.Prelude.{◌≡◌, ◌≤◌, ◌<◌, ◌^◌, ◌*◌, ◌+◌, [], true, IfOk, IfErr, OnOk, IsTrue};
ghost use Rattle.debug_model.specs.Command.{IsBlock, last_slot, most_turns};
ghost use Rattle.abstract_debugger.specs.Lines.Line.{Via};
ghost use Rattle.rv_model.specs.Size.{count_of};
ghost use Rattle.debug_model.specs.Registers.{is_register};
ghost use Rattle.debug_model.specs.declared.command.Command.TheVariants as command;
ghost use Rattle.probe_session.specs.Commands.{at_line, before, state_of};
ghost use Rattle.probe_session.specs.Goes.{Falls, Went};
ghost use Rattle.probe_session.specs.Known.{Knows, StandsStepped, known_by, says_step};
ghost use Rattle.probe_session.specs.Links.{Attached, AttachedAt, Goes};
ghost use Rattle.probe_session.specs.Said.{said_by};
ghost use Rattle.probe_run.specs.Told.{told, Fails};
ghost use Rattle.debug_model.specs.Rises.{Within};
ghost use Rattle.probe_session.specs.Never.{NeverGivesUp};
ghost use Rattle.probe_access.specs.BlockRises.{store_rises};

use crate::fault::Failure;
use crate::going::{let_go_line, stepped_line};
use crate::hart_lines::{
    armed_line, ebreak_line, freed_line, register_line, stop_line, written_register_line,
};
use crate::known::Known;
use crate::looks::look;
use crate::met::{Met, meet};
use crate::reach::Reached;
use crate::session::Session;
use crate::write::written_line;
use debug_model::{Dmi, Path, RegName, SlotUse, WatchKind};
use printed_lines::Line;
use probe_run::Seen;
use rv_model::Size;

impl Session {
    /// Selects a hart, from 0 to 1023; one that is not there is not selected.
    pub(crate) fn select<D: Dmi>(&mut self, link: &mut D, hart: u16) -> Result<Line, Failure>
        requires hart { hart < 2 ^ 10 }
        requires serving { Attached (D.seen link.old) }
        ensures went { IfOk result (λ line. Went (before (command.Hart hart) (state_of self.old)) (at_line (said_by line) (state_of self.new)) []
            (told (D.seen link.old)) (told (D.seen link.new))) }
        ensures falls { IfErr result (Fails (Falls (before (command.Hart hart) (state_of self.old)) []) (D.seen link.old) (D.seen link.new)) }
        ensures rises { Within 2 (D.seen link.old) (D.seen link.new) }
        ensures never { IfErr result (NeverGivesUp (D.seen link.old)) }
        ensures keeps { Goes (λ _. AttachedAt hart) (D.seen link.old) (D.seen link.new) result }
    {
        match look(link, &self.target, hart, Known::Nothing)? {
            Seen::Absent => Ok(Line::NoHart(hart)),
            Seen::Running(_) => {
                self.hart = hart;
                Ok(Line::Selected(hart))
            }
            Seen::Halted(_) => {
                self.hart = hart;
                Ok(Line::Selected(hart))
            }
        }
    }

    /// Says where the hart stands, or that it runs.
    pub(crate) fn state<D: Dmi>(&self, link: &mut D) -> Result<Line, Failure>
        requires serving { Attached (D.seen link.old) }
        requires knows { Knows self.now.known self.now.hart (D.seen link.old).far }
        ensures went { IfOk result (λ line. Went (before (command.State) (state_of self.now)) (at_line (said_by line) (state_of self.now)) []
            (told (D.seen link.old)) (told (D.seen link.new))) }
        ensures falls { IfErr result (Fails (Falls (before (command.State) (state_of self.now)) []) (D.seen link.old) (D.seen link.new)) }
        ensures rises { Within 212 (D.seen link.old) (D.seen link.new) }
        ensures never { IfErr result (NeverGivesUp (D.seen link.old)) }
        ensures keeps { Goes (λ _. AttachedAt self.now.hart) (D.seen link.old) (D.seen link.new) result }
    {
        match look(link, &self.target, self.hart, self.known)? {
            Seen::Absent => Ok(Line::NoHart(self.hart)),
            Seen::Running(_) => Ok(Line::Running),
            Seen::Halted(halted) => stop_line(link, &halted),
        }
    }

    /// Halts the hart, and says where it stands.
    pub(crate) fn halt<D: Dmi>(&self, link: &mut D) -> Result<Line, Failure>
        requires serving { Attached (D.seen link.old) }
        requires knows { Knows self.now.known self.now.hart (D.seen link.old).far }
        ensures went { IfOk result (λ line. Went (before (command.Halt) (state_of self.now)) (at_line (said_by line) (state_of self.now)) []
            (told (D.seen link.old)) (told (D.seen link.new))) }
        ensures falls { IfErr result (Fails (Falls (before (command.Halt) (state_of self.now)) []) (D.seen link.old) (D.seen link.new)) }
        ensures rises { Within 215 (D.seen link.old) (D.seen link.new) }
        ensures never { IfErr result (NeverGivesUp (D.seen link.old)) }
        ensures keeps { Goes (λ _. AttachedAt self.now.hart) (D.seen link.old) (D.seen link.new) result }
    {
        match look(link, &self.target, self.hart, self.known)? {
            Seen::Absent => Ok(Line::NoHart(self.hart)),
            Seen::Running(running) => {
                let halted = running.halt(link)?;
                stop_line(link, &halted)
            }
            Seen::Halted(halted) => stop_line(link, &halted),
        }
    }

    /// Looks at the hart until it does not run, at most so often, and says where it stands, that it runs, or that there is none.
    pub(crate) fn wait<D: Dmi>(&self, link: &mut D, looks: u16) -> Result<Line, Failure>
        requires looks { 1 ≤ looks }
        requires serving { Attached (D.seen link.old) }
        requires knows { Knows self.now.known self.now.hart (D.seen link.old).far }
        ensures went { IfOk result (λ line. Went (before (command.Wait looks) (state_of self.now)) (at_line (said_by line) (state_of self.now)) []
            (told (D.seen link.old)) (told (D.seen link.new))) }
        ensures falls { IfErr result (Fails (Falls (before (command.Wait looks) (state_of self.now)) []) (D.seen link.old) (D.seen link.new)) }
        ensures rises { Within (2 * looks + 210) (D.seen link.old) (D.seen link.new) }
        ensures never { IfErr result (NeverGivesUp (D.seen link.old)) }
        ensures keeps { Goes (λ _. AttachedAt self.now.hart) (D.seen link.old) (D.seen link.new) result }
    {
        let mut known = self.known;
        'looking: for _look in 0..looks {
            match look(link, &self.target, self.hart, known)? {
                Seen::Absent => return Ok(Line::NoHart(self.hart)),
                Seen::Running(_) => {}
                Seen::Halted(halted) => return stop_line(link, &halted),
            }
            known = Known::Selected;
        }
        Ok(Line::Running)
    }

    /// Shows a register.
    pub(crate) fn reg<D: Dmi>(&self, link: &mut D, name: RegName) -> Result<Line, Failure>
        requires known { IsTrue (is_register name.0) }
        requires serving { Attached (D.seen link.old) }
        requires knows { Knows self.now.known self.now.hart (D.seen link.old).far }
        ensures went { IfOk result (λ line. Went (before (command.Reg name) (state_of self.now)) (at_line (said_by line) (state_of self.now)) []
            (told (D.seen link.old)) (told (D.seen link.new))) }
        ensures falls { IfErr result (Fails (Falls (before (command.Reg name) (state_of self.now)) []) (D.seen link.old) (D.seen link.new)) }
        ensures rises { Within 18 (D.seen link.old) (D.seen link.new) }
        ensures never { IfErr result (NeverGivesUp (D.seen link.old)) }
        ensures keeps { Goes (λ _. AttachedAt self.now.hart) (D.seen link.old) (D.seen link.new) result }
    {
        match meet(link, &self.target, self.hart, self.known)? {
            Met::Says(line) => Ok(line),
            Met::At(halted) => register_line(link, &halted, name.0),
        }
    }

    /// Writes a register, and shows it.
    pub(crate) fn set_reg<D: Dmi>(
        &self,
        link: &mut D,
        name: RegName,
        value: u64,
    ) -> Result<Line, Failure>
        requires known { IsTrue (is_register name.0) }
        requires serving { Attached (D.seen link.old) }
        requires knows { Knows self.now.known self.now.hart (D.seen link.old).far }
        ensures went { IfOk result
            (λ line. Went (before (command.SetReg name value) (state_of self.now)) (at_line (said_by line) (state_of self.now)) []
            (told (D.seen link.old)) (told (D.seen link.new))) }
        ensures falls { IfErr result (Fails (Falls (before (command.SetReg name value) (state_of self.now)) []) (D.seen link.old) (D.seen link.new)) }
        ensures rises { Within 178 (D.seen link.old) (D.seen link.new) }
        ensures never { IfErr result (NeverGivesUp (D.seen link.old)) }
        ensures keeps { Goes (λ _. AttachedAt self.now.hart) (D.seen link.old) (D.seen link.new) result }
    {
        match meet(link, &self.target, self.hart, self.known)? {
            Met::Says(line) => Ok(line),
            Met::At(halted) => written_register_line(link, &halted, name.0, value),
        }
    }

    /// Sets whether the hart's ebreak halts it.
    pub(crate) fn ebreak<D: Dmi>(&self, link: &mut D, is_on: bool) -> Result<Line, Failure>
        requires serving { Attached (D.seen link.old) }
        requires knows { Knows self.now.known self.now.hart (D.seen link.old).far }
        ensures went { IfOk result (λ line. Went (before (command.Ebreak is_on) (state_of self.now)) (at_line (said_by line) (state_of self.now)) []
            (told (D.seen link.old)) (told (D.seen link.new))) }
        ensures falls { IfErr result (Fails (Falls (before (command.Ebreak is_on) (state_of self.now)) []) (D.seen link.old) (D.seen link.new)) }
        ensures rises { Within 26 (D.seen link.old) (D.seen link.new) }
        ensures never { IfErr result (NeverGivesUp (D.seen link.old)) }
        ensures keeps { Goes (λ _. AttachedAt self.now.hart) (D.seen link.old) (D.seen link.new) result }
    {
        match meet(link, &self.target, self.hart, self.known)? {
            Met::Says(line) => Ok(line),
            Met::At(halted) => ebreak_line(link, &halted, is_on),
        }
    }

    /// Arms a slot that stops the hart before the instruction at an address.
    pub(crate) fn break_at<D: Dmi>(&self, link: &mut D, address: u64) -> Result<Line, Failure>
        requires serving { Attached (D.seen link.old) }
        requires knows { Knows self.now.known self.now.hart (D.seen link.old).far }
        ensures went { IfOk result (λ line. Went (before (command.Break address) (state_of self.now)) (at_line (said_by line) (state_of self.now)) []
            (told (D.seen link.old)) (told (D.seen link.new))) }
        ensures falls { IfErr result (Fails (Falls (before (command.Break address) (state_of self.now)) []) (D.seen link.old) (D.seen link.new)) }
        ensures rises { Within 154 (D.seen link.old) (D.seen link.new) }
        ensures never { IfErr result (NeverGivesUp (D.seen link.old)) }
        ensures keeps { Goes (λ _. AttachedAt self.now.hart) (D.seen link.old) (D.seen link.new) result }
    {
        match meet(link, &self.target, self.hart, self.known)? {
            Met::Says(line) => Ok(line),
            Met::At(halted) => armed_line(link, &halted, SlotUse::Break(address)),
        }
    }

    /// Arms a slot that stops the hart before an access to an address.
    pub(crate) fn watch<D: Dmi>(
        &self,
        link: &mut D,
        kind: WatchKind,
        address: u64,
    ) -> Result<Line, Failure>
        requires serving { Attached (D.seen link.old) }
        requires knows { Knows self.now.known self.now.hart (D.seen link.old).far }
        ensures went { IfOk result
            (λ line. Went (before (command.Watch kind address) (state_of self.now)) (at_line (said_by line) (state_of self.now)) []
            (told (D.seen link.old)) (told (D.seen link.new))) }
        ensures falls { IfErr result (Fails (Falls (before (command.Watch kind address) (state_of self.now)) []) (D.seen link.old) (D.seen link.new)) }
        ensures rises { Within 154 (D.seen link.old) (D.seen link.new) }
        ensures never { IfErr result (NeverGivesUp (D.seen link.old)) }
        ensures keeps { Goes (λ _. AttachedAt self.now.hart) (D.seen link.old) (D.seen link.new) result }
    {
        match meet(link, &self.target, self.hart, self.known)? {
            Met::Says(line) => Ok(line),
            Met::At(halted) => armed_line(link, &halted, SlotUse::Watch(kind, address)),
        }
    }

    /// Arms a slot that stops the hart behind so many executed turns, from 1 to 16,383.
    pub(crate) fn count<D: Dmi>(&self, link: &mut D, turns: u16) -> Result<Line, Failure>
        requires turns { (1 ≤ turns) × (turns ≤ most_turns) }
        requires serving { Attached (D.seen link.old) }
        requires knows { Knows self.now.known self.now.hart (D.seen link.old).far }
        ensures went { IfOk result (λ line. Went (before (command.Count turns) (state_of self.now)) (at_line (said_by line) (state_of self.now)) []
            (told (D.seen link.old)) (told (D.seen link.new))) }
        ensures falls { IfErr result (Fails (Falls (before (command.Count turns) (state_of self.now)) []) (D.seen link.old) (D.seen link.new)) }
        ensures rises { Within 154 (D.seen link.old) (D.seen link.new) }
        ensures never { IfErr result (NeverGivesUp (D.seen link.old)) }
        ensures keeps { Goes (λ _. AttachedAt self.now.hart) (D.seen link.old) (D.seen link.new) result }
    {
        match meet(link, &self.target, self.hart, self.known)? {
            Met::Says(line) => Ok(line),
            Met::At(halted) => armed_line(link, &halted, SlotUse::Count(turns)),
        }
    }

    /// Frees a slot, from 0 to 3.
    pub(crate) fn clear<D: Dmi>(&self, link: &mut D, slot: u8) -> Result<Line, Failure>
        requires slot { slot ≤ last_slot }
        requires serving { Attached (D.seen link.old) }
        requires knows { Knows self.now.known self.now.hart (D.seen link.old).far }
        ensures went { IfOk result (λ line. Went (before (command.Clear slot) (state_of self.now)) (at_line (said_by line) (state_of self.now)) []
            (told (D.seen link.old)) (told (D.seen link.new))) }
        ensures falls { IfErr result (Fails (Falls (before (command.Clear slot) (state_of self.now)) []) (D.seen link.old) (D.seen link.new)) }
        ensures rises { Within 58 (D.seen link.old) (D.seen link.new) }
        ensures never { IfErr result (NeverGivesUp (D.seen link.old)) }
        ensures keeps { Goes (λ _. AttachedAt self.now.hart) (D.seen link.old) (D.seen link.new) result }
    {
        match meet(link, &self.target, self.hart, self.known)? {
            Met::Says(line) => Ok(line),
            Met::At(halted) => freed_line(link, &halted, slot),
        }
    }

    /// Makes up to so many single steps, and says where the hart stands.
    pub(crate) fn step<D: Dmi>(&self, link: &mut D, count: u16) -> Result<Line, Failure>
        requires serving { Attached (D.seen link.old) }
        requires knows { Knows self.now.known self.now.hart (D.seen link.old).far }
        ensures went { IfOk result (λ line. Went (before (command.Step count) (state_of self.now)) (at_line (said_by line) (state_of self.now)) []
            (told (D.seen link.old)) (told (D.seen link.new))) }
        ensures falls { IfErr result (Fails (Falls (before (command.Step count) (state_of self.now)) []) (D.seen link.old) (D.seen link.new)) }
        ensures whole { IfOk result (λ line. says_step line ≡ true → StandsStepped self.now.hart (D.seen link.new).far) }
        ensures rises { Within (50 * count + 547) (D.seen link.old) (D.seen link.new) }
        ensures never { IfErr result (NeverGivesUp (D.seen link.old)) }
        ensures keeps { Goes (λ _. AttachedAt self.now.hart) (D.seen link.old) (D.seen link.new) result }
    {
        match meet(link, &self.target, self.hart, self.known)? {
            Met::Says(line) => Ok(line),
            Met::At(halted) => stepped_line(link, halted, count, self.known),
        }
    }

    /// Lets the hart go.
    pub(crate) fn resume<D: Dmi>(&self, link: &mut D) -> Result<Line, Failure>
        requires serving { Attached (D.seen link.old) }
        requires knows { Knows self.now.known self.now.hart (D.seen link.old).far }
        ensures went { IfOk result (λ line. Went (before (command.Resume) (state_of self.now)) (at_line (said_by line) (state_of self.now)) []
            (told (D.seen link.old)) (told (D.seen link.new))) }
        ensures falls { IfErr result (Fails (Falls (before (command.Resume) (state_of self.now)) []) (D.seen link.old) (D.seen link.new)) }
        ensures rises { Within 797 (D.seen link.old) (D.seen link.new) }
        ensures never { IfErr result (NeverGivesUp (D.seen link.old)) }
        ensures keeps { Goes (λ _. AttachedAt self.now.hart) (D.seen link.old) (D.seen link.new) result }
    {
        match meet(link, &self.target, self.hart, self.known)? {
            Met::Says(line) => Ok(line),
            Met::At(halted) => let_go_line(link, halted, self.known),
        }
    }

    /// Stores a value so many times from an address upwards.
    pub(crate) fn write<D: Dmi>(
        &self,
        link: &mut D,
        size: Size,
        address: u64,
        value: u64,
        count: u16,
    ) -> Result<Line, Failure>
        requires block { IsBlock (count_of size) address count }
        requires serving { Attached (D.seen link.old) }
        requires knows { Knows self.now.known self.now.hart (D.seen link.old).far }
        ensures went { IfOk result
            (λ line. Went (before (command.Write size address value count) (state_of self.now)) (at_line (said_by line) (state_of self.now)) []
            (told (D.seen link.old)) (told (D.seen link.new))) }
        ensures falls { IfErr result (Fails (Falls (before (command.Write size address value count) (state_of self.now)) [])
            (D.seen link.old) (D.seen link.new)) }
        ensures knows { OnOk result (Knows (known_by self.now.path self.now.known) self.now.hart (D.seen link.new).far) }
        ensures rises { Within (store_rises count + 2) (D.seen link.old) (D.seen link.new) }
        ensures never { IfErr result (NeverGivesUp (D.seen link.old)) }
        ensures keeps { Goes (λ _. Attached) (D.seen link.old) (D.seen link.new) result }
    {
        match self.reach(link)? {
            Reached::Says(line) => Ok(line),
            Reached::By(reach) => written_line(link, &reach, size, address, value, count),
        }
    }

    /// Chooses the way on which memory is reached.
    pub(crate) fn choose(&mut self, path: Path) -> Line
        ensures line { said_by result ≡ Via path }
        ensures state { state_of self.new ≡ record (state_of self.old) { path = path } }
        ensures known { self.new.known ≡ self.old.known }
    {
        self.path = path;
        Line::Via(path)
    }
}
