//! The commands of a session, by their kind.

ghost use Rattle.std.specs.Prelude.{◌≡◌, ◌≢◌, ◌≤◌, [], false, IfErr, IfOk, OnErr, OnOk};
ghost use Rattle.abstract_debugger.specs.Lines.{text_of};
ghost use Rattle.debug_model.specs.Command.{IsWithinRanges};
ghost use Rattle.debug_model.specs.SoftCommand.{IsSoftCommand};
ghost use Rattle.debug_model.specs.declared.command.Command.TheVariants as command;
ghost use Rattle.debug_model.specs.declared.soft_command.SoftCommand.TheVariants.{Plain};
ghost use Rattle.jt_base.specs.Faults.{Rises};
ghost use Rattle.jt_base.specs.Sink.{GrewByPrefix, grown};
ghost use Rattle.probe_run.specs.Told.{told};
ghost use Rattle.probe_session.specs.declared.fault.Failure.TheVariants as failure;
ghost use Rattle.probe_session.specs.declared.known.Known.TheVariants.{Nothing};
ghost use Rattle.probe_session.specs.Acts.{AttachedAfter};
ghost use Rattle.probe_session.specs.Known.{Knows, KnowsAfter};
ghost use Rattle.probe_session.specs.Links.{Attached, Goes};
ghost use Rattle.probe_session.specs.Said.{said_by};
ghost use Rattle.abstract_debugger.specs.Lines.{is_error};
ghost use Rattle.soft_session.specs.Acts.{ActedLed};
ghost use Rattle.soft_session.specs.Caused.{ActedCaused, LinkCaused, PerformedCaused};
ghost use Rattle.soft_session.specs.Cuts.{CommandCut, CutsOf, at_command};
ghost use Rattle.soft_session.specs.Led.{LineLed, acted_by, acted_failing, soft_state};
ghost use Rattle.soft_session.specs.Untouched.{IsUntouched, Leaves};

use crate::going::{meet_hart, resume, step};
use crate::memory::{dump, read, write};
use debug_model::{Command, Dmi, SoftCommand};
use jt_base::Sink;
use printed_lines::Line;
use probe_session::{Acted, Failure, Met, Session, put_line};
use soft_break::SoftTable;

/// A session with a chip that was opened, and the software breakpoints that it has set there.
#[derive(Drop)]
pub(crate) struct SoftSession {
    pub(crate) session: Session,
    pub(crate) table: SoftTable,
}

/// What became of a command whose line is this.
fn line_put<K: Sink>(out: &mut K, line: &Line) -> Result<Acted, Failure>
    ensures put { OnOk result (K.contents out.new ≡ grown (text_of (said_by line.now)) (K.contents out.old)) }
    ensures acted { IfOk result (λ a. a ≡ acted_by (is_error (said_by line.now))) }
    ensures front { OnErr result (GrewByPrefix (text_of (said_by line.now)) (K.contents out.old) (K.contents out.new)) }
    ensures sink { IfErr result (λ f. f ≡ failure.Sink) }
    ensures cause { OnErr result (Rises (K.fault_count out.old) (K.fault_count out.new)) }
    ensures later { K.fault_count out.old ≤ K.fault_count out.new }
{
    put_line(out, line)?;
    if line.is_error() {
        Ok(Acted::Error)
    } else {
        Ok(Acted::Done)
    }
}

/// What became of a command that put its lines: whether one of them says an error.
fn lines_put(is_wrong: bool) -> Acted
    ensures { result ≡ acted_by is_wrong }
{
    if is_wrong { Acted::Error } else { Acted::Done }
}

/// What became of a command that failed.
fn failed(failure: Failure) -> Acted
    ensures { result ≡ acted_failing failure }
{
    match failure {
        Failure::Wire(fault) => Acted::Wire(fault),
        Failure::Lost(cause) => Acted::Lost(cause),
        Failure::Sink => Acted::Sink,
    }
}

impl SoftSession {
    /// `ebreak off` where a breakpoint is set: an ebreak goes on halting the hart.
    fn keep_ebreak<D: Dmi>(&mut self, link: &mut D) -> Result<Line, Failure>
        requires serving { Attached (D.seen link.old) }
        requires knows { Knows self.old.session.known self.old.session.hart (D.seen link.old).far }
        requires some { self.old.table.addresses ≢ [] }
        ensures led { IfOk result (LineLed (Plain (command.Ebreak false)) self.old self.new (told (D.seen link.old)) (told (D.seen link.new))) }
        ensures cut { IfErr result (CutsOf self.old.table (at_command (Plain (command.Ebreak false)) (soft_state self.old)) (told (D.seen link.old))
            (told (D.seen link.new))) }
        ensures unknown { OnOk result (self.new.session.known ≡ Nothing) }
        ensures caused { IfErr result (LinkCaused (D.seen link.old) (D.seen link.new)) }
        ensures keeps { Goes (λ _. Attached) (D.seen link.old) (D.seen link.new) result }
    {
        match meet_hart(self, link)? {
            Met::Says(line) => Ok(line),
            Met::At(_) => Ok(Line::SoftBreaksAreSet),
        }
    }

    /// A command that the breakpoints do not touch: it is done as in a session without them.
    fn act_as_before<D: Dmi, K: Sink>(
        &mut self,
        link: &mut D,
        command: Command,
        out: &mut K,
    ) -> Acted
        requires within { IsWithinRanges command }
        requires untouched { IsUntouched command }
        requires leaves { Leaves self.old.table.addresses command }
        requires serving { Attached (D.seen link.old) }
        requires knows { Knows self.old.session.known self.old.session.hart (D.seen link.old).far }
        ensures acted { ActedLed (Plain command) self.old self.new (told (D.seen link.old)) (told (D.seen link.new))
            (K.contents out.old) (K.contents out.new) result }
        ensures caused { ActedCaused (D.seen link.old) (D.seen link.new) (K.fault_count out.old) (K.fault_count out.new) result }
        ensures serving { AttachedAfter result (D.seen link.new) }
        ensures knows { KnowsAfter result self.new.session (D.seen link.new).far }
        ensures later { (D.seen link.old).fault_count ≤ (D.seen link.new).fault_count }
        ensures fixed { (D.seen link.new).fixed ≡ (D.seen link.old).fixed }
        ensures sink_later { K.fault_count out.old ≤ K.fault_count out.new }
    {
        self.session.act(link, &command, out)
    }

    /// A command that every script has.
    fn act_plain<D: Dmi, K: Sink>(
        &mut self,
        link: &mut D,
        command: Command,
        out: &mut K,
    ) -> Result<Acted, Failure>
        requires within { IsWithinRanges command }
        requires serving { Attached (D.seen link.old) }
        requires knows { Knows self.old.session.known self.old.session.hart (D.seen link.old).far }
        ensures acted { IfOk result (ActedLed (Plain command) self.old self.new (told (D.seen link.old)) (told (D.seen link.new))
            (K.contents out.old) (K.contents out.new)) }
        ensures cut { IfErr result (CommandCut (Plain command) (soft_state self.old) self.old.table (told (D.seen link.old)) (told (D.seen link.new))
            (K.contents out.old) (K.contents out.new)) }
        ensures caused { PerformedCaused (D.seen link.old) (D.seen link.new) (K.fault_count out.old) (K.fault_count out.new) result }
        ensures keeps { Goes AttachedAfter (D.seen link.old) (D.seen link.new) result }
        ensures knows { IfOk result (λ a. KnowsAfter a self.new.session (D.seen link.new).far) }
        ensures sink_later { K.fault_count out.old ≤ K.fault_count out.new }
    {
        match command {
            Command::Resume => line_put(out, &resume(self, link)?),
            Command::Step(count) => line_put(out, &step(self, link, count)?),
            Command::Read(size, address, count) => {
                Ok(lines_put(read(self, link, size, address, count, out)?))
            }
            Command::Write(size, address, value, count) => {
                line_put(out, &write(self, link, size, address, value, count)?)
            }
            Command::Dump(address, count) => {
                Ok(lines_put(dump(self, link, address, count, out)?))
            }
            Command::Ebreak(is_on) => {
                if is_on || self.table.patches().is_empty() {
                    return Ok(self.act_as_before(link, command, out));
                }
                line_put(out, &self.keep_ebreak(link)?)
            }
            Command::End => {
                self.close(link)?;
                Ok(Acted::End)
            }
            _ => Ok(self.act_as_before(link, command, out)),
        }
    }

    /// A command, and its lines.
    fn act_or_fail<D: Dmi, K: Sink>(
        &mut self,
        link: &mut D,
        command: SoftCommand,
        out: &mut K,
    ) -> Result<Acted, Failure>
        requires within { IsSoftCommand command }
        requires serving { Attached (D.seen link.old) }
        requires knows { Knows self.old.session.known self.old.session.hart (D.seen link.old).far }
        ensures acted { IfOk result (ActedLed command self.old self.new (told (D.seen link.old)) (told (D.seen link.new))
            (K.contents out.old) (K.contents out.new)) }
        ensures cut { IfErr result (CommandCut command (soft_state self.old) self.old.table (told (D.seen link.old)) (told (D.seen link.new))
            (K.contents out.old) (K.contents out.new)) }
        ensures caused { PerformedCaused (D.seen link.old) (D.seen link.new) (K.fault_count out.old) (K.fault_count out.new) result }
        ensures keeps { Goes AttachedAfter (D.seen link.old) (D.seen link.new) result }
        ensures knows { IfOk result (λ a. KnowsAfter a self.new.session (D.seen link.new).far) }
        ensures sink_later { K.fault_count out.old ≤ K.fault_count out.new }
    {
        match command {
            SoftCommand::Plain(plain) => self.act_plain(link, plain, out),
            SoftCommand::Soft(at) => line_put(out, &self.set(link, at)?),
            SoftCommand::Unsoft(at) => line_put(out, &self.clear(link, at)?),
        }
    }

    /// Does a command, which is within its ranges, and puts its lines.
    pub(crate) fn act<D: Dmi, K: Sink>(
        &mut self,
        link: &mut D,
        command: &SoftCommand,
        out: &mut K,
    ) -> Acted
        requires within { IsSoftCommand command.now }
        requires serving { Attached (D.seen link.old) }
        requires knows { Knows self.old.session.known self.old.session.hart (D.seen link.old).far }
        ensures acted { ActedLed command.now self.old self.new (told (D.seen link.old)) (told (D.seen link.new))
            (K.contents out.old) (K.contents out.new) result }
        ensures caused { ActedCaused (D.seen link.old) (D.seen link.new) (K.fault_count out.old) (K.fault_count out.new) result }
        ensures serving { AttachedAfter result (D.seen link.new) }
        ensures knows { KnowsAfter result self.new.session (D.seen link.new).far }
        ensures later { (D.seen link.old).fault_count ≤ (D.seen link.new).fault_count }
        ensures fixed { (D.seen link.new).fixed ≡ (D.seen link.old).fixed }
        ensures sink_later { K.fault_count out.old ≤ K.fault_count out.new }
    {
        match self.act_or_fail(link, *command, out) {
            Ok(acted) => acted,
            Err(failure) => failed(failure),
        }
    }
}
