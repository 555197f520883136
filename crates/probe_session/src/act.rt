//! One command of a session.

ghost use Rattle.std.specs.Prelude.{◌≡◌, ◌≤◌, IfOk, IfErr, OnOk};
ghost use Rattle.debug_model.specs.Command.{IsWithinRanges};
ghost use Rattle.probe_session.specs.Acts.{ActedAs, AttachedAfter};
ghost use Rattle.probe_session.specs.Commands.{before, state_of};
ghost use Rattle.probe_session.specs.Goes.{CalmNext, Fell};
ghost use Rattle.probe_session.specs.Known.{Knows, KnowsAfter};
ghost use Rattle.probe_session.specs.Links.{Attached, Goes};
ghost use Rattle.probe_run.specs.Told.{told};
ghost use Rattle.debug_model.specs.Rises.{Within};
ghost use Rattle.probe_session.specs.Never.{ActsInTime, NeverGivesUp};
ghost use Rattle.probe_session.specs.Budget.{command_rises};

use crate::acted::Acted;
use crate::fault::Failure;
use crate::known::known_behind;
use crate::session::Session;
use crate::shown::show;
use debug_model::{Command, Dmi};
use jt_base::Sink;

impl Session {
    /// Does a command, and puts the lines of what it shows, unless a call or a line fails.
    fn perform_and_show<D: Dmi, K: Sink>(
        &mut self,
        link: &mut D,
        command: Command,
        out: &mut K,
    ) -> Result<Acted, Failure>
        requires within { IsWithinRanges command }
        requires serving { Attached (D.seen link.old) }
        requires knows { Knows self.old.known self.old.hart (D.seen link.old).far }
        ensures acted { IfOk result (ActedAs command (state_of self.old) (state_of self.new) (D.seen link.old).fault_count (D.seen link.new).fault_count
            (told (D.seen link.old)) (told (D.seen link.new)) (K.fault_count out.old)
            (K.fault_count out.new) (K.contents out.old) (K.contents out.new)) }
        ensures fell { IfErr result (Fell CalmNext (before command (state_of self.old)) (D.seen link.old).fault_count (D.seen link.new).fault_count
            (told (D.seen link.old)) (told (D.seen link.new)) (K.fault_count out.old)
            (K.fault_count out.new) (K.contents out.old) (K.contents out.new)) }
        ensures knows { OnOk result (Knows self.new.known self.new.hart (D.seen link.new).far) }
        ensures rises { Within (command_rises command) (D.seen link.old) (D.seen link.new) }
        ensures never { IfErr result (NeverGivesUp (D.seen link.old)) }
        ensures in_time { IfOk result (ActsInTime (D.seen link.old)) }
        ensures keeps { Goes AttachedAfter (D.seen link.old) (D.seen link.new) result }
        ensures sink_later { K.fault_count out.old ≤ K.fault_count out.new }
    {
        let done = self.perform(link, command)?;
        self.known = known_behind(command, &done, self.hart, self.path, self.known);
        let Some(shown) = done else {
            return Ok(Acted::End);
        };
        if show(link, shown, out)? {
            return Ok(Acted::Error);
        }
        Ok(Acted::Done)
    }

    /// Does a command, which is within its ranges, and puts its lines.
    pub fn act<D: Dmi, K: Sink>(&mut self, link: &mut D, command: &Command, out: &mut K) -> Acted
        requires within { IsWithinRanges command.now }
        requires serving { Attached (D.seen link.old) }
        requires knows { Knows self.old.known self.old.hart (D.seen link.old).far }
        ensures acted { ActedAs command.now (state_of self.old) (state_of self.new) (D.seen link.old).fault_count (D.seen link.new).fault_count
            (told (D.seen link.old)) (told (D.seen link.new)) (K.fault_count out.old)
            (K.fault_count out.new) (K.contents out.old) (K.contents out.new) result }
        ensures serving { AttachedAfter result (D.seen link.new) }
        ensures knows { KnowsAfter result self.new (D.seen link.new).far }
        ensures rises { Within (command_rises command.now) (D.seen link.old) (D.seen link.new) }
        ensures never { ActsInTime (D.seen link.old) result }
        ensures later { (D.seen link.old).fault_count ≤ (D.seen link.new).fault_count }
        ensures fixed { (D.seen link.new).fixed ≡ (D.seen link.old).fixed }
        ensures sink_later { K.fault_count out.old ≤ K.fault_count out.new }
    {
        match self.perform_and_show(link, *command, out) {
            Ok(acted) => acted,
            Err(Failure::Wire(fault)) => Acted::Wire(fault),
            Err(Failure::Lost(cause)) => Acted::Lost(cause),
            Err(Failure::Sink) => Acted::Sink,
        }
    }
}
