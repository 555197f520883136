//! A whole session.

ghost use Rattle.std.specs.Prelude.{◌≡◌, ◌≤◌, true, All};
ghost use Rattle.debug_model.specs.Command.{IsWithinRanges};
ghost use Rattle.debug_model.specs.Told.{IsAsLoaded};
ghost use Rattle.probe_session.specs.Causes.{EndCaused, SinkCaused};
ghost use Rattle.probe_session.specs.Commands.{state_of};
ghost use Rattle.probe_session.specs.Known.{Knows};
ghost use Rattle.probe_session.specs.Links.{Attached};
ghost use Rattle.probe_session.specs.Scripts.{EndedAs, FollowedAs, LeavesLink, ended_unopened, graded};
ghost use Rattle.probe_session.specs.Transcribed.{TranscribedAs};
ghost use Rattle.probe_session.specs.UnderWay.{EndedUpTo, FollowedUpTo};
ghost use Rattle.debug_model.specs.Kept.{CanCall};
ghost use Rattle.probe_run.specs.Told.{told};
ghost use Rattle.debug_model.specs.Rises.{Within};
ghost use Rattle.probe_session.specs.Never.{EndsInTime};
ghost use Rattle.probe_session.specs.Budget.{commands_rises, script_rises};

use crate::acted::Acted;
use crate::ended::Ended;
use crate::fault::LostCause;
use crate::session::Session;
use debug_model::{Command, Dmi, DmiFault, Script};
use jt_base::Sink;
use probe_run::ConnectFault;

/// How a session ends at its script's end.
pub fn finished(has_errors: bool) -> Ended
    ensures { result ≡ graded has_errors }
{
    if has_errors {
        Ended::WithErrors
    } else {
        Ended::Clean
    }
}

/// How a session ends whose chip was not opened.
pub fn unopened(fault: ConnectFault) -> Ended
    ensures { result ≡ ended_unopened fault }
{
    match fault {
        ConnectFault::Dmi(DmiFault::Wire(why)) => Ended::Wire(why),
        ConnectFault::Dmi(DmiFault::Failed) => Ended::Lost(LostCause::DmiFailed),
        ConnectFault::Dmi(DmiFault::StillBusy) => Ended::Lost(LostCause::StillBusy),
        _ => Ended::Target(fault),
    }
}

/// Does the commands in order, up to `end`, and puts their lines.
pub fn run_commands<D: Dmi, K: Sink>(
    begun: Session,
    link: &mut D,
    commands: &[Command],
    out: &mut K,
) -> Ended
    requires within { All IsWithinRanges commands.now }
    requires serving { Attached (D.seen link.old) }
    requires knows { Knows begun.known begun.hart (D.seen link.old).far }
    ensures followed { FollowedAs commands.now (state_of begun) (D.seen link.old).fault_count (D.seen link.new).fault_count
        (told (D.seen link.old)) (told (D.seen link.new)) (K.fault_count out.old)
        (K.fault_count out.new) (K.contents out.old) (K.contents out.new) result }
    ensures up_to { FollowedUpTo commands.now (state_of begun) (D.seen link.old).fault_count (D.seen link.new).fault_count
        (told (D.seen link.old)) (told (D.seen link.new)) (K.fault_count out.old)
        (K.fault_count out.new) (K.contents out.old) (K.contents out.new) result }
    ensures rises { Within (commands_rises commands.now) (D.seen link.old) (D.seen link.new) }
    ensures never { EndsInTime (D.seen link.old).far result }
    ensures leaves { LeavesLink result (D.seen link.new) }
    ensures later { (D.seen link.old).fault_count ≤ (D.seen link.new).fault_count }
    ensures fixed { (D.seen link.new).fixed ≡ (D.seen link.old).fixed }
    ensures sink_later { K.fault_count out.old ≤ K.fault_count out.new }
{
    let mut session = begun;
    let mut has_errors = false;
    let mut rest = commands;
    'commands: while let Some((command, after)) = rest.split_first() {
        match session.act(link, command, out) {
            Acted::Done => rest = after,
            Acted::Error => {
                has_errors = true;
                rest = after;
            }
            Acted::End => return finished(has_errors),
            Acted::Wire(fault) => return Ended::Wire(fault),
            Acted::Lost(cause) => return Ended::Lost(cause),
            Acted::Sink => return Ended::Sink,
        }
    }
    finished(has_errors)
}

/// Opens the chip, does the commands of a script in order, up to `end`, and puts the lines of each as they are whole.
///
/// The link is alive; where it tells its chip, that is as it was loaded, and the link is ready for an operation. It takes no memory.
pub fn run_script<D: Dmi, K: Sink>(link: &mut D, script: &Script, out: &mut K) -> Ended
    requires callable { CanCall (D.seen link.old) }
    requires loaded { IsAsLoaded (D.seen link.old).far }
    ensures ended { EndedAs script.now (D.seen link.old).fault_count (D.seen link.new).fault_count (told (D.seen link.old))
        (told (D.seen link.new)) (K.fault_count out.old) (K.fault_count out.new) (K.contents out.old)
        (K.contents out.new) result }
    ensures cause { EndCaused (D.seen link.old).fault_count (D.seen link.new).fault_count (D.seen link.new).far result }
    ensures sink_cause { SinkCaused (K.fault_count out.old) (K.fault_count out.new) result }
    ensures transcribed { TranscribedAs script.now (K.contents out.old) (K.contents out.new) (D.seen link.old).far (D.seen link.new).far result }
    ensures up_to { EndedUpTo script.now (D.seen link.old).fault_count (D.seen link.new).fault_count (told (D.seen link.old))
        (told (D.seen link.new)) (K.fault_count out.old) (K.fault_count out.new) (K.contents out.old)
        (K.contents out.new) result }
    ensures rises { Within (script_rises script.now) (D.seen link.old) (D.seen link.new) }
    ensures never { EndsInTime (D.seen link.old).far result }
    ensures leaves { LeavesLink result (D.seen link.new) }
    ensures later { (D.seen link.old).fault_count ≤ (D.seen link.new).fault_count }
    ensures fixed { (D.seen link.new).fixed ≡ (D.seen link.old).fixed }
    ensures sink_later { K.fault_count out.old ≤ K.fault_count out.new }
{
    match Session::begin(link) {
        Ok(session) => run_commands(session, link, script.commands(), out),
        Err(fault) => unopened(fault),
    }
}
