//! A whole session.

ghost use Rattle.std.specs.Prelude.{◌≡◌, ◌≤◌, true, All};
ghost use Rattle.debug_model.specs.Kept.{CanCall};
ghost use Rattle.debug_model.specs.SoftCommand.{IsSoftCommand};
ghost use Rattle.debug_model.specs.Told.{IsAsLoaded};
ghost use Rattle.probe_run.specs.Told.{told};
ghost use Rattle.probe_session.specs.Causes.{EndCaused, SinkCaused};
ghost use Rattle.probe_session.specs.Known.{Knows};
ghost use Rattle.probe_session.specs.Links.{Attached};
ghost use Rattle.probe_session.specs.Scripts.{LeavesLink};
ghost use Rattle.soft_session.specs.Acts.{FollowedLed, ended_failing};
ghost use Rattle.soft_session.specs.Transcribed.{SoftTranscribedAs};
ghost use Rattle.wire_session.specs.Closing.{IsOfRegister};

use crate::session::SoftSession;
use debug_model::{Dmi, SoftCommand, SoftScript};
use jt_base::Sink;
use probe_session::{Acted, Ended, Failure, Session, finished, unopened};
use soft_break::SoftTable;

/// How a session ends whose breakpoints could not be taken out.
fn ended_by(failure: Failure) -> Ended
    ensures { result ≡ ended_failing failure }
{
    match failure {
        Failure::Wire(fault) => Ended::Wire(fault),
        Failure::Lost(cause) => Ended::Lost(cause),
        Failure::Sink => Ended::Sink,
    }
}

/// Does the commands in order, up to `end`, and puts their lines; behind them every breakpoint is taken out.
fn run_commands<D: Dmi, K: Sink>(
    begun: SoftSession,
    link: &mut D,
    commands: &[SoftCommand],
    out: &mut K,
) -> Ended
    requires within { All IsSoftCommand commands.now }
    requires serving { Attached (D.seen link.old) }
    requires knows { Knows begun.session.known begun.session.hart (D.seen link.old).far }
    ensures followed { FollowedLed commands.now begun (told (D.seen link.old)) (told (D.seen link.new)) (K.contents out.old) (K.contents out.new) result }
    ensures cause { EndCaused (D.seen link.old).fault_count (D.seen link.new).fault_count (D.seen link.new).far result }
    ensures sink_cause { SinkCaused (K.fault_count out.old) (K.fault_count out.new) result }
    ensures leaves { LeavesLink result (D.seen link.new) }
    ensures later { (D.seen link.old).fault_count ≤ (D.seen link.new).fault_count }
    ensures fixed { (D.seen link.new).fixed ≡ (D.seen link.old).fixed }
    ensures sink_later { K.fault_count out.old ≤ K.fault_count out.new }
{
    let mut soft = begun;
    let mut has_errors = false;
    let mut rest = commands;
    'commands: while let Some((command, after)) = rest.split_first() {
        match soft.act(link, command, out) {
            Acted::Done => rest = after,
            Acted::Error => {
                has_errors = true;
                rest = after;
            }
            Acted::End => return finished(has_errors),
            Acted::Wire(fault) => return Ended::Wire(fault),
            Acted::Lost(cause) => return Ended::Lost(cause),
            Acted::Sink => return Ended::Sink,
        }
    }
    match soft.close(link) {
        Ok(()) => finished(has_errors),
        Err(failure) => ended_by(failure),
    }
}

/// Opens the chip, does the commands of a script in order, up to `end`, and puts the lines of each as they are whole. Behind them every software breakpoint
/// is taken out.
///
/// The link is alive; where it tells its chip, that is as it was loaded, and the link is ready for an operation. It takes no memory.
pub fn run_soft<D: Dmi, K: Sink>(link: &mut D, script: &SoftScript, out: &mut K) -> Ended
    requires callable { CanCall (D.seen link.old) }
    requires loaded { IsAsLoaded (D.seen link.old).far }
    ensures cause { EndCaused (D.seen link.old).fault_count (D.seen link.new).fault_count (D.seen link.new).far result }
    ensures sink_cause { SinkCaused (K.fault_count out.old) (K.fault_count out.new) result }
    ensures of_register { IsOfRegister result }
    ensures transcribed { SoftTranscribedAs script.now (K.contents out.old) (K.contents out.new) (D.seen link.old).far (D.seen link.new).far result }
    ensures leaves { LeavesLink result (D.seen link.new) }
    ensures later { (D.seen link.old).fault_count ≤ (D.seen link.new).fault_count }
    ensures fixed { (D.seen link.new).fixed ≡ (D.seen link.old).fixed }
    ensures sink_later { K.fault_count out.old ≤ K.fault_count out.new }
{
    let commands = script.commands();
    match Session::begin(link) {
        Ok(session) => {
            let begun = SoftSession {
                session,
                table: SoftTable::new(),
            };
            run_commands(begun, link, commands, out)
        }
        Err(fault) => unopened(fault),
    }
}
