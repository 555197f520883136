//! A whole session that loads a file first.

ghost use Rattle.std.specs.Prelude.{◌≡◌, ◌≤◌, ◌+◌, All};
ghost use Rattle.abstract_debugger.specs.Debugger.{first_state};
ghost use Rattle.debug_model.specs.Command.{IsWithinRanges};
ghost use Rattle.debug_model.specs.Kept.{CanCall};
ghost use Rattle.debug_model.specs.Rises.{Within};
ghost use Rattle.debug_model.specs.Told.{IsAsLoaded};
ghost use Rattle.elf_load.specs.Elf.{ReadsAs};
ghost use Rattle.elf_session.specs.Budget.{elf_rises, loading_rises};
ghost use Rattle.elf_session.specs.Loading.{elf_plan};
ghost use Rattle.probe_run.specs.Told.{told};
ghost use Rattle.probe_session.specs.Budget.{commands_rises};
ghost use Rattle.probe_session.specs.Causes.{EndCaused, SinkCaused};
ghost use Rattle.probe_session.specs.Commands.{state_of};
ghost use Rattle.probe_session.specs.Known.{Knows};
ghost use Rattle.probe_session.specs.Links.{Attached};
ghost use Rattle.probe_session.specs.Never.{EndsInTime};
ghost use Rattle.probe_session.specs.Scripts.{EndedBy, FollowedBy, LeavesLink};
ghost use Rattle.probe_session.specs.Transcribed.{TranscribedBy};
ghost use Rattle.probe_session.specs.declared.known.Known.TheVariants as known;

use crate::loading::load;
use debug_model::{Command, Dmi, Script};
use elf_load::Elf;
use jt_base::Sink;
use probe_session::{Ended, Failure, Session, run_commands, unopened};

/// Loads the program of a file that was read, and then does the commands in order, up to `end`, and puts their lines.
fn load_and_run<D: Dmi, K: Sink>(
    begun: Session,
    link: &mut D,
    elf: &Elf,
    file: &[u8],
    commands: &[Command],
    out: &mut K,
) -> Ended
    requires first { state_of begun ≡ first_state }
    requires known { begun.known ≡ known.Selected }
    requires within { All IsWithinRanges commands.now }
    requires serving { Attached (D.seen link.old) }
    requires knows { Knows begun.known begun.hart (D.seen link.old).far }
    requires read { ReadsAs file.now elf.now }
    ensures followed { FollowedBy (elf_plan file.now commands.now) (D.seen link.old).fault_count (D.seen link.new).fault_count
        (told (D.seen link.old)) (told (D.seen link.new)) (K.fault_count out.old)
        (K.fault_count out.new) (K.contents out.old) (K.contents out.new) result }
    ensures rises { Within (loading_rises file.now + commands_rises commands.now) (D.seen link.old) (D.seen link.new) }
    ensures never { EndsInTime (D.seen link.old).far result }
    ensures leaves { LeavesLink result (D.seen link.new) }
    ensures later { (D.seen link.old).fault_count ≤ (D.seen link.new).fault_count }
    ensures fixed { (D.seen link.new).fixed ≡ (D.seen link.old).fixed }
    ensures sink_later { K.fault_count out.old ≤ K.fault_count out.new }
{
    match load(link, &begun.target, begun.known, elf, file, out) {
        Ok(true) => Ended::WithErrors,
        Ok(false) => run_commands(begun, link, commands, out),
        Err(Failure::Wire(fault)) => Ended::Wire(fault),
        Err(Failure::Lost(cause)) => Ended::Lost(cause),
        Err(Failure::Sink) => Ended::Sink,
    }
}

/// Opens the chip, loads the program of a file that was read, lets hart 0 begin at its entry, and then does the commands of a script in order, up to `end`, and
/// puts the lines of each as they are whole. Where hart 0 is not halted, or memory refuses a part of the program, a line says so and no script runs.
///
/// The link is alive; where it tells its chip, that is as it was loaded, and the link is ready for an operation. It takes no memory.
pub fn run_elf<D: Dmi, K: Sink>(
    link: &mut D,
    elf: &Elf,
    file: &[u8],
    script: &Script,
    out: &mut K,
) -> Ended
    requires callable { CanCall (D.seen link.old) }
    requires loaded { IsAsLoaded (D.seen link.old).far }
    requires read { ReadsAs file.now elf.now }
    ensures ended { EndedBy (elf_plan file.now script.now) (D.seen link.old).fault_count (D.seen link.new).fault_count
        (told (D.seen link.old)) (told (D.seen link.new)) (K.fault_count out.old) (K.fault_count out.new) (K.contents out.old)
        (K.contents out.new) result }
    ensures cause { EndCaused (D.seen link.old).fault_count (D.seen link.new).fault_count (D.seen link.new).far result }
    ensures sink_cause { SinkCaused (K.fault_count out.old) (K.fault_count out.new) result }
    ensures transcribed { TranscribedBy (elf_plan file.now script.now) (K.contents out.old) (K.contents out.new) (D.seen link.old).far
        (D.seen link.new).far result }
    ensures rises { Within (elf_rises file.now script.now) (D.seen link.old) (D.seen link.new) }
    ensures never { EndsInTime (D.seen link.old).far result }
    ensures leaves { LeavesLink result (D.seen link.new) }
    ensures later { (D.seen link.old).fault_count ≤ (D.seen link.new).fault_count }
    ensures fixed { (D.seen link.new).fixed ≡ (D.seen link.old).fixed }
    ensures sink_later { K.fault_count out.old ≤ K.fault_count out.new }
{
    match Session::begin(link) {
        Ok(session) => load_and_run(session, link, elf, file, script.commands(), out),
        Err(fault) => unopened(fault),
    }
}
