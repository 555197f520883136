//! A session that loads a file first over a wire, and the end of its stream.

ghost use Rattle.std.specs.Prelude.{◌≡◌, ◌≤◌};
ghost use Rattle.debug_model.specs.Dmi.{CanOperate};
ghost use Rattle.debug_model.specs.Told.{IsAsLoaded, IsRead};
ghost use Rattle.elf_load.specs.Elf.{ReadsAs};
ghost use Rattle.elf_session.specs.Budget.{ElfWithinBudget};
ghost use Rattle.elf_session.specs.Loading.{elf_plan};
ghost use Rattle.probe_session.specs.Causes.{EndCaused, SinkCaused};
ghost use Rattle.probe_session.specs.Never.{EndsInTime};
ghost use Rattle.probe_session.specs.Scripts.{EndedBy};
ghost use Rattle.probe_session.specs.Transcribed.{TranscribedBy};
ghost use Rattle.wire_session.specs.Budget.{slack_of_wire};
ghost use Rattle.wire_session.specs.Closing.{IsOfRegister};
ghost use Rattle.wire_session.specs.Session.{LeavesWire, told_by, told_by_scan};
ghost use Rattle.wire_session.specs.WireSession.{IsTimed, WireSessionBy};

use crate::session::run_elf;
use debug_model::{Scan, Script, Wire};
use elf_load::Elf;
use jt_base::Sink;
use probe_dmi::Link;
use probe_scan::Scanner;
use probe_session::Ended;
use wire_session::{end_stream, know_ranges};

/// Loads the program of a file that was read over these scans, runs a script behind it, puts their lines, and hands the scans back. It ends no stream, and takes
/// no memory.
///
/// Where they tell their chip, that is as it was loaded, and an operation may be made on it.
pub fn run_elf_over_scan<S: Scan, K: Sink>(
    scan: S,
    elf: &Elf,
    file: &[u8],
    script: &Script,
    out: &mut K,
) -> (Ended, S)
    requires link { CanOperate (S.seen scan).far }
    requires loaded { IsAsLoaded (S.seen scan).far }
    requires read { ReadsAs file.now elf.now }
    ensures ended { EndedBy (elf_plan file.now script.now) (S.seen scan).fault_count (S.seen result.1).fault_count (told_by_scan (S.seen scan))
        (told_by_scan (S.seen result.1)) (K.fault_count out.old) (K.fault_count out.new) (K.contents out.old)
        (K.contents out.new) result.0 }
    ensures cause { EndCaused (S.seen scan).fault_count (S.seen result.1).fault_count (S.seen result.1).far result.0 }
    ensures sink_cause { SinkCaused (K.fault_count out.old) (K.fault_count out.new) result.0 }
    ensures transcribed { TranscribedBy (elf_plan file.now script.now) (K.contents out.old) (K.contents out.new) (S.seen scan).far
        (S.seen result.1).far result.0 }
    ensures rises { ElfWithinBudget (S.seen scan).fixed.slack file.now script.now (S.seen scan).far (S.seen result.1).far }
    ensures never { EndsInTime (S.seen scan).far result.0 }
    ensures leaves { LeavesWire (S.seen result.1).far result.0 }
    ensures later { (S.seen scan).fault_count ≤ (S.seen result.1).fault_count }
    ensures fixed { (S.seen result.1).fixed ≡ (S.seen scan).fixed }
    ensures sink_later { K.fault_count out.old ≤ K.fault_count out.new }
{
    let mut link = Link::paced(scan);
    let ended = run_elf(&mut link, elf, file, script, out);
    (ended, link.into_scan())
}

/// The same over this wire, which is handed back: what becomes of a wire that is only lent is known where it is lent.
fn run_elf_over<W: Wire, K: Sink>(
    wire: W,
    elf: &Elf,
    file: &[u8],
    script: &Script,
    out: &mut K,
) -> (Ended, W)
    requires link { CanOperate (W.far wire) }
    requires loaded { IsAsLoaded (W.far wire) }
    requires read { ReadsAs file.now elf.now }
    ensures ended { EndedBy (elf_plan file.now script.now) (W.fault_count wire) (W.fault_count result.1) (told_by (W.far wire) (W.coming wire))
        (told_by (W.far result.1) (W.coming result.1)) (K.fault_count out.old) (K.fault_count out.new) (K.contents out.old)
        (K.contents out.new) result.0 }
    ensures cause { EndCaused (W.fault_count wire) (W.fault_count result.1) (W.far result.1) result.0 }
    ensures sink_cause { SinkCaused (K.fault_count out.old) (K.fault_count out.new) result.0 }
    ensures transcribed { TranscribedBy (elf_plan file.now script.now) (K.contents out.old) (K.contents out.new) (W.far wire) (W.far result.1)
        result.0 }
    ensures rises { ElfWithinBudget slack_of_wire file.now script.now (W.far wire) (W.far result.1) }
    ensures never { EndsInTime (W.far wire) result.0 }
    ensures leaves { LeavesWire (W.far result.1) result.0 }
    ensures later { W.fault_count wire ≤ W.fault_count result.1 }
    ensures ties { W.ties result.1 ≡ W.ties wire }
    ensures sink_later { K.fault_count out.old ≤ K.fault_count out.new }
{
    let (ended, scanner) = run_elf_over_scan(Scanner::new(wire), elf, file, script, out);
    (ended, scanner.into_wire())
}

/// Loads the program of a file that was read over any wire, runs a script behind it, puts their lines, and ends the stream by `Q`, alone, but not behind a fault
/// of the wire. It takes no memory.
///
/// Where the wire tells its chip, that is as it was loaded, and no answer is unread.
pub fn run_elf_session<W: Wire, K: Sink>(
    wire: &mut W,
    elf: &Elf,
    file: &[u8],
    script: &Script,
    out: &mut K,
) -> Ended
    requires loaded { IsAsLoaded (W.far wire.old) }
    requires answered { IsRead (W.far wire.old) }
    requires read { ReadsAs file.now elf.now }
    ensures ran { IsTimed (W.ties wire.old) (W.far wire.old)
        → IsTimed (W.ties wire.new) (W.far wire.new)
        → WireSessionBy (elf_plan file.now script.now)
        (record { far = W.far wire.old; coming = W.coming wire.old; faults = W.fault_count wire.old })
        (record { far = W.far wire.new; coming = W.coming wire.new; faults = W.fault_count wire.new })
        (record { printed = K.contents out.old; faults = K.fault_count out.old })
        (record { printed = K.contents out.new; faults = K.fault_count out.new })
        result }
    ensures rises { ElfWithinBudget slack_of_wire file.now script.now (W.far wire.old) (W.far wire.new) }
    ensures never { EndsInTime (W.far wire.old) result }
    ensures of_register { IsOfRegister result }
    ensures sink_cause { SinkCaused (K.fault_count out.old) (K.fault_count out.new) result }
    ensures ties { W.ties wire.new ≡ W.ties wire.old }
    ensures sink_later { K.fault_count out.old ≤ K.fault_count out.new }
{
    know_ranges(script);
    let (ended, _lent) = run_elf_over(&mut *wire, elf, file, script, out);
    end_stream(wire, ended)
}
