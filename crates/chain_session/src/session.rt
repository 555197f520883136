//! A session over a wire to a chain, and the end of its stream.

ghost use Rattle.std.specs.Prelude.{◌≡◌, ◌≤◌, Some};
ghost use Rattle.debug_model.specs.Dmi.{CanOperate};
ghost use Rattle.debug_model.specs.Told.{IsAsLoaded, IsRead};
ghost use Rattle.wire_session.specs.Budget.{WithinBudget};
ghost use Rattle.wire_session.specs.Closing.{IsOfRegister};
ghost use Rattle.wire_session.specs.Session.{LeavesWire, told_by};
ghost use Rattle.wire_session.specs.WireSession.{IsTimed, WireSession, WireUpTo};
ghost use Rattle.probe_session.specs.Causes.{EndCaused, SinkCaused};
ghost use Rattle.probe_session.specs.Never.{EndsInTime};
ghost use Rattle.probe_session.specs.Scripts.{EndedAs};
ghost use Rattle.probe_session.specs.Transcribed.{TranscribedAs};
ghost use Rattle.probe_session.specs.UnderWay.{EndedUpTo};
ghost use Rattle.chain_scan.specs.Bypassed.{IsPlannedTold};
ghost use Rattle.chain_scan.specs.ChainSeen.{chain_slack};
ghost use Rattle.chain_scan.specs.Told.{chip_told};

use crate::stream_end::end_chain_stream;
use chain_scan::{ChainPlan, ChainScanner, ChainWire};
use debug_model::Script;
use jt_base::Sink;
use probe_session::Ended;
use wire_session::{know_ranges, run_over_scan};

/// Runs a script over this wire to a chain of this plan, puts its lines, and hands the wire back: what becomes of a wire that is only lent is known where it
/// is lent.
fn run_over<W: ChainWire, K: Sink>(
    wire: W,
    plan: ChainPlan,
    script: &Script,
    out: &mut K,
) -> (Ended, W)
    requires planned { IsPlannedTold plan (W.far wire) }
    requires link { CanOperate (chip_told (W.far wire)) }
    requires loaded { IsAsLoaded (chip_told (W.far wire)) }
    ensures ended { EndedAs script.now (W.fault_count wire) (W.fault_count result.1) (told_by (chip_told (W.far wire)) (W.coming wire))
        (told_by (chip_told (W.far result.1)) (W.coming result.1)) (K.fault_count out.old) (K.fault_count out.new) (K.contents out.old)
        (K.contents out.new) result.0 }
    ensures cause { EndCaused (W.fault_count wire) (W.fault_count result.1) (chip_told (W.far result.1)) result.0 }
    ensures sink_cause { SinkCaused (K.fault_count out.old) (K.fault_count out.new) result.0 }
    ensures transcribed { TranscribedAs script.now (K.contents out.old) (K.contents out.new) (chip_told (W.far wire)) (chip_told (W.far result.1))
        result.0 }
    ensures up_to { EndedUpTo script.now (W.fault_count wire) (W.fault_count result.1) (told_by (chip_told (W.far wire)) (W.coming wire))
        (told_by (chip_told (W.far result.1)) (W.coming result.1)) (K.fault_count out.old) (K.fault_count out.new) (K.contents out.old)
        (K.contents out.new) result.0 }
    ensures rises { WithinBudget (Some chain_slack) script.now (chip_told (W.far wire)) (chip_told (W.far result.1)) }
    ensures never { EndsInTime (chip_told (W.far wire)) result.0 }
    ensures leaves { LeavesWire (chip_told (W.far result.1)) result.0 }
    ensures later { W.fault_count wire ≤ W.fault_count result.1 }
    ensures ties { W.ties result.1 ≡ W.ties wire }
    ensures sink_later { K.fault_count out.old ≤ K.fault_count out.new }
{
    let (ended, scanner) = run_over_scan(ChainScanner::new(wire, plan), script, out);
    (ended, scanner.into_wire())
}

/// Runs a script on the chip of a chain over any wire, puts its lines, and ends the stream by `Q`, alone, but not behind a fault of the wire. It takes no memory.
///
/// Where the wire tells its chain, that has the TAPs of the plan, all in one state; its chip is as it was loaded, and no answer is unread.
#[tactic(auto, using(wire_session::proofs::Loads::loaded_operates))]
pub fn run_chain_session<W: ChainWire, K: Sink>(
    wire: &mut W,
    plan: ChainPlan,
    script: &Script,
    out: &mut K,
) -> Ended
    requires planned { IsPlannedTold plan (W.far wire.old) }
    requires loaded { IsAsLoaded (chip_told (W.far wire.old)) }
    requires read { IsRead (chip_told (W.far wire.old)) }
    ensures ran { IsTimed (W.ties wire.old) (chip_told (W.far wire.old))
        → IsTimed (W.ties wire.new) (chip_told (W.far wire.new))
        → WireSession script.now
        (record { far = chip_told (W.far wire.old); coming = W.coming wire.old; faults = W.fault_count wire.old })
        (record { far = chip_told (W.far wire.new); coming = W.coming wire.new; faults = W.fault_count wire.new })
        (record { printed = K.contents out.old; faults = K.fault_count out.old })
        (record { printed = K.contents out.new; faults = K.fault_count out.new })
        result }
    ensures up_to { WireUpTo script.now
        (record { far = chip_told (W.far wire.old); coming = W.coming wire.old; faults = W.fault_count wire.old })
        (record { far = chip_told (W.far wire.new); coming = W.coming wire.new; faults = W.fault_count wire.new })
        (record { printed = K.contents out.old; faults = K.fault_count out.old })
        (record { printed = K.contents out.new; faults = K.fault_count out.new })
        result }
    ensures rises { WithinBudget (Some chain_slack) script.now (chip_told (W.far wire.old)) (chip_told (W.far wire.new)) }
    ensures never { EndsInTime (chip_told (W.far wire.old)) result }
    ensures of_register { IsOfRegister result }
    ensures sink_cause { SinkCaused (K.fault_count out.old) (K.fault_count out.new) result }
    ensures ties { W.ties wire.new ≡ W.ties wire.old }
    ensures sink_later { K.fault_count out.old ≤ K.fault_count out.new }
{
    know_ranges(script);
    let (ended, _lent) = run_over(&mut *wire, plan, script, out);
    end_chain_stream(wire, ended)
}
