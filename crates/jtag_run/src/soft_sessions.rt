//! Sessions whose script may set software breakpoints, over a wire to a bench and over a net.

ghost use Rattle.std.specs.Prelude.{◌≡◌, ◌≤◌, IfSome, None, true};
ghost use Rattle.chip_core.specs.Feeds.{limit_met};
ghost use Rattle.debug_model.specs.Told.{IsAsLoaded, IsRead};
ghost use Rattle.debug_model.specs.Wire.{piece_most};
ghost use Rattle.jtag_run.specs.Sessions.{IsLoadedBench};
ghost use Rattle.jtag_run.specs.SoftEnds.{OnSoftBench, OnSoftNet};
ghost use Rattle.probe_session.specs.Causes.{SinkCaused};
ghost use Rattle.wire_session.specs.Closing.{IsOfRegister};

use chip_core::{Bench, BenchWire};
use debug_model::{Net, Schedule, SoftScript};
use jt_base::Sink;
use jtag_net::NetWire;
use probe_session::Ended;
use soft_session::run_soft_session;

/// Runs the script over a wire to the bench, in pieces of at most `piece` bytes, from 1 to 256.
pub fn run_soft_on_bench<Q: Schedule, K: Sink>(
    script: &SoftScript,
    bench: &mut Bench<Q>,
    piece: usize,
    out: &mut K,
) -> Ended
    requires piece { (1 ≤ piece) × (piece ≤ piece_most) }
    requires fresh { IsLoadedBench bench.old }
    ensures ran { IfSome bench.old (λ first. OnSoftBench first script.now
        (record { printed = K.contents out.old; faults = K.fault_count out.old })
        (record { printed = K.contents out.new; faults = K.fault_count out.new })
        bench.new (limit_met bench.new) result) }
    ensures of_register { IsOfRegister result }
    ensures sink_cause { SinkCaused (K.fault_count out.old) (K.fault_count out.new) result }
    ensures sink_later { K.fault_count out.old ≤ K.fault_count out.new }
{
    let mut wire = BenchWire::new(bench, piece);
    run_soft_session(&mut wire, script, out)
}

/// Runs the script over the near end of a net. Where the net tells its chip, that is as it was loaded, and no answer is unread.
pub fn run_soft_on_net<N: Net, K: Sink>(script: &SoftScript, net: &mut N, out: &mut K) -> Ended
    requires opened { (N.state net.old).near_open ≡ true }
    requires plain { (N.state net.old).pipe ≡ None }
    requires loaded { IsAsLoaded (N.state net.old).chip }
    requires answered { IsRead (N.state net.old).chip }
    ensures ran { OnSoftNet script.now
        (record { state = N.state net.old; peer = N.peer net.old; faults = N.fault_count net.old; ends = N.end_count net.old })
        (record { state = N.state net.new; peer = N.peer net.new; faults = N.fault_count net.new; ends = N.end_count net.new })
        (record { printed = K.contents out.old; faults = K.fault_count out.old })
        (record { printed = K.contents out.new; faults = K.fault_count out.new })
        result }
    ensures of_register { IsOfRegister result }
    ensures sink_cause { SinkCaused (K.fault_count out.old) (K.fault_count out.new) result }
    ensures sink_later { K.fault_count out.old ≤ K.fault_count out.new }
{
    let mut wire = NetWire::new(net);
    let ended = run_soft_session(&mut wire, script, out);
    wire.know_sound();
    ended
}
