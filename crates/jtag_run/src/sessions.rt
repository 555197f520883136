//! Sessions over the wires that a job has: to a bench, to a chain on a bench, over both ends of a joined net to a bench, and over a net.

ghost use Rattle.std.specs.Prelude.{◌≡◌, ◌≤◌, IfSome, None, true};
ghost use Rattle.chip_core.specs.Feeds.{limit_met};
ghost use Rattle.debug_model.specs.Net.{IsJoined};
ghost use Rattle.debug_model.specs.Told.{IsAsLoaded, IsRead};
ghost use Rattle.debug_model.specs.Wire.{piece_most};
ghost use Rattle.chain_scan.specs.ChainSeen.{chain_slack};
ghost use Rattle.jtag_run.specs.Bounds.{StaysWhereFair};
ghost use Rattle.jtag_run.specs.Sessions.{IsLoadedBench, OnBench, OnChainNet, OnLoop, OnNet};
ghost use Rattle.probe_session.specs.Causes.{SinkCaused};
ghost use Rattle.wire_session.specs.Closing.{IsOfRegister};

use bench_links::LoopWire;
use chain_bench::ChainBench;
use chain_scan::ChainPlan;
use chain_session::{ChainNetWire, run_chain_session};
use chip_core::{Bench, BenchWire};
use debug_model::{Net, Schedule, Script};
use jt_base::Sink;
use jtag_net::NetWire;
use probe_session::Ended;
use wire_session::{know_ranges, run_session};

/// Runs the script over a wire to the bench, in pieces of at most `piece` bytes, from 1 to 256.
pub fn run_on_bench<Q: Schedule, K: Sink>(
    script: &Script,
    bench: &mut Bench<Q>,
    piece: usize,
    out: &mut K,
) -> Ended
    requires piece { (1 ≤ piece) × (piece ≤ piece_most) }
    requires fresh { IsLoadedBench bench.old }
    ensures ran { IfSome bench.old (λ first. OnBench first script.now
        (record { printed = K.contents out.old; faults = K.fault_count out.old })
        (record { printed = K.contents out.new; faults = K.fault_count out.new })
        bench.new (limit_met bench.new) result) }
    ensures within { IfSome bench.old (λ first. StaysWhereFair 0 script.now first bench.new) }
    ensures of_register { IsOfRegister result }
    ensures sink_cause { SinkCaused (K.fault_count out.old) (K.fault_count out.new) result }
    ensures sink_later { K.fault_count out.old ≤ K.fault_count out.new }
{
    know_ranges(script);
    let mut wire = BenchWire::new(bench, piece);
    let ended = run_session(&mut wire, script, out);
    bench.know_limit();
    ended
}

/// Runs the script over a wire to a chain of the chip on the bench and the devices of this plan.
pub fn run_on_chain<Q: Schedule, K: Sink>(
    script: &Script,
    bench: &mut Bench<Q>,
    plan: ChainPlan,
    out: &mut K,
) -> Ended
    requires fresh { IsLoadedBench bench.old }
    ensures ran { IfSome bench.old (λ first. OnBench first script.now
        (record { printed = K.contents out.old; faults = K.fault_count out.old })
        (record { printed = K.contents out.new; faults = K.fault_count out.new })
        bench.new (limit_met bench.new) result) }
    ensures within { IfSome bench.old (λ first. StaysWhereFair chain_slack script.now first bench.new) }
    ensures of_register { IsOfRegister result }
    ensures sink_cause { SinkCaused (K.fault_count out.old) (K.fault_count out.new) result }
    ensures sink_later { K.fault_count out.old ≤ K.fault_count out.new }
{
    know_ranges(script);
    let mut chain = ChainBench::new(bench, &plan);
    let ended = run_chain_session(&mut chain, plan, script, out);
    bench.know_limit();
    ended
}

/// Runs the script over both ends of a joined net, with the bench at its far end.
pub fn run_on_loop<N: Net, Q: Schedule, K: Sink>(
    script: &Script,
    net: &mut N,
    bench: &mut Bench<Q>,
    out: &mut K,
) -> Ended
    requires joined { IsJoined (N.state net.old) }
    requires fresh { IsLoadedBench bench.old }
    ensures ran { IfSome bench.old (λ first. OnLoop first script.now
        (record { state = N.state net.old; peer = N.peer net.old; faults = N.fault_count net.old; ends = N.end_count net.old })
        (record { state = N.state net.new; peer = N.peer net.new; faults = N.fault_count net.new; ends = N.end_count net.new })
        (record { printed = K.contents out.old; faults = K.fault_count out.old })
        (record { printed = K.contents out.new; faults = K.fault_count out.new })
        bench.new result) }
    ensures within { IfSome bench.old (λ first. StaysWhereFair 0 script.now first bench.new) }
    ensures of_register { IsOfRegister result }
    ensures sink_cause { SinkCaused (K.fault_count out.old) (K.fault_count out.new) result }
    ensures sink_later { K.fault_count out.old ≤ K.fault_count out.new }
{
    know_ranges(script);
    let mut wire = LoopWire::new(net, bench);
    let ended = run_session(&mut wire, script, out);
    wire.know_blame();
    bench.know_limit();
    ended
}

/// Runs the script over the near end of a net. Where the net tells its chip, that is as it was loaded, and no answer is unread.
pub fn run_on_net<N: Net, K: Sink>(script: &Script, net: &mut N, out: &mut K) -> Ended
    requires opened { (N.state net.old).near_open ≡ true }
    requires plain { (N.state net.old).pipe ≡ None }
    requires loaded { IsAsLoaded (N.state net.old).chip }
    requires read { IsRead (N.state net.old).chip }
    ensures ran { OnNet script.now
        (record { state = N.state net.old; peer = N.peer net.old; faults = N.fault_count net.old; ends = N.end_count net.old })
        (record { state = N.state net.new; peer = N.peer net.new; faults = N.fault_count net.new; ends = N.end_count net.new })
        (record { printed = K.contents out.old; faults = K.fault_count out.old })
        (record { printed = K.contents out.new; faults = K.fault_count out.new })
        result }
    ensures of_register { IsOfRegister result }
    ensures sink_cause { SinkCaused (K.fault_count out.old) (K.fault_count out.new) result }
    ensures sink_later { K.fault_count out.old ≤ K.fault_count out.new }
{
    let mut wire = NetWire::new(net);
    let ended = run_session(&mut wire, script, out);
    wire.know_sound();
    ended
}

/// Runs the script over the near end of a net that tells no chip, on the chip of a chain with the devices of this plan.
pub fn run_on_chain_net<N: Net, K: Sink>(
    script: &Script,
    net: &mut N,
    plan: ChainPlan,
    out: &mut K,
) -> Ended
    requires opened { (N.state net.old).near_open ≡ true }
    requires plain { (N.state net.old).pipe ≡ None }
    requires untold { (N.state net.old).chip ≡ None }
    ensures ran { OnChainNet script.now
        (record { state = N.state net.old; peer = N.peer net.old; faults = N.fault_count net.old; ends = N.end_count net.old })
        (record { state = N.state net.new; peer = N.peer net.new; faults = N.fault_count net.new; ends = N.end_count net.new })
        (record { printed = K.contents out.old; faults = K.fault_count out.old })
        (record { printed = K.contents out.new; faults = K.fault_count out.new })
        result }
    ensures of_register { IsOfRegister result }
    ensures sink_cause { SinkCaused (K.fault_count out.old) (K.fault_count out.new) result }
    ensures sink_later { K.fault_count out.old ≤ K.fault_count out.new }
{
    let mut wire = ChainNetWire::new(NetWire::new(net));
    run_chain_session(&mut wire, plan, script, out)
}
