//! A chip and a probe in one process: the session of a script, straight to the chip on the bench, to a chain that it is in, or over a connection of the machine
//! to itself.

ghost use Rattle.std.specs.Prelude.{◌≡◌, ◌≤◌, IfSome, None};
ghost use Rattle.debug_model.specs.Wire.{piece_most};
ghost use Rattle.chain_scan.specs.ChainSeen.{chain_slack};
ghost use Rattle.jtag_run.specs.Bounds.{StaysWhereFair};
ghost use Rattle.jtag_run.specs.Ran.{RanBoth};
ghost use Rattle.jtag_run.specs.Ends.{BenchEnd, LoopEnd};
ghost use Rattle.jtag_run.specs.Sessions.{IsLoadedBench};
ghost use Rattle.jtag_run.specs.Succeeds.{WithSucceeds};
ghost use Rattle.jtag_run.specs.Jobs.{both_value};
ghost use Rattle.command_line.specs.WrittenJob.{InRange, OptionsInRange, least_piece};

use crate::last_line::{refuse, tell};
use crate::opening::refusal_of;
use crate::prepare::prepare;
use crate::sessions::{run_on_bench, run_on_chain, run_on_loop};
use crate::status::Status;
use crate::words::BothJob;
use chain_scan::ChainPlan;
use chip_core::Bench;
use command_line::Way;
use debug_model::{Net, Schedule, Script};
use jt_base::{Files, Sink};
use std::alloc::Global;
use sys_events::SeedSchedule;

/// Runs the session of a script on a bench, whose chip is as it was loaded, over a wire that carries pieces of at most `piece` bytes, from 1 to 256; ends
/// the stream, and says what came of it. It takes no memory.
pub fn both_with<Q: Schedule, K: Sink>(
    script: &Script,
    bench: &mut Bench<Q>,
    piece: usize,
    out: &mut K,
) -> Status
    requires piece { (1 ≤ piece) × (piece ≤ piece_most) }
    requires fresh { IsLoadedBench bench.old }
    ensures ended { IfSome bench.old (λ first. BenchEnd first script.now
        (record { printed = K.contents out.old; faults = K.fault_count out.old })
        (record { printed = K.contents out.new; faults = K.fault_count out.new })
        bench.new result) }
    ensures within { IfSome bench.old (λ first. StaysWhereFair 0 script.now first bench.new) }
    ensures succeeds { IfSome bench.old (λ first. WithSucceeds first
        (record { printed = K.contents out.old; faults = K.fault_count out.old })
        (record { printed = K.contents out.new; faults = K.fault_count out.new })
        bench.new result) }
{
    let ended = run_on_bench(script, bench, piece, out);
    tell(out, ended, bench.at_limit())
}

/// The same on the chip of a chain with the devices of this plan.
fn chain_with<Q: Schedule, K: Sink>(
    script: &Script,
    bench: &mut Bench<Q>,
    plan: ChainPlan,
    out: &mut K,
) -> Status
    requires fresh { IsLoadedBench bench.old }
    ensures ended { IfSome bench.old (λ first. BenchEnd first script.now
        (record { printed = K.contents out.old; faults = K.fault_count out.old })
        (record { printed = K.contents out.new; faults = K.fault_count out.new })
        bench.new result) }
    ensures within { IfSome bench.old (λ first. StaysWhereFair chain_slack script.now first bench.new) }
{
    let ended = run_on_chain(script, bench, plan, out);
    tell(out, ended, bench.at_limit())
}

/// The same over a connection of the machine to itself, which this opens.
fn loop_with<N: Net, Q: Schedule, K: Sink>(
    alloc: Global,
    script: &Script,
    net: &mut N,
    bench: &mut Bench<Q>,
    out: &mut K,
) -> Status
    requires unopened { (N.state net.old).ties.opening ≡ None }
    requires fresh { IsLoadedBench bench.old }
    ensures ended { IfSome bench.old (λ first. LoopEnd first script.now
        (record { state = N.state net.old; peer = N.peer net.old; faults = N.fault_count net.old; ends = N.end_count net.old })
        (record { state = N.state net.new; peer = N.peer net.new; faults = N.fault_count net.new; ends = N.end_count net.new })
        (record { printed = K.contents out.old; faults = K.fault_count out.old })
        (record { printed = K.contents out.new; faults = K.fault_count out.new })
        bench.new result) }
    ensures within { IfSome bench.old (λ first. StaysWhereFair 0 script.now first bench.new) }
{
    match net.join(alloc) {
        Ok(()) => {
            let ended = run_on_loop(script, net, bench, out);
            tell(out, ended, bench.at_limit())
        }
        Err(fault) => refuse(out, refusal_of(fault)),
    }
}

/// Reads and loads what this job names, and runs its session. Nothing is opened where the script or the image is refused, and the bench stays as it was then.
pub fn run_both<F: Files, N: Net, K: Sink>(
    alloc: Global,
    job: BothJob,
    files: &mut F,
    net: &mut N,
    out: &mut K,
    bench: &mut Bench<SeedSchedule>,
) -> Status
    requires piece { InRange least_piece piece_most job.piece }
    requires options { OptionsInRange job.options }
    requires unopened { (N.state net.old).ties.opening ≡ None }
    ensures ended { RanBoth (both_value job)
        (record {
          files = record { held = F.held files.old; asked = F.asked files.old; faults = F.fault_count files.old };
          net = record { state = N.state net.old; peer = N.peer net.old; faults = N.fault_count net.old; ends = N.end_count net.old };
          sink = record { printed = K.contents out.old; faults = K.fault_count out.old };
        })
        (record {
          files = record { held = F.held files.new; asked = F.asked files.new; faults = F.fault_count files.new };
          net = record { state = N.state net.new; peer = N.peer net.new; faults = N.fault_count net.new; ends = N.end_count net.new };
          sink = record { printed = K.contents out.new; faults = K.fault_count out.new };
        })
        bench.old bench.new result }
{
    let script = match prepare(alloc, &job, files, bench) {
        Ok(script) => script,
        Err(refusal) => return refuse(out, refusal),
    };
    let BothJob { piece, way, .. } = job;
    match way {
        Way::Straight => both_with(&script, bench, usize::from(piece), out),
        Way::Looped => loop_with(alloc, &script, net, bench, out),
        Way::Chained(plan) => chain_with(&script, bench, plan, out),
    }
}
