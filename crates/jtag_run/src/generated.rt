//! A session that is made from a number: it runs into a sink that counts, and a summary takes the transcript's place.

ghost use Rattle.std.specs.Prelude.{◌≡◌, [], IfErr, IfOk, IfSome, None, OnErr};
ghost use Rattle.debug_model.specs.Wire.{piece_most};
ghost use Rattle.jtag_run.specs.Bounds.{StaysWhereFair, slack_of};
ghost use Rattle.jtag_run.specs.Ran.{Made, RanGen};
ghost use Rattle.jtag_run.specs.Ends.{Counted, GenEnd, Unjoined};
ghost use Rattle.jtag_run.specs.Refusal.{GenCause};
ghost use Rattle.jtag_run.specs.Sessions.{IsLoadedBench};
ghost use Rattle.jtag_run.specs.Jobs.{gen_value};
ghost use Rattle.wire_session.specs.Closing.{IsOfRegister};
ghost use Rattle.command_line.specs.WrittenJob.{InRange, OptionsInRange, least_piece};

use crate::last_line::{refuse, tell};
use crate::opening::refusal_of;
use crate::prepare::load_chip;
use crate::refusal::Refusal;
use crate::sessions::{run_on_bench, run_on_chain, run_on_loop};
use crate::status::Status;
use crate::summary::{Summary, put_summary};
use crate::words::GenJob;
use chip_core::Bench;
use command_line::Way;
use debug_model::{Net, NetFault, Script};
use generator::generate;
use jt_base::{Sink, SinkFault};
use line_counts::{LineCounts, lines_are_counted};
use probe_session::Ended;
use std::alloc::Global;
use sys_events::SeedSchedule;

/// Makes the image and the script of the job's number, and loads the image. Where it is refused the bench stays as it was.
fn make(
    alloc: Global,
    job: &GenJob,
    bench: &mut Bench<SeedSchedule>,
) -> Result<Script, Refusal<'static>>
    requires options { OptionsInRange job.now.options }
    ensures made { IfOk result (λ script. Made (gen_value job.now) script bench.new) }
    ensures cause { IfErr result (GenCause (gen_value job.now)) }
    ensures kept { OnErr result (bench.new ≡ bench.old) }
{
    let Ok((image, script)) = generate(alloc, job.number) else {
        return Err(Refusal::OutOfMemory);
    };
    load_chip(alloc, bench, &image, &job.options)?;
    Ok(script)
}

/// Runs the script into a sink that counts, on this way to the bench. The net is opened where it goes over that.
fn count<N: Net>(
    alloc: Global,
    way: Way,
    piece: u16,
    script: &Script,
    net: &mut N,
    bench: &mut Bench<SeedSchedule>,
    counts: &mut LineCounts,
) -> Result<Ended, NetFault>
    requires piece { InRange least_piece piece_most piece }
    requires unopened { (N.state net.old).ties.opening ≡ None }
    requires fresh { IsLoadedBench bench.old }
    requires nothing { counts.old ≡ [] }
    ensures counted { IfOk result (λ ended. IfSome bench.old (λ first. Counted way first script.now
        (record { state = N.state net.old; peer = N.peer net.old; faults = N.fault_count net.old; ends = N.end_count net.old })
        (record { state = N.state net.new; peer = N.peer net.new; faults = N.fault_count net.new; ends = N.end_count net.new })
        counts.new bench.new ended)) }
    ensures within { IfSome bench.old (λ first. StaysWhereFair (slack_of way) script.now first bench.new) }
    ensures of_register { IfOk result IsOfRegister }
    ensures unjoined { IfErr result (λ fault. Unjoined way fault
        (record { state = N.state net.old; peer = N.peer net.old; faults = N.fault_count net.old; ends = N.end_count net.old })
        (record { state = N.state net.new; peer = N.peer net.new; faults = N.fault_count net.new; ends = N.end_count net.new })) }
    ensures kept { OnErr result (bench.new ≡ bench.old) }
{
    lines_are_counted();
    match way {
        Way::Straight => Ok(run_on_bench(script, bench, usize::from(piece), counts)),
        Way::Chained(plan) => Ok(run_on_chain(script, bench, plan, counts)),
        Way::Looped => match net.join(alloc) {
            Ok(()) => Ok(run_on_loop(script, net, bench, counts)),
            Err(fault) => Err(fault),
        },
    }
}

/// Makes what the job's number says, runs its session, and prints its summary in the place of a transcript.
pub fn run_gen<N: Net, K: Sink>(
    alloc: Global,
    job: GenJob,
    net: &mut N,
    out: &mut K,
    bench: &mut Bench<SeedSchedule>,
) -> Status
    requires piece { InRange least_piece piece_most job.piece }
    requires options { OptionsInRange job.options }
    requires unopened { (N.state net.old).ties.opening ≡ None }
    ensures ended { RanGen (gen_value job)
        (record { state = N.state net.old; peer = N.peer net.old; faults = N.fault_count net.old; ends = N.end_count net.old })
        (record { state = N.state net.new; peer = N.peer net.new; faults = N.fault_count net.new; ends = N.end_count net.new })
        (record { printed = K.contents out.old; faults = K.fault_count out.old })
        (record { printed = K.contents out.new; faults = K.fault_count out.new })
        bench.old bench.new result }
{
    let script = match make(alloc, &job, bench) {
        Ok(script) => script,
        Err(refusal) => return refuse(out, refusal),
    };
    let mut counts = LineCounts::new();
    let ended = match count(alloc, job.way, job.piece, &script, net, bench, &mut counts) {
        Ok(ended) => ended,
        Err(fault) => return refuse(out, refusal_of(fault)),
    };
    let summary = Summary {
        commands: script.commands().len() as u64,
        errors: counts.errors(),
        lines: counts.lines(),
    };
    match put_summary(out, summary) {
        Ok(()) => tell(out, ended, bench.at_limit()),
        Err(SinkFault::Failed) => Status::Sink,
    }
}
