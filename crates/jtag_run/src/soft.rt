//! Sessions whose script may set software breakpoints: on a chip on the bench, and on a chip at the far side of a net.

ghost use Rattle.std.specs.Prelude.{◌≡◌, ◌≤◌, IfErr, IfOk, IfSome, None, OnErr, OnOk};
ghost use Rattle.command_line.specs.WrittenJob.{InRange, OptionsInRange, least_piece};
ghost use Rattle.debug_model.specs.Wire.{piece_most};
ghost use Rattle.jtag_run.specs.Jobs.{both_soft_value, probe_soft_value};
ghost use Rattle.jtag_run.specs.Sessions.{IsLoadedBench};
ghost use Rattle.jtag_run.specs.SoftEnds.{ProbeSoftEnd, SoftEnd};
ghost use Rattle.jtag_run.specs.SoftRan.{PreparedSoft, RanProbeSoft, RanSoft};
ghost use Rattle.jtag_run.specs.SoftRefusal.{SoftCause, asked_soft};

use crate::last_line::{refuse, tell};
use crate::opening::refusal_of;
use crate::prepare::{load_chip, read_bytes};
use crate::refusal::Refusal;
use crate::soft_script::load_soft_script;
use crate::soft_sessions::{run_soft_on_bench, run_soft_on_net};
use crate::status::Status;
use crate::words::{ProbeSoftJob, SoftJob};
use chip_core::Bench;
use debug_model::{Net, Schedule, SoftScript};
use jt_base::{Files, Sink};
use std::alloc::Global;
use sys_events::SeedSchedule;

/// Reads and judges the script, reads the image and loads it, in this order. The first refusal ends it, and no chip is loaded then.
fn prepare_soft<'a, F: Files>(
    alloc: Global,
    job: &'a SoftJob,
    files: &mut F,
    bench: &mut Bench<SeedSchedule>,
) -> Result<SoftScript, Refusal<'a>>
    requires options { OptionsInRange job.now.options }
    ensures prepared { IfOk result (λ script. PreparedSoft (both_soft_value job.now) (F.held files.old) script bench.new) }
    ensures asked { OnOk result (F.asked files.new
        ≡ asked_soft (both_soft_value job.now)
        (record { held = F.held files.old; asked = F.asked files.old; faults = F.fault_count files.old })) }
    ensures cause { IfErr result (SoftCause (both_soft_value job.now)
        (record { held = F.held files.old; asked = F.asked files.old; faults = F.fault_count files.old })
        (record { held = F.held files.new; asked = F.asked files.new; faults = F.fault_count files.new })) }
    ensures kept { OnErr result (bench.new ≡ bench.old) }
{
    let script = load_soft_script(alloc, files, job.script.as_str())?;
    let image = read_bytes(alloc, files, job.image.as_str())?;
    load_chip(alloc, bench, &image, &job.options)?;
    Ok(script)
}

/// Runs the session of a script on a bench, whose chip is as it was loaded, over a wire that carries pieces of at most `piece` bytes, from 1 to 256; ends the
/// stream, and says what came of it. It takes no memory.
fn soft_with<Q: Schedule, K: Sink>(
    script: &SoftScript,
    bench: &mut Bench<Q>,
    piece: usize,
    out: &mut K,
) -> Status
    requires piece { (1 ≤ piece) × (piece ≤ piece_most) }
    requires fresh { IsLoadedBench bench.old }
    ensures ended { IfSome bench.old (λ first. SoftEnd first script.now
        (record { printed = K.contents out.old; faults = K.fault_count out.old })
        (record { printed = K.contents out.new; faults = K.fault_count out.new })
        bench.new result) }
{
    let ended = run_soft_on_bench(script, bench, piece, out);
    tell(out, ended, bench.at_limit())
}

/// Reads what this job names, makes its chip, and runs its session. Where something is refused the bench stays as it was.
pub fn run_soft<F: Files, K: Sink>(
    alloc: Global,
    job: &SoftJob,
    files: &mut F,
    out: &mut K,
    bench: &mut Bench<SeedSchedule>,
) -> Status
    requires piece { InRange least_piece piece_most job.now.piece }
    requires options { OptionsInRange job.now.options }
    ensures ended { RanSoft (both_soft_value job.now)
        (record { held = F.held files.old; asked = F.asked files.old; faults = F.fault_count files.old })
        (record { held = F.held files.new; asked = F.asked files.new; faults = F.fault_count files.new })
        (record { printed = K.contents out.old; faults = K.fault_count out.old })
        (record { printed = K.contents out.new; faults = K.fault_count out.new })
        bench.old bench.new result }
{
    match prepare_soft(alloc, job, files, bench) {
        Ok(script) => soft_with(&script, bench, usize::from(job.piece), out),
        Err(refusal) => refuse(out, refusal),
    }
}

/// Connects the net to a chip at this address, and runs the session of the script there.
fn probe_soft_at<N: Net, K: Sink>(
    alloc: Global,
    at: &str,
    script: &SoftScript,
    net: &mut N,
    out: &mut K,
) -> Status
    requires unopened { (N.state net.old).ties.opening ≡ None }
    ensures ended { ProbeSoftEnd at.now script.now
        (record { state = N.state net.old; peer = N.peer net.old; faults = N.fault_count net.old; ends = N.end_count net.old })
        (record { state = N.state net.new; peer = N.peer net.new; faults = N.fault_count net.new; ends = N.end_count net.new })
        (record { printed = K.contents out.old; faults = K.fault_count out.old })
        (record { printed = K.contents out.new; faults = K.fault_count out.new })
        result }
{
    match net.connect(alloc, at) {
        Ok(()) => {
            let ended = run_soft_on_net(script, net, out);
            tell(out, ended, false)
        }
        Err(fault) => refuse(out, refusal_of(fault)),
    }
}

/// Reads and judges the script of this job, and runs its session over the net. Nothing is opened where the script is refused.
pub fn run_probe_soft<F: Files, N: Net, K: Sink>(
    alloc: Global,
    job: &ProbeSoftJob,
    files: &mut F,
    net: &mut N,
    out: &mut K,
) -> Status
    requires unopened { (N.state net.old).ties.opening ≡ None }
    ensures ended { RanProbeSoft (probe_soft_value job.now)
        (record {
          files = record { held = F.held files.old; asked = F.asked files.old; faults = F.fault_count files.old };
          net = record { state = N.state net.old; peer = N.peer net.old; faults = N.fault_count net.old; ends = N.end_count net.old };
          sink = record { printed = K.contents out.old; faults = K.fault_count out.old };
        })
        (record {
          files = record { held = F.held files.new; asked = F.asked files.new; faults = F.fault_count files.new };
          net = record { state = N.state net.new; peer = N.peer net.new; faults = N.fault_count net.new; ends = N.end_count net.new };
          sink = record { printed = K.contents out.new; faults = K.fault_count out.new };
        })
        result }
{
    match load_soft_script(alloc, files, job.script.as_str()) {
        Ok(script) => probe_soft_at(alloc, job.at.as_str(), &script, net, out),
        Err(refusal) => refuse(out, refusal),
    }
}
