//! A probe alone: the session of a script on a chip at the far side of a net, alone there or in a chain.

ghost use Rattle.std.specs.Prelude.{◌≡◌, None, Some};
ghost use Rattle.jtag_run.specs.Ran.{RanProbe};
ghost use Rattle.jtag_run.specs.Ends.{ProbeEnd};
ghost use Rattle.jtag_run.specs.Jobs.{probe_value};

use crate::far_side::FarSide;
use crate::last_line::{refuse, tell};
use crate::opening::refusal_of;
use crate::prepare::load_script;
use crate::refusal::Refusal;
use crate::sessions::{run_on_chain_net, run_on_net};
use crate::status::Status;
use crate::words::ProbeJob;
use chain_scan::ChainPlan;
use debug_model::{Net, Script};
use jt_base::{Files, Sink};
use std::alloc::Global;

/// Connects the net to a chip at this address, and runs the session of the script there.
fn probe_at<N: Net, K: Sink>(
    alloc: Global,
    at: &str,
    script: &Script,
    net: &mut N,
    out: &mut K,
) -> Status
    requires unopened { (N.state net.old).ties.opening ≡ None }
    ensures ended { ProbeEnd at.now None script.now
        (record { state = N.state net.old; peer = N.peer net.old; faults = N.fault_count net.old; ends = N.end_count net.old })
        (record { state = N.state net.new; peer = N.peer net.new; faults = N.fault_count net.new; ends = N.end_count net.new })
        (record { printed = K.contents out.old; faults = K.fault_count out.old })
        (record { printed = K.contents out.new; faults = K.fault_count out.new })
        result }
{
    match net.connect(alloc, at) {
        Ok(()) => {
            let ended = run_on_net(script, net, out);
            tell(out, ended, false)
        }
        Err(fault) => refuse(out, refusal_of(fault)),
    }
}

/// The same of a chip in a chain with the devices of this plan. A net that tells a chip, which stands alone at its far side, is not opened.
fn probe_chain_at<N: FarSide, K: Sink>(
    alloc: Global,
    address: &str,
    plan: ChainPlan,
    script: &Script,
    net: &mut N,
    out: &mut K,
) -> Status
    requires unopened { (N.state net.old).ties.opening ≡ None }
    ensures ended { ProbeEnd address.now (Some plan) script.now
        (record { state = N.state net.old; peer = N.peer net.old; faults = N.fault_count net.old; ends = N.end_count net.old })
        (record { state = N.state net.new; peer = N.peer net.new; faults = N.fault_count net.new; ends = N.end_count net.new })
        (record { printed = K.contents out.old; faults = K.fault_count out.old })
        (record { printed = K.contents out.new; faults = K.fault_count out.new })
        result }
{
    if net.tells_chip() {
        return refuse(out, Refusal::Open);
    }
    match net.connect(alloc, address) {
        Ok(()) => {
            let closed = run_on_chain_net(script, net, plan, out);
            tell(out, closed, false)
        }
        Err(fault) => refuse(out, refusal_of(fault)),
    }
}

/// Reads and judges the script of this job, and runs its session over the net. Nothing is opened where the script is refused.
pub fn run_probe<F: Files, N: FarSide, K: Sink>(
    alloc: Global,
    job: ProbeJob,
    files: &mut F,
    net: &mut N,
    out: &mut K,
) -> Status
    requires unopened { (N.state net.old).ties.opening ≡ None }
    ensures ended { RanProbe (probe_value job)
        (record {
          files = record { held = F.held files.old; asked = F.asked files.old; faults = F.fault_count files.old };
          net = record { state = N.state net.old; peer = N.peer net.old; faults = N.fault_count net.old; ends = N.end_count net.old };
          sink = record { printed = K.contents out.old; faults = K.fault_count out.old };
        })
        (record {
          files = record { held = F.held files.new; asked = F.asked files.new; faults = F.fault_count files.new };
          net = record { state = N.state net.new; peer = N.peer net.new; faults = N.fault_count net.new; ends = N.end_count net.new };
          sink = record { printed = K.contents out.new; faults = K.fault_count out.new };
        })
        result }
{
    let script = match load_script(alloc, files, job.script.as_str()) {
        Ok(script) => script,
        Err(refusal) => return refuse(out, refusal),
    };
    let ProbeJob { at, chain, .. } = job;
    match chain {
        Some(plan) => probe_chain_at(alloc, at.as_str(), plan, &script, net, out),
        None => probe_at(alloc, at.as_str(), &script, net, out),
    }
}
