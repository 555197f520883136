//! A chip that another debugger drives over a net, alone or as one of a chain.

ghost use Rattle.std.specs.Prelude.{◌≡◌, IsSome, None, false, true};
ghost use Rattle.std.specs.Option.{option_copied};
ghost use Rattle.chain_bench.specs.Benched.{tck_of};
ghost use Rattle.chip_server.specs.Served.{CountsOnce, IsPlain};
ghost use Rattle.jtag_run.specs.Refusal.{ChipCause, Refused};
ghost use Rattle.jtag_run.specs.ServedChip.{RanChip, ServedAt, Told, WasServedAs, limit_first};
ghost use Rattle.jtag_run.specs.Jobs.{chip_value};
ghost use Rattle.command_line.specs.WrittenJob.{OptionsInRange};

use crate::last_line::{EVENT_LIMIT, close, refuse};
use crate::lines::{bad_byte_line, wire_failed_line};
use crate::opening::refusal_of;
use crate::prepare::prepare_chip;
use crate::status::Status;
use crate::words::ChipJob;
use chain_bench::serve_in_chain;
use chain_scan::ChainPlan;
use chip_core::Bench;
use chip_server::{Served, serve};
use debug_model::{Net, Schedule};
use jt_base::{Files, Sink};
use std::alloc::Global;
use sys_events::SeedSchedule;

/// The end that is told: a chip at its limit says so, whatever ended the serving.
fn limit_first<Q: Schedule>(bench: &Bench<Q>, served: Served) -> Served
    ensures { result ≡ limit_first bench.now served }
{
    if bench.at_limit() {
        Served::Limit
    } else {
        served
    }
}

/// The status of a run whose serving ended so, behind its last line where it has one.
fn tell<K: Sink>(out: &mut K, served: Served) -> Status
    ensures told { Told served
        (record { printed = K.contents out.old; faults = K.fault_count out.old })
        (record { printed = K.contents out.new; faults = K.fault_count out.new })
        result }
{
    match served {
        Served::Quit => Status::Clean,
        Served::PeerEnded => Status::Clean,
        Served::Bad(place, byte) => close(out, &bad_byte_line(place, byte), Status::BadByte),
        Served::Limit => close(out, EVENT_LIMIT, Status::EventLimit),
        Served::NetFailed(fault) => close(out, &wire_failed_line(fault), Status::Wire),
    }
}

/// Serves the chip on the bench over an open net: alone, or as one of a chain.
fn serve_as<N: Net, Q: Schedule>(
    chain: Option<&ChainPlan>,
    net: &mut N,
    bench: &mut Bench<Q>,
) -> Served
    requires opened { (N.state net.old).near_open ≡ true }
    requires plain { IsPlain (N.state net.old) }
    requires loaded { IsSome bench.old }
    requires low { tck_of bench.old ≡ false }
    ensures served { WasServedAs (option_copied chain.entry) result (N.state net.old) (N.state net.new) bench.old bench.new }
    ensures counts { CountsOnce (N.fault_count net.old) (N.fault_count net.new) (N.end_count net.old) (N.end_count net.new) result }
{
    match chain {
        Some(plan) => serve_in_chain(net, bench, plan),
        None => serve(net, bench),
    }
}

/// Opens the net to the first client at this address, and serves the chip on the bench there, alone or as one of a chain.
fn serve_at<N: Net, Q: Schedule, K: Sink>(
    alloc: Global,
    at: &str,
    chain: Option<&ChainPlan>,
    net: &mut N,
    out: &mut K,
    bench: &mut Bench<Q>,
) -> Status
    requires unopened { (N.state net.old).ties.opening ≡ None }
    requires loaded { IsSome bench.old }
    requires low { tck_of bench.old ≡ false }
    ensures served { ServedAt at.now (option_copied chain.entry)
        (record { state = N.state net.old; peer = N.peer net.old; faults = N.fault_count net.old; ends = N.end_count net.old })
        (record { state = N.state net.new; peer = N.peer net.new; faults = N.fault_count net.new; ends = N.end_count net.new })
        (record { printed = K.contents out.old; faults = K.fault_count out.old })
        (record { printed = K.contents out.new; faults = K.fault_count out.new })
        bench.old bench.new result }
{
    match net.accept(alloc, at) {
        Ok(()) => {
            let served = serve_as(chain, net, bench);
            tell(out, limit_first(bench, served))
        }
        Err(fault) => refuse(out, refusal_of(fault)),
    }
}

/// Reads and loads the image of this job, and serves the chip to the first client at its address. Nothing is opened where the image is refused, and the bench
/// stays as it was then.
pub fn run_chip<F: Files, N: Net, K: Sink>(
    alloc: Global,
    job: &ChipJob,
    files: &mut F,
    net: &mut N,
    out: &mut K,
    bench: &mut Bench<SeedSchedule>,
) -> Status
    requires options { OptionsInRange job.now.options }
    requires unopened { (N.state net.old).ties.opening ≡ None }
    ensures ended { RanChip (chip_value job.now)
        (record {
          files = record { held = F.held files.old; asked = F.asked files.old; faults = F.fault_count files.old };
          net = record { state = N.state net.old; peer = N.peer net.old; faults = N.fault_count net.old; ends = N.end_count net.old };
          sink = record { printed = K.contents out.old; faults = K.fault_count out.old };
        })
        (record {
          files = record { held = F.held files.new; asked = F.asked files.new; faults = F.fault_count files.new };
          net = record { state = N.state net.new; peer = N.peer net.new; faults = N.fault_count net.new; ends = N.end_count net.new };
          sink = record { printed = K.contents out.new; faults = K.fault_count out.new };
        })
        bench.old bench.new result }
{
    match prepare_chip(alloc, job, files, bench) {
        Ok(()) => serve_at(alloc, job.at.as_str(), job.chain.as_ref(), net, out, bench),
        Err(refusal) => refuse(out, refusal),
    }
}
