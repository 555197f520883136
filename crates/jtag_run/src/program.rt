//! The top call: words, files, the chip on its bench, and the session or the serving.

ghost use Rattle.std.specs.Prelude.{◌≡◌, None, map, string_bytes};
ghost use Rattle.jtag_run.specs.Ran.{Ran};
ghost use Rattle.jtag_run.specs.Succeeds.{Succeeds};

use crate::both::run_both;
use crate::chip::run_chip;
use crate::elf::{run_elf, run_probe_elf};
use crate::far_side::FarSide;
use crate::generated::run_gen;
use crate::last_line::refuse;
use crate::probe::run_probe;
use crate::recording::run_sniff;
use crate::soft::{run_probe_soft, run_soft};
use crate::status::Status;
use crate::words::{Work, read_work};
use chip_core::Bench;
use jt_base::{Files, Sink};
use std::alloc::Global;
use sys_events::SeedSchedule;

/// Runs the program, and says how the run ended.
fn run_words<F: Files, N: FarSide, K: Sink>(
    alloc: Global,
    words: &[String],
    files: &mut F,
    net: &mut N,
    out: &mut K,
    bench: &mut Bench<SeedSchedule>,
) -> Status
    requires unopened { (N.state net.old).ties.opening ≡ None }
    ensures ended { Ran (map string_bytes words.now)
        (record {
          files = record { held = F.held files.old; asked = F.asked files.old; faults = F.fault_count files.old };
          net = record { state = N.state net.old; peer = N.peer net.old; faults = N.fault_count net.old; ends = N.end_count net.old };
          sink = record { printed = K.contents out.old; faults = K.fault_count out.old };
        })
        (record {
          files = record { held = F.held files.new; asked = F.asked files.new; faults = F.fault_count files.new };
          net = record { state = N.state net.new; peer = N.peer net.new; faults = N.fault_count net.new; ends = N.end_count net.new };
          sink = record { printed = K.contents out.new; faults = K.fault_count out.new };
        })
        bench.new result }
{
    *bench = Bench::blank();
    let work = match read_work(alloc, words) {
        Ok(work) => work,
        Err(refusal) => return refuse(out, refusal),
    };
    match work {
        Work::Both(job) => run_both(alloc, job, files, net, out, bench),
        Work::Gen(job) => run_gen(alloc, job, net, out, bench),
        Work::Elf(job) => run_elf(alloc, &job, files, out, bench),
        Work::Soft(job) => run_soft(alloc, &job, files, out, bench),
        Work::Probe(job) => run_probe(alloc, job, files, net, out),
        Work::ProbeElf(job) => run_probe_elf(alloc, &job, files, net, out),
        Work::ProbeSoft(job) => run_probe_soft(alloc, &job, files, net, out),
        Work::Chip(job) => run_chip(alloc, &job, files, net, out, bench),
        Work::Sniff(job) => run_sniff(alloc, &job, files, out),
    }
}

/// Runs the program: `words` are those behind its name, and no call has opened the net.
///
/// The words are judged first, then a script is read and judged, then an image is read and loaded, or both are made from a number, or an ELF file is read and
/// judged in the image's place; then the net is opened, where the job has one. Of a recording the stream is read, and then its answers. The first refusal ends the run with its last line. Before the words are
/// accepted nothing else is asked for, and before files and image are, no net is opened.
pub fn run<F: Files, N: FarSide, K: Sink>(
    alloc: Global,
    words: &[String],
    files: &mut F,
    net: &mut N,
    out: &mut K,
    bench: &mut Bench<SeedSchedule>,
) -> Status
    requires unopened { (N.state net.old).ties.opening ≡ None }
    ensures ended { Ran (map string_bytes words.now)
        (record {
          files = record { held = F.held files.old; asked = F.asked files.old; faults = F.fault_count files.old };
          net = record { state = N.state net.old; peer = N.peer net.old; faults = N.fault_count net.old; ends = N.end_count net.old };
          sink = record { printed = K.contents out.old; faults = K.fault_count out.old };
        })
        (record {
          files = record { held = F.held files.new; asked = F.asked files.new; faults = F.fault_count files.new };
          net = record { state = N.state net.new; peer = N.peer net.new; faults = N.fault_count net.new; ends = N.end_count net.new };
          sink = record { printed = K.contents out.new; faults = K.fault_count out.new };
        })
        bench.new result }
    ensures succeeds { Succeeds (map string_bytes words.now)
        (record {
          files = record { held = F.held files.old; asked = F.asked files.old; faults = F.fault_count files.old };
          net = record { state = N.state net.old; peer = N.peer net.old; faults = N.fault_count net.old; ends = N.end_count net.old };
          sink = record { printed = K.contents out.old; faults = K.fault_count out.old };
        })
        (record {
          files = record { held = F.held files.new; asked = F.asked files.new; faults = F.fault_count files.new };
          net = record { state = N.state net.new; peer = N.peer net.new; faults = N.fault_count net.new; ends = N.end_count net.new };
          sink = record { printed = K.contents out.new; faults = K.fault_count out.new };
        })
        bench.new result }
{
    run_words(alloc, words, files, net, out, bench)
}
