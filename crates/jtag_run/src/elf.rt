//! Sessions that load an ELF file first: on a chip on the bench, and on a chip at the far side of a net.

ghost use Rattle.std.specs.Prelude.{◌≡◌, ◌≤◌, [], IfErr, IfOk, IfSome, None, OnErr, OnOk};
ghost use Rattle.debug_model.specs.Wire.{piece_most};
ghost use Rattle.elf_load.specs.Elf.{ReadsAs};
ghost use Rattle.jtag_run.specs.Ends.{ElfEnd, ProbeElfEnd};
ghost use Rattle.jtag_run.specs.Jobs.{both_elf_value, halted, probe_elf_value};
ghost use Rattle.jtag_run.specs.Ran.{PreparedElf, RanElf, RanProbeElf};
ghost use Rattle.jtag_run.specs.Refusal.{ElfCause, asked_elf};
ghost use Rattle.jtag_run.specs.Sessions.{IsLoadedBench};
ghost use Rattle.command_line.specs.WrittenJob.{InRange, OptionsInRange, least_piece};

use crate::elf_file::{ElfInputs, read_inputs};
use crate::elf_sessions::{run_elf_on_bench, run_elf_on_net};
use crate::last_line::{refuse, tell};
use crate::opening::refusal_of;
use crate::prepare::load_chip;
use crate::refusal::Refusal;
use crate::status::Status;
use crate::words::{ElfJob, ProbeElfJob};
use chip_core::Bench;
use command_line::ChipOptions;
use debug_model::{Net, Schedule};
use jt_base::{Files, Sink};
use std::alloc::Global;
use sys_events::SeedSchedule;

/// These options, with harts that are halted at the start.
#[tactic(auto, using(crate::proofs::ElfFiles::halted_in_range))]
fn halted(options: &ChipOptions) -> ChipOptions
    requires options { OptionsInRange options.now }
    ensures halted { result ≡ halted options.now }
    ensures ranges { OptionsInRange result }
{
    ChipOptions {
        halted: true,
        ..*options
    }
}

/// Reads and judges the script and the ELF file of this job, in this order, and makes a chip with memory of zeros whose harts are halted. The first refusal
/// ends it, and the bench stays as it was then.
fn prepare_elf<'a, F: Files>(
    alloc: Global,
    job: &'a ElfJob,
    files: &mut F,
    bench: &mut Bench<SeedSchedule>,
) -> Result<ElfInputs, Refusal<'a>>
    requires options { OptionsInRange job.now.options }
    ensures prepared { IfOk result (λ inputs. PreparedElf (both_elf_value job.now) (F.held files.old) inputs.script inputs.file.bytes.items bench.new) }
    ensures reads { IfOk result (λ inputs. ReadsAs inputs.file.bytes.items inputs.file.elf) }
    ensures asked { OnOk result (F.asked files.new ≡ asked_elf (both_elf_value job.now).script (both_elf_value job.now).file
        (record { held = F.held files.old; asked = F.asked files.old; faults = F.fault_count files.old })) }
    ensures cause { IfErr result (ElfCause (both_elf_value job.now)
        (record { held = F.held files.old; asked = F.asked files.old; faults = F.fault_count files.old })
        (record { held = F.held files.new; asked = F.asked files.new; faults = F.fault_count files.new })) }
    ensures kept { OnErr result (bench.new ≡ bench.old) }
{
    let inputs = read_inputs(alloc, files, job.script.as_str(), job.file.as_str())?;
    load_chip(alloc, bench, &[], &halted(&job.options))?;
    Ok(inputs)
}

/// Runs such a session on a bench, whose chip is as it was loaded, over a wire that carries pieces of at most `piece` bytes, from 1 to 256; ends the stream, and
/// says what came of it. It takes no memory.
fn elf_with<Q: Schedule, K: Sink>(
    inputs: &ElfInputs,
    bench: &mut Bench<Q>,
    piece: usize,
    out: &mut K,
) -> Status
    requires piece { (1 ≤ piece) × (piece ≤ piece_most) }
    requires fresh { IsLoadedBench bench.old }
    requires read { ReadsAs inputs.now.file.bytes.items inputs.now.file.elf }
    ensures ended { IfSome bench.old (λ first. ElfEnd first inputs.now.file.bytes.items inputs.now.script
        (record { printed = K.contents out.old; faults = K.fault_count out.old })
        (record { printed = K.contents out.new; faults = K.fault_count out.new })
        bench.new result) }
{
    let ElfInputs { script, file } = inputs;
    let ended = run_elf_on_bench(&file.elf, &file.bytes, script, bench, piece, out);
    tell(out, ended, bench.at_limit())
}

/// Reads what this job names, makes its chip, and runs its session. Where something is refused the bench stays as it was.
pub fn run_elf<F: Files, K: Sink>(
    alloc: Global,
    job: &ElfJob,
    files: &mut F,
    out: &mut K,
    bench: &mut Bench<SeedSchedule>,
) -> Status
    requires piece { InRange least_piece piece_most job.now.piece }
    requires options { OptionsInRange job.now.options }
    ensures ended { RanElf (both_elf_value job.now)
        (record { held = F.held files.old; asked = F.asked files.old; faults = F.fault_count files.old })
        (record { held = F.held files.new; asked = F.asked files.new; faults = F.fault_count files.new })
        (record { printed = K.contents out.old; faults = K.fault_count out.old })
        (record { printed = K.contents out.new; faults = K.fault_count out.new })
        bench.old bench.new result }
{
    match prepare_elf(alloc, job, files, bench) {
        Ok(inputs) => elf_with(&inputs, bench, usize::from(job.piece), out),
        Err(refusal) => refuse(out, refusal),
    }
}

/// Connects the net to a chip at this address, and runs such a session there.
fn probe_elf_at<N: Net, K: Sink>(
    alloc: Global,
    at: &str,
    inputs: &ElfInputs,
    net: &mut N,
    out: &mut K,
) -> Status
    requires unopened { (N.state net.old).ties.opening ≡ None }
    requires read { ReadsAs inputs.now.file.bytes.items inputs.now.file.elf }
    ensures ended { ProbeElfEnd at.now inputs.now.file.bytes.items inputs.now.script
        (record { state = N.state net.old; peer = N.peer net.old; faults = N.fault_count net.old; ends = N.end_count net.old })
        (record { state = N.state net.new; peer = N.peer net.new; faults = N.fault_count net.new; ends = N.end_count net.new })
        (record { printed = K.contents out.old; faults = K.fault_count out.old })
        (record { printed = K.contents out.new; faults = K.fault_count out.new })
        result }
{
    match net.connect(alloc, at) {
        Ok(()) => {
            let ElfInputs { script, file } = inputs;
            let ended = run_elf_on_net(&file.elf, &file.bytes, script, net, out);
            tell(out, ended, false)
        }
        Err(fault) => refuse(out, refusal_of(fault)),
    }
}

/// Reads and judges the script and the ELF file of this job, and runs its session over the net. Nothing is opened where one of them is refused.
pub fn run_probe_elf<F: Files, N: Net, K: Sink>(
    alloc: Global,
    job: &ProbeElfJob,
    files: &mut F,
    net: &mut N,
    out: &mut K,
) -> Status
    requires unopened { (N.state net.old).ties.opening ≡ None }
    ensures ended { RanProbeElf (probe_elf_value job.now)
        (record {
          files = record { held = F.held files.old; asked = F.asked files.old; faults = F.fault_count files.old };
          net = record { state = N.state net.old; peer = N.peer net.old; faults = N.fault_count net.old; ends = N.end_count net.old };
          sink = record { printed = K.contents out.old; faults = K.fault_count out.old };
        })
        (record {
          files = record { held = F.held files.new; asked = F.asked files.new; faults = F.fault_count files.new };
          net = record { state = N.state net.new; peer = N.peer net.new; faults = N.fault_count net.new; ends = N.end_count net.new };
          sink = record { printed = K.contents out.new; faults = K.fault_count out.new };
        })
        result }
{
    match read_inputs(alloc, files, job.script.as_str(), job.file.as_str()) {
        Ok(inputs) => probe_elf_at(alloc, job.at.as_str(), &inputs, net, out),
        Err(refusal) => refuse(out, refusal),
    }
}
