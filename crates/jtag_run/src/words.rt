//! The job that the words behind the program's name write.

ghost use Rattle.std.specs.Prelude.{◌≡◌, IfOk, IfErr, Some, map, string_bytes};
ghost use Rattle.jtag_run.specs.Refusal.{WordsCause};
ghost use Rattle.jtag_run.specs.Jobs.{IsWork, HasWorkRanges};
ghost use Rattle.command_line.specs.Job.{both, inputs_value, job_value};
ghost use Rattle.command_line.specs.WrittenJob.{HasRanges, job_of};

use crate::refusal::Refusal;
use chain_scan::ChainPlan;
use command_line::{ChipOptions, Inputs, Job, Way, WordsFault, read_words};
use std::alloc::Global;

/// A chip and a probe in one process, with an image and a script from two files.
#[derive(Drop)]
pub struct BothJob {
    /// The file of the chip's image.
    pub image: String,
    /// The file of the session's script.
    pub script: String,
    /// How the chip is made.
    pub options: ChipOptions,
    /// The most bytes of a piece of the stream, from 1 to 256.
    pub piece: u16,
    /// The way of the stream to the chip.
    pub way: Way,
}

/// A chip and a probe in one process, with an image and a script that are made from a number.
#[derive(Drop)]
pub struct GenJob {
    /// The number that both are made from.
    pub number: u64,
    /// How the chip is made.
    pub options: ChipOptions,
    /// The most bytes of a piece of the stream, from 1 to 256.
    pub piece: u16,
    /// The way of the stream to the chip.
    pub way: Way,
}

/// A chip and a probe in one process: the probe loads an ELF file, and then runs a script.
#[derive(Drop)]
pub struct ElfJob {
    /// The ELF file.
    pub file: String,
    /// The file of the session's script.
    pub script: String,
    /// How the chip is made; its harts are halted at the start, whatever this says.
    pub options: ChipOptions,
    /// The most bytes of a piece of the stream, from 1 to 256.
    pub piece: u16,
}

/// A chip and a probe in one process, with a script that may set software breakpoints.
#[derive(Drop)]
pub struct SoftJob {
    /// The file of the chip's image.
    pub image: String,
    /// The file of the session's script.
    pub script: String,
    /// How the chip is made.
    pub options: ChipOptions,
    /// The most bytes of a piece of the stream, from 1 to 256.
    pub piece: u16,
}

/// A probe alone, which connects to a chip over a net, and runs a script that may set software breakpoints.
#[derive(Drop)]
pub struct ProbeSoftJob {
    /// The address of the chip.
    pub at: String,
    /// The file of the session's script.
    pub script: String,
}

/// A probe alone, which connects to a chip over a net, loads an ELF file and then runs a script.
#[derive(Drop)]
pub struct ProbeElfJob {
    /// The address of the chip.
    pub at: String,
    /// The ELF file.
    pub file: String,
    /// The file of the session's script.
    pub script: String,
}

/// A probe alone, which connects to a chip over a net.
#[derive(Drop)]
pub struct ProbeJob {
    /// The address of the chip.
    pub at: String,
    /// The file of the session's script.
    pub script: String,
    /// The devices beside the chip, where it is in a chain.
    pub chain: Option<ChainPlan>,
}

/// A chip that another debugger drives over a net.
#[derive(Drop)]
pub struct ChipJob {
    /// The address at which the chip waits for its client.
    pub at: String,
    /// The file of the chip's image.
    pub image: String,
    /// How the chip is made.
    pub options: ChipOptions,
    /// The devices beside the chip, where it is in a chain.
    pub chain: Option<ChainPlan>,
}

/// A recording of a wire.
#[derive(Drop)]
pub struct SniffJob {
    /// The file of the recorded stream.
    pub stream: String,
    /// The file of the answers that came to it.
    pub answers: String,
    /// Whether it is drawn as a waveform, and not listed.
    pub waves: bool,
}

/// What the program is to do.
#[derive(Drop)]
pub enum Work {
    /// Chip and probe in one process.
    Both(BothJob),
    /// The same, with what is made from a number.
    Gen(GenJob),
    /// Chip and probe in one process, with an ELF file that the probe loads.
    Elf(ElfJob),
    /// Chip and probe in one process, with a script that may set software breakpoints.
    Soft(SoftJob),
    /// The probe alone.
    Probe(ProbeJob),
    /// The same, with an ELF file that it loads.
    ProbeElf(ProbeElfJob),
    /// The same, with a script that may set software breakpoints.
    ProbeSoft(ProbeSoftJob),
    /// The chip alone.
    Chip(ChipJob),
    /// A recording of a wire.
    Sniff(SniffJob),
}

/// A chip and a probe in one process, by where the image and the script come from.
fn work_over(inputs: Inputs, options: ChipOptions, piece: u16, way: Way) -> Work
    ensures work { IsWork (Some (both (inputs_value inputs) options piece way)) result }
    ensures ranges { HasRanges (both (inputs_value inputs) options piece way) → HasWorkRanges result }
{
    match inputs {
        Inputs::Files { image, script } => Work::Both(BothJob {
            image,
            script,
            options,
            piece,
            way,
        }),
        Inputs::Gen(number) => Work::Gen(GenJob {
            number,
            options,
            piece,
            way,
        }),
    }
}

/// The work of a job.
fn work_of(job: Job) -> Work
    ensures work { IsWork (Some (job_value job)) result }
    ensures ranges { HasRanges (job_value job) → HasWorkRanges result }
{
    match job {
        Job::Both(inputs, options, piece, way) => work_over(inputs, options, piece, way),
        Job::Elf {
            file,
            script,
            options,
            piece,
        } => Work::Elf(ElfJob {
            file,
            script,
            options,
            piece,
        }),
        Job::Soft {
            image,
            script,
            options,
            piece,
        } => Work::Soft(SoftJob {
            image,
            script,
            options,
            piece,
        }),
        Job::Probe { at, script, chain } => Work::Probe(ProbeJob { at, script, chain }),
        Job::ProbeElf { at, file, script } => Work::ProbeElf(ProbeElfJob { at, file, script }),
        Job::ProbeSoft { at, script } => Work::ProbeSoft(ProbeSoftJob { at, script }),
        Job::Chip {
            at,
            image,
            options,
            chain,
        } => Work::Chip(ChipJob {
            at,
            image,
            options,
            chain,
        }),
        Job::Sniff {
            stream,
            answers,
            waves,
        } => Work::Sniff(SniffJob {
            stream,
            answers,
            waves,
        }),
    }
}

/// The job that the words behind the program's name write.
pub fn read_work(alloc: Global, words: &[String]) -> Result<Work, Refusal<'static>>
    ensures work { IfOk result (IsWork (job_of (map string_bytes words.now))) }
    ensures ranges { IfOk result HasWorkRanges }
    ensures cause { IfErr result (WordsCause (map string_bytes words.now)) }
{
    match read_words(alloc, words) {
        Ok(job) => Ok(work_of(job)),
        Err(WordsFault::Refused) => Err(Refusal::Words),
        Err(WordsFault::NoMemory) => Err(Refusal::OutOfMemory),
    }
}
