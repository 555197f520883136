//! What the program says on standard error of words, a script, an image or an ELF file that it has refused. It is judged once more by the calls that refused it.

use chip_core::{Bench, LoadFault};
use command_line::{ChipOptions, Job, read_words, why_refused};
use debug_model::{ScriptError, ScriptFault};
use elf_load::{ElfFault, read_elf};
use hart_debug::Start;
use jt_base::FileFault;
use jtag_run::Status;
use script_lang::{parse, parse_soft};
use std::alloc::Global;
use std::{io, str};
use sys_events::SeedSchedule;

/// The word that is at fault.
fn explain_words<R: Eprint>(runtime: &R, alloc: Global, words: &[String]) -> io::Result<()> {
    match why_refused(alloc, words) {
        Ok(()) => Ok(()),
        Err(why) => eprintln!(runtime; "the words were refused: {why}"),
    }
}

/// A line of a script that is text, from 1.
fn line_of(script: &[u8], line: u32) -> Option<&str> {
    let line = script
        .split(|byte| *byte == b'\n')
        .nth((line as usize).saturating_sub(1))?;
    str::from_utf8(line).ok()
}

/// Whether the script of these words may set software breakpoints.
fn sets_soft(alloc: Global, words: &[String]) -> bool {
    matches!(
        read_words(alloc, words),
        Ok(Job::Soft { .. } | Job::ProbeSoft { .. })
    )
}

/// The first fault of a text as a script, which may set software breakpoints or not.
fn script_fault(alloc: Global, script: &[u8], soft: bool) -> Option<ScriptError> {
    if soft {
        parse_soft(alloc, script).err()
    } else {
        parse(alloc, script).err()
    }
}

/// The script's first fault and its line.
fn explain_script<R: Eprint>(
    runtime: &R,
    alloc: Global,
    words: &[String],
    script: Result<&[u8], FileFault>,
) -> io::Result<()> {
    let script = match script {
        Ok(script) => script,
        Err(_) => {
            let error = ScriptError {
                line: 0,
                fault: ScriptFault::TooManyLines,
            };
            return eprintln!(runtime; "the script was refused: {error}");
        }
    };
    let Some(error) = script_fault(alloc, script, sets_soft(alloc, words)) else {
        return Ok(());
    };
    eprintln!(runtime; "the script was refused: {error}")?;
    match line_of(script, error.line) {
        Some(text) if error.line > 0 => eprintln!(runtime; "    {text}"),
        _ => Ok(()),
    }
}

/// How the chip of a job is made.
fn options_of(job: &Job) -> Option<ChipOptions> {
    match job {
        Job::Both(_, options, _, _) => Some(*options),
        Job::Elf { options, .. } => Some(*options),
        Job::Soft { options, .. } => Some(*options),
        Job::Chip { options, .. } => Some(*options),
        Job::Probe { .. } | Job::ProbeElf { .. } | Job::ProbeSoft { .. } | Job::Sniff { .. } =>
            None,
    }
}

/// Why no image could be loaded into a chip of these options, or else this one: it is too long.
fn load_fault(alloc: Global, options: &ChipOptions) -> LoadFault {
    let mut bench = Bench::blank();
    let schedule = SeedSchedule::new(0, 1, 1);
    match bench.load(
        alloc,
        &[],
        options.harts,
        options.ram,
        Start::Halted,
        schedule,
    ) {
        Ok(()) => LoadFault::TooLong,
        Err(fault) => fault,
    }
}

/// Whether a job loads an ELF file.
fn loads_elf(job: &Job) -> bool {
    matches!(job, Job::Elf { .. } | Job::ProbeElf { .. })
}

/// The fault of an ELF file, where it has one.
fn elf_fault(file: Result<&[u8], FileFault>) -> Option<ElfFault> {
    match file {
        Ok(bytes) => read_elf(bytes).err(),
        Err(_) => None,
    }
}

/// The fault of an image, of an ELF file or of a recording's file: the last has one alone.
fn explain_image<R: Eprint>(
    runtime: &R,
    alloc: Global,
    words: &[String],
    image: Result<&[u8], FileFault>,
) -> io::Result<()> {
    let Ok(job) = read_words(alloc, words) else {
        return Ok(());
    };
    if loads_elf(&job) {
        if let Some(fault) = elf_fault(image) {
            return eprintln!(runtime; "the ELF file was refused: {fault}");
        }
    }
    if loads_elf(&job) && matches!(image, Err(FileFault::TooLong)) {
        return eprintln!(runtime; "the ELF file was refused: it has more than 16777216 bytes");
    }
    let Some(options) = options_of(&job) else {
        return eprintln!(runtime;
            "a file of the recording was refused: it has more than 16777216 bytes"
        );
    };
    let fault = match image {
        Err(FileFault::TooLong) => LoadFault::TooLong,
        _ => load_fault(alloc, &options),
    };
    match fault {
        LoadFault::TooLong => eprintln!(runtime;
            "the image was refused: it has more bytes than RAM"
        ),
        LoadFault::BadSize => eprintln!(runtime;
            "the image was refused: {} of --ram is no multiple of 4096 from 65536 to 16777216",
            options.ram
        ),
        LoadFault::BadHarts => eprintln!(runtime;
            "the image was refused: {} of --harts is not from 1 to 4",
            options.harts
        ),
        LoadFault::NoMemory => Ok(()),
    }
}

/// Says what was refused and why, where a run with these words ended so. `last` is what it read last of a file.
pub fn explain<R: Eprint>(
    runtime: &R,
    alloc: Global,
    words: &[String],
    status: Status,
    last: Result<&[u8], FileFault>,
) -> io::Result<()> {
    match status {
        Status::Words => explain_words(runtime, alloc, words),
        Status::Script => explain_script(runtime, alloc, words, last),
        Status::Image => explain_image(runtime, alloc, words, last),
        _ => Ok(()),
    }
}
