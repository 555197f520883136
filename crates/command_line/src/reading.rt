ghost use Rattle.std.specs.Prelude.{◌≡◌, ◌≢◌, IfOk, IsErrOf, Some, None, map, string_bytes, true};
ghost use Rattle.clap.specs.Words.{app_of, is_simple_and_free, kind_of};
ghost use Rattle.clap.specs.declared.error.kind.ErrorKind.TheVariants.{OutOfMemory};
ghost use Rattle.command_line.specs.Job.{Gives, job_value};
ghost use Rattle.command_line.specs.Options.{both_command, chip_command, probe_command, sniff_command};
ghost use Rattle.command_line.specs.WrittenJob.{HasRanges, both_in, both_of, chip_in, chip_of, elf_in, image_in, job_by, job_of, plain_in};
ghost use Rattle.command_line.specs.WrittenJob.{probe_elf_in, probe_in, probe_of, probe_plain_in, probe_script_in, probe_soft_in, rows_found, rows_in, sniff_in, sniff_of, soft_in};

use crate::fault::WordsFault;
use crate::job::Job;
use crate::options::{
    ANSWERS, AT, CHAIN, ELF, IMAGE, PIECE, SCRIPT, SOFT, STREAM, VCD, both_command, chip_command,
    probe_command, sniff_command,
};
use crate::values::{
    chain, chip_options, flag, inputs, is_elf_alone, is_probe_soft_alone, is_soft_alone, ranged,
    required, value, way,
};
use clap::error::ErrorKind;
use clap::{ArgMatches, Command, Error};
use debug_model::PIECE_MOST;
use std::alloc::Global;

/// The most bytes of a piece of the stream, where the words give none.
const PIECE_UNSAID: u64 = PIECE_MOST as u64;

pub(crate) const PIECE_LEAST: u64 = 1;

/// The job that the words after the program's name write.
///
/// # Errors
///
/// `Refused` exactly where the words write no job, and `NoMemory` where memory ran out.
pub fn read_words(alloc: Global, words: &[String]) -> Result<Job, WordsFault>
    ensures job { IfOk result (λ job. job_of (map string_bytes words.now) ≡ Some (job_value job)) }
    ensures ranges { IfOk result (λ job. HasRanges (job_value job)) }
    ensures refused { IsErrOf result WordsFault.Refused → job_of (map string_bytes words.now) ≡ None }
{
    read(alloc, words)
}

/// The job that the words write.
fn read(alloc: Global, words: &[String]) -> Result<Job, WordsFault>
    ensures { Gives job_value result (job_of (map string_bytes words.now)) }
{
    match words.first() {
        Some(program) => read_by(alloc, program.as_str(), words),
        None => Err(WordsFault::Refused),
    }
}

/// The job of words of which the first is `program`.
fn read_by(alloc: Global, program: &str, words: &[String]) -> Result<Job, WordsFault>
    ensures { Gives job_value result (job_by program.now (map string_bytes words.now)) }
{
    if program == "both" {
        read_both(alloc, words)
    } else if program == "probe" {
        read_probe(alloc, words)
    } else if program == "chip" {
        read_chip(alloc, words)
    } else if program == "sniff" {
        read_sniff(alloc, words)
    } else {
        Err(WordsFault::Refused)
    }
}

/// The job of the words of `both`.
fn read_both(alloc: Global, words: &[String]) -> Result<Job, WordsFault>
    ensures { Gives job_value result (both_of (map string_bytes words.now)) }
{
    let matches = both_matches(alloc, words)?;
    both_in(alloc, &matches)
}

/// The job of the words of `probe`.
fn read_probe(alloc: Global, words: &[String]) -> Result<Job, WordsFault>
    ensures { Gives job_value result (probe_of (map string_bytes words.now)) }
{
    let matches = probe_matches(alloc, words)?;
    probe_in(alloc, &matches)
}

/// The job of the words of `chip`.
fn read_chip(alloc: Global, words: &[String]) -> Result<Job, WordsFault>
    ensures { Gives job_value result (chip_of (map string_bytes words.now)) }
{
    let matches = chip_matches(alloc, words)?;
    chip_in(alloc, &matches)
}

/// The job of the words of `sniff`.
fn read_sniff(alloc: Global, words: &[String]) -> Result<Job, WordsFault>
    ensures { Gives job_value result (sniff_of (map string_bytes words.now)) }
{
    let matches = sniff_matches(alloc, words)?;
    sniff_in(alloc, &matches)
}

/// The job of chip and probe in one process.
fn both_in(alloc: Global, matches: &ArgMatches) -> Result<Job, WordsFault>
    ensures { Gives job_value result (both_in (rows_found matches.now)) }
{
    if flag(matches, SOFT) {
        soft_in(alloc, matches)
    } else {
        plain_in(alloc, matches)
    }
}

/// The same, with software breakpoints.
fn soft_in(alloc: Global, matches: &ArgMatches) -> Result<Job, WordsFault>
    ensures { Gives job_value result (soft_in (rows_found matches.now)) }
{
    if !is_soft_alone(matches) {
        return Err(WordsFault::Refused);
    }
    let image = required(alloc, matches, IMAGE)?;
    let script = required(alloc, matches, SCRIPT)?;
    let options = chip_options(matches)?;
    let piece = ranged(matches, PIECE, PIECE_UNSAID, PIECE_LEAST, PIECE_MOST as u64)?;
    Ok(Job::Soft {
        image,
        script,
        options,
        piece: piece as u16,
    })
}

/// The same, without them.
fn plain_in(alloc: Global, matches: &ArgMatches) -> Result<Job, WordsFault>
    ensures { Gives job_value result (plain_in (rows_found matches.now)) }
{
    match value(matches, ELF) {
        None => image_in(alloc, matches),
        Some(_) => elf_in(alloc, matches),
    }
}

/// The same, where the probe loads an ELF file.
fn elf_in(alloc: Global, matches: &ArgMatches) -> Result<Job, WordsFault>
    ensures { Gives job_value result (elf_in (rows_found matches.now)) }
{
    if !is_elf_alone(matches) {
        return Err(WordsFault::Refused);
    }
    let file = required(alloc, matches, ELF)?;
    let script = required(alloc, matches, SCRIPT)?;
    let options = chip_options(matches)?;
    let piece = ranged(matches, PIECE, PIECE_UNSAID, PIECE_LEAST, PIECE_MOST as u64)?;
    Ok(Job::Elf {
        file,
        script,
        options,
        piece: piece as u16,
    })
}

/// The same, with an image or a number.
fn image_in(alloc: Global, matches: &ArgMatches) -> Result<Job, WordsFault>
    ensures { Gives job_value result (image_in (rows_found matches.now)) }
{
    let inputs = inputs(alloc, matches)?;
    let options = chip_options(matches)?;
    let piece = ranged(matches, PIECE, PIECE_UNSAID, PIECE_LEAST, PIECE_MOST as u64)?;
    let way = way(matches)?;
    Ok(Job::Both(inputs, options, piece as u16, way))
}

/// The job of the probe alone.
fn probe_in(alloc: Global, matches: &ArgMatches) -> Result<Job, WordsFault>
    ensures { Gives job_value result (probe_in (rows_found matches.now)) }
{
    if flag(matches, SOFT) {
        probe_soft_in(alloc, matches)
    } else {
        probe_plain_in(alloc, matches)
    }
}

/// The same, with software breakpoints.
fn probe_soft_in(alloc: Global, matches: &ArgMatches) -> Result<Job, WordsFault>
    ensures { Gives job_value result (probe_soft_in (rows_found matches.now)) }
{
    if !is_probe_soft_alone(matches) {
        return Err(WordsFault::Refused);
    }
    let at = required(alloc, matches, AT)?;
    let script = required(alloc, matches, SCRIPT)?;
    Ok(Job::ProbeSoft { at, script })
}

/// The same, without them.
fn probe_plain_in(alloc: Global, matches: &ArgMatches) -> Result<Job, WordsFault>
    ensures { Gives job_value result (probe_plain_in (rows_found matches.now)) }
{
    match value(matches, ELF) {
        None => probe_script_in(alloc, matches),
        Some(_) => probe_elf_in(alloc, matches),
    }
}

/// The same, where it loads an ELF file. A chain may not stand beside that.
fn probe_elf_in(alloc: Global, matches: &ArgMatches) -> Result<Job, WordsFault>
    ensures { Gives job_value result (probe_elf_in (rows_found matches.now)) }
{
    if value(matches, CHAIN).is_some() {
        return Err(WordsFault::Refused);
    }
    let at = required(alloc, matches, AT)?;
    let file = required(alloc, matches, ELF)?;
    let script = required(alloc, matches, SCRIPT)?;
    Ok(Job::ProbeElf { at, file, script })
}

/// The same, with a script alone.
fn probe_script_in(alloc: Global, matches: &ArgMatches) -> Result<Job, WordsFault>
    ensures { Gives job_value result (probe_script_in (rows_found matches.now)) }
{
    let at = required(alloc, matches, AT)?;
    let script = required(alloc, matches, SCRIPT)?;
    let chain = chain(matches)?;
    Ok(Job::Probe { at, script, chain })
}

/// The job of the chip alone.
fn chip_in(alloc: Global, matches: &ArgMatches) -> Result<Job, WordsFault>
    ensures { Gives job_value result (chip_in (rows_found matches.now)) }
{
    let at = required(alloc, matches, AT)?;
    let image = required(alloc, matches, IMAGE)?;
    let options = chip_options(matches)?;
    let chain = chain(matches)?;
    Ok(Job::Chip {
        at,
        image,
        options,
        chain,
    })
}

/// The job of a recording.
fn sniff_in(alloc: Global, matches: &ArgMatches) -> Result<Job, WordsFault>
    ensures { Gives job_value result (sniff_in (rows_found matches.now)) }
{
    let stream = required(alloc, matches, STREAM)?;
    let answers = required(alloc, matches, ANSWERS)?;
    let waves = flag(matches, VCD);
    Ok(Job::Sniff {
        stream,
        answers,
        waves,
    })
}

/// What `both` finds in the words.
fn both_matches(alloc: Global, words: &[String]) -> Result<ArgMatches<'_>, WordsFault>
    ensures { Gives rows_found result (rows_in both_command (map string_bytes words.entry.now)) }
{
    let command = both_command(alloc)?;
    matches_of(command, words)
}

/// What `probe` finds in the words.
fn probe_matches(alloc: Global, words: &[String]) -> Result<ArgMatches<'_>, WordsFault>
    ensures { Gives rows_found result (rows_in probe_command (map string_bytes words.entry.now)) }
{
    let command = probe_command(alloc)?;
    matches_of(command, words)
}

/// What `chip` finds in the words.
fn chip_matches(alloc: Global, words: &[String]) -> Result<ArgMatches<'_>, WordsFault>
    ensures { Gives rows_found result (rows_in chip_command (map string_bytes words.entry.now)) }
{
    let command = chip_command(alloc)?;
    matches_of(command, words)
}

/// What `sniff` finds in the words.
fn sniff_matches(alloc: Global, words: &[String]) -> Result<ArgMatches<'_>, WordsFault>
    ensures { Gives rows_found result (rows_in sniff_command (map string_bytes words.entry.now)) }
{
    let command = sniff_command(alloc)?;
    matches_of(command, words)
}

/// What the command finds in the words after the first, where it takes them.
fn matches_of<'a>(command: Command<'a>, words: &'a [String]) -> Result<ArgMatches<'a>, WordsFault>
    requires { is_simple_and_free (app_of command) ≡ true }
    ensures { Gives rows_found result (rows_in (app_of command.entry) (map string_bytes words.entry.now)) }
{
    match command.try_get_matches_from(words) {
        Ok(matches) => Ok(matches),
        Err(error) => Err(fault_by(&error)),
    }
}

/// The fault of an error.
pub(crate) fn fault_by(error: &Error) -> WordsFault
    ensures { result ≡ WordsFault.Refused → kind_of error.now ≢ OutOfMemory }
{
    match error.kind() {
        ErrorKind::OutOfMemory => WordsFault::NoMemory,
        _ => WordsFault::Refused,
    }
}
