ghost use Rattle.std.specs.Prelude.{◌≡◌, ◌≤◌, IfErr, IsSome, None, OnOk, codes, false, map, string_bytes, true};
ghost use Rattle.clap.specs.Words.{app_of, is_simple_and_free};
ghost use Rattle.command_line.specs.Why.{HasNumber, Names, NamesAt, NamesBy, NamesIn, UnlessTaken, bars_elf, bars_soft, command_at, least_of, most_of};
ghost use Rattle.command_line.specs.Options.{both_command, chip_command, probe_command, sniff_command};
ghost use Rattle.command_line.specs.WrittenJob.{both_in, both_of, chain_in, chip_in, chip_of, elf_in, flag_in, image_in, inputs_in, job_by, job_of, options_in, plain_in};
ghost use Rattle.command_line.specs.WrittenJob.{probe_elf_in, probe_in, probe_of, probe_plain_in, probe_script_in, probe_soft_in, rows_found, rows_in, sniff_in};
ghost use Rattle.command_line.specs.WrittenJob.{sniff_of, soft_in, value_in, way_in};
ghost use Rattle.command_line.specs.declared.why.Refused.TheVariants.{NoMemory};

use crate::chains::plan_of;
use crate::fault::WordsFault;
use crate::options::{
    ANSWERS, AT, BUSY, CHAIN, ELF, EVENTS, GEN, HARTS, IMAGE, LOOPBACK, PIECE, RAM, SCRIPT, SEED,
    SOFT, STREAM, both_command, chip_command, probe_command, sniff_command,
};
use crate::reading::{PIECE_LEAST, fault_by};
use crate::values::{BUSY_LEAST, BUSY_MOST, EVENTS_LEAST, flag, number_of, value};
use clap::{ArgMatches, Command};
use debug_model::{PIECE_MOST, POINTS_HIGHEST};
use std::alloc::{AllocError, AllocFailed, Global};
use std::fmt::{Display, Formatter};
use std::{error, fmt};

/// Which of the words is why they write no job. Its `Display` is a sentence for the user.
#[derive(Debug, Drop)]
pub enum Refused<'a> {
    /// There are none.
    NoWords,
    /// The first word names no job.
    NoJob(&'a str),
    /// The job's command does not take the rest: what `clap` says of that.
    Unfit(String),
    /// An option is not there.
    Missing(&'static str),
    /// An option that stands beside `--gen`.
    BesideGen(&'static str),
    /// The word of this option is no number below 2^64.
    NoNumber(&'static str, &'a str),
    /// The number of this option is out of its range.
    OutOfRange {
        option: &'static str,
        word: &'a str,
        least: u64,
        most: u64,
    },
    /// The word of `--chain` is no list of a chip and 1 to 7 other devices.
    NoChain(&'a str),
    /// `--chain` stands beside `--loopback`.
    ChainLooped,
    /// An option that stands beside `--elf`.
    BesideElf(&'static str),
    /// `--elf` stands beside `--loopback`.
    ElfLooped,
    /// An option that stands beside `--soft`.
    BesideSoft(&'static str),
    /// `--soft` stands beside `--loopback`.
    SoftLooped,
    /// No memory was left to tell.
    NoMemory,
}

impl From<AllocError> for Refused<'_> {
    ghost from_gives = { λ _ e. e ≡ NoMemory };

    fn from(_: AllocError) -> Self {
        Refused::NoMemory
    }
}

impl<T: Drop> From<AllocFailed<T>> for Refused<'_> {
    ghost from_gives = { λ _ e. e ≡ NoMemory };

    fn from(_: AllocFailed<T>) -> Self {
        Refused::NoMemory
    }
}

impl Display for Refused<'_> {
    fn fmt<W: fmt::Write>(&self, f: &mut Formatter<W>) -> fmt::Result {
        match self {
            Refused::NoWords => write!(f, "there are none"),
            Refused::NoJob(word) => write!(
                f,
                "'{word}' is no job: both, probe, chip and sniff are"
            ),
            Refused::Unfit(text) => {
                let line = text.as_str().lines().next().unwrap_or("");
                write!(f, "{}", line.strip_prefix("error: ").unwrap_or(line))
            }
            Refused::Missing(option) => write!(f, "--{option} is missing"),
            Refused::BesideGen(option) => write!(f, "--{option} may not stand beside --gen"),
            Refused::NoNumber(option, word) => write!(
                f,
                "'{word}' of --{option} is no number below 2^64, decimal or 0x and hexadecimal digits"
            ),
            Refused::OutOfRange {
                option,
                word,
                least,
                most,
            } => write!(f, "{word} of --{option} is not from {least} to {most}"),
            Refused::NoChain(list) => write!(
                f,
                "'{list}' of --chain is no list from TDI to TDO, parted by commas, of 't' for the chip and the instruction register lengths, \
                 from 2 to 8, of 1 to 7 others"
            ),
            Refused::ChainLooped => write!(f, "--chain may not stand beside --loopback"),
            Refused::BesideElf(option) => write!(f, "--{option} may not stand beside --elf"),
            Refused::ElfLooped => write!(f, "--elf may not stand beside --loopback"),
            Refused::BesideSoft(option) => write!(f, "--{option} may not stand beside --soft"),
            Refused::SoftLooped => write!(f, "--soft may not stand beside --loopback"),
            Refused::NoMemory => write!(f, "no memory was left to tell which"),
        }
    }
}

impl error::Error for Refused<'_> {}

/// Which of the words after the program's name is why they write no job. Ok exactly where they write one.
#[tactic(auto, using(crate::proofs::Whys::names_first, crate::proofs::Whys::names_no_words, crate::proofs::Writing::writes_first))]
pub fn why_refused<'a>(alloc: Global, words: &'a [String]) -> Result<(), Refused<'a>>
    ensures named { IfErr result (Names (map string_bytes words.now)) }
    ensures writes { OnOk result (IsSome (job_of (map string_bytes words.now))) }
{
    let Some(job) = words.first() else {
        return Err(Refused::NoWords);
    };
    why_of(alloc, job.as_str(), words)
}

/// The same of words of which the first is `job`.
fn why_of<'a>(alloc: Global, job: &'a str, words: &'a [String]) -> Result<(), Refused<'a>>
    ensures named { IfErr result (NamesAt (command_at job.now) job.now (map string_bytes words.now)) }
    ensures writes { OnOk result (IsSome (job_by job.now (map string_bytes words.now))) }
{
    if job == "both" {
        why_both(alloc, words)
    } else if job == "probe" {
        why_probe(alloc, words)
    } else if job == "chip" {
        why_chip(alloc, words)
    } else if job == "sniff" {
        why_sniff(alloc, words)
    } else {
        Err(Refused::NoJob(job))
    }
}

/// The same of the words of `both`.
#[tactic(auto, using(crate::proofs::Whys::names_taken, crate::proofs::Whys::names_untaken, crate::proofs::Writing::writes_by))]
fn why_both<'a>(alloc: Global, words: &'a [String]) -> Result<(), Refused<'a>>
    ensures named { IfErr result (NamesBy (rows_in both_command (map string_bytes words.now))) }
    ensures writes { OnOk result (IsSome (both_of (map string_bytes words.now))) }
{
    let command = both_command(alloc)?;
    let matches = matched(alloc, command, words)?;
    check_both(&matches)?;
    Ok(())
}

/// The same of the words of `probe`.
#[tactic(auto, using(crate::proofs::Whys::names_taken, crate::proofs::Whys::names_untaken, crate::proofs::Writing::writes_by))]
fn why_probe<'a>(alloc: Global, words: &'a [String]) -> Result<(), Refused<'a>>
    ensures named { IfErr result (NamesBy (rows_in probe_command (map string_bytes words.now))) }
    ensures writes { OnOk result (IsSome (probe_of (map string_bytes words.now))) }
{
    let command = probe_command(alloc)?;
    let matches = matched(alloc, command, words)?;
    check_probe(&matches)?;
    Ok(())
}

/// The same of the words of `chip`.
#[tactic(auto, using(crate::proofs::Whys::names_taken, crate::proofs::Whys::names_untaken, crate::proofs::Writing::writes_by))]
fn why_chip<'a>(alloc: Global, words: &'a [String]) -> Result<(), Refused<'a>>
    ensures named { IfErr result (NamesBy (rows_in chip_command (map string_bytes words.now))) }
    ensures writes { OnOk result (IsSome (chip_of (map string_bytes words.now))) }
{
    let command = chip_command(alloc)?;
    let matches = matched(alloc, command, words)?;
    check_chip(&matches)?;
    Ok(())
}

/// The same of the words of `sniff`.
#[tactic(auto, using(crate::proofs::Whys::names_taken, crate::proofs::Whys::names_untaken, crate::proofs::Writing::writes_by))]
fn why_sniff<'a>(alloc: Global, words: &'a [String]) -> Result<(), Refused<'a>>
    ensures named { IfErr result (NamesBy (rows_in sniff_command (map string_bytes words.now))) }
    ensures writes { OnOk result (IsSome (sniff_of (map string_bytes words.now))) }
{
    let command = sniff_command(alloc)?;
    let matches = matched(alloc, command, words)?;
    check_sniff(&matches)?;
    Ok(())
}

/// What the command finds in the words after the first, where it takes them.
fn matched<'a>(
    alloc: Global,
    command: Command<'a>,
    words: &'a [String],
) -> Result<ArgMatches<'a>, Refused<'a>>
    requires { is_simple_and_free (app_of command) ≡ true }
    ensures taken { UnlessTaken (app_of command.entry) (map string_bytes words.entry.now) result }
{
    match command.try_get_matches_from(words) {
        Ok(matches) => Ok(matches),
        Err(error) => match fault_by(&error) {
            WordsFault::NoMemory => Err(Refused::NoMemory),
            WordsFault::Refused => Err(Refused::Unfit(format!(in alloc; "{error}")?)),
        },
    }
}

/// Checks the options of `both`, in the order in which they are read.
#[tactic(auto, using(crate::proofs::SoftWriting::both_plain, crate::proofs::SoftWriting::both_with_soft))]
fn check_both<'a>(matches: &ArgMatches<'a>) -> Result<(), Refused<'a>>
    ensures named { IfErr result (NamesIn (rows_found matches.now)) }
    ensures writes { OnOk result (IsSome (both_in (rows_found matches.now))) }
{
    if flag(matches, SOFT) {
        check_soft(matches)?;
        return Ok(());
    }
    check_plain(matches)?;
    Ok(())
}

/// The same of those with software breakpoints.
#[tactic(auto, using(crate::proofs::SoftWriting::soft_writes))]
fn check_soft<'a>(matches: &ArgMatches<'a>) -> Result<(), Refused<'a>>
    requires soft { flag_in (rows_found matches.now) (codes "soft") ≡ true }
    ensures named { IfErr result (NamesIn (rows_found matches.now)) }
    ensures writes { OnOk result (IsSome (soft_in (rows_found matches.now))) }
{
    check_beside_soft(matches, ELF)?;
    check_beside_soft(matches, GEN)?;
    check_beside_soft(matches, CHAIN)?;
    check_soft_way(matches)?;
    check_given(matches, IMAGE)?;
    check_given(matches, SCRIPT)?;
    check_chip_options(matches)?;
    check_number(matches, PIECE, PIECE_LEAST, PIECE_MOST as u64)?;
    Ok(())
}

/// The same of those without them.
#[tactic(auto, using(crate::proofs::Writing::both_with_image, crate::proofs::Writing::both_with_elf))]
fn check_plain<'a>(matches: &ArgMatches<'a>) -> Result<(), Refused<'a>>
    ensures named { IfErr result (NamesIn (rows_found matches.now)) }
    ensures writes { OnOk result (IsSome (plain_in (rows_found matches.now))) }
{
    if value(matches, ELF).is_none() {
        check_image(matches)?;
        return Ok(());
    }
    check_elf(matches)?;
    Ok(())
}

/// The same of those with an ELF file.
#[tactic(auto, using(crate::proofs::Writing::elf_writes))]
fn check_elf<'a>(matches: &ArgMatches<'a>) -> Result<(), Refused<'a>>
    ensures named { IfErr result (NamesIn (rows_found matches.now)) }
    ensures writes { OnOk result (IsSome (elf_in (rows_found matches.now))) }
{
    check_given(matches, ELF)?;
    check_beside_elf(matches, IMAGE)?;
    check_beside_elf(matches, GEN)?;
    check_beside_elf(matches, CHAIN)?;
    check_elf_way(matches)?;
    check_given(matches, SCRIPT)?;
    check_chip_options(matches)?;
    check_number(matches, PIECE, PIECE_LEAST, PIECE_MOST as u64)?;
    Ok(())
}

/// The same of those with an image or a number.
#[tactic(auto, using(crate::proofs::Writing::image_writes))]
fn check_image<'a>(matches: &ArgMatches<'a>) -> Result<(), Refused<'a>>
    ensures named { IfErr result (NamesIn (rows_found matches.now)) }
    ensures writes { OnOk result (IsSome (image_in (rows_found matches.now))) }
{
    check_inputs(matches)?;
    check_chip_options(matches)?;
    check_number(matches, PIECE, PIECE_LEAST, PIECE_MOST as u64)?;
    check_way(matches)?;
    Ok(())
}

/// Checks the options of `probe`.
#[tactic(auto, using(crate::proofs::SoftWriting::probe_plain, crate::proofs::SoftWriting::probe_with_soft))]
fn check_probe<'a>(matches: &ArgMatches<'a>) -> Result<(), Refused<'a>>
    ensures named { IfErr result (NamesIn (rows_found matches.now)) }
    ensures writes { OnOk result (IsSome (probe_in (rows_found matches.now))) }
{
    if flag(matches, SOFT) {
        check_probe_soft(matches)?;
        return Ok(());
    }
    check_probe_plain(matches)?;
    Ok(())
}

/// The same of those with software breakpoints.
#[tactic(auto, using(crate::proofs::SoftWriting::probe_soft_writes))]
fn check_probe_soft<'a>(matches: &ArgMatches<'a>) -> Result<(), Refused<'a>>
    requires soft { flag_in (rows_found matches.now) (codes "soft") ≡ true }
    ensures named { IfErr result (NamesIn (rows_found matches.now)) }
    ensures writes { OnOk result (IsSome (probe_soft_in (rows_found matches.now))) }
{
    check_beside_soft(matches, ELF)?;
    check_beside_soft(matches, CHAIN)?;
    check_given(matches, AT)?;
    check_given(matches, SCRIPT)?;
    Ok(())
}

/// The same of those without them.
#[tactic(auto, using(crate::proofs::Writing::probe_with_script, crate::proofs::Writing::probe_with_elf))]
fn check_probe_plain<'a>(matches: &ArgMatches<'a>) -> Result<(), Refused<'a>>
    ensures named { IfErr result (NamesIn (rows_found matches.now)) }
    ensures writes { OnOk result (IsSome (probe_plain_in (rows_found matches.now))) }
{
    if value(matches, ELF).is_none() {
        check_probe_script(matches)?;
        return Ok(());
    }
    check_probe_elf(matches)?;
    Ok(())
}

/// The same of those with an ELF file.
#[tactic(auto, using(crate::proofs::Writing::probe_elf_writes))]
fn check_probe_elf<'a>(matches: &ArgMatches<'a>) -> Result<(), Refused<'a>>
    ensures named { IfErr result (NamesIn (rows_found matches.now)) }
    ensures writes { OnOk result (IsSome (probe_elf_in (rows_found matches.now))) }
{
    check_given(matches, ELF)?;
    check_beside_elf(matches, CHAIN)?;
    check_given(matches, AT)?;
    check_given(matches, SCRIPT)?;
    Ok(())
}

/// The same of those with a script alone.
#[tactic(auto, using(crate::proofs::Writing::probe_writes))]
fn check_probe_script<'a>(matches: &ArgMatches<'a>) -> Result<(), Refused<'a>>
    ensures named { IfErr result (NamesIn (rows_found matches.now)) }
    ensures writes { OnOk result (IsSome (probe_script_in (rows_found matches.now))) }
{
    check_given(matches, AT)?;
    check_given(matches, SCRIPT)?;
    check_chain(matches)?;
    Ok(())
}

/// Checks the options of `chip`.
#[tactic(auto, using(crate::proofs::Writing::chip_writes))]
fn check_chip<'a>(matches: &ArgMatches<'a>) -> Result<(), Refused<'a>>
    ensures named { IfErr result (NamesIn (rows_found matches.now)) }
    ensures writes { OnOk result (IsSome (chip_in (rows_found matches.now))) }
{
    check_given(matches, AT)?;
    check_given(matches, IMAGE)?;
    check_chip_options(matches)?;
    check_chain(matches)?;
    Ok(())
}

/// Checks the options of `sniff`.
#[tactic(auto, using(crate::proofs::Writing::sniff_writes))]
fn check_sniff<'a>(matches: &ArgMatches<'a>) -> Result<(), Refused<'a>>
    ensures named { IfErr result (NamesIn (rows_found matches.now)) }
    ensures writes { OnOk result (IsSome (sniff_in (rows_found matches.now))) }
{
    check_given(matches, STREAM)?;
    check_given(matches, ANSWERS)?;
    Ok(())
}

/// Checks the numbers that say how a chip is made.
#[tactic(auto, using(crate::proofs::Writing::options_write))]
fn check_chip_options<'a>(matches: &ArgMatches<'a>) -> Result<(), Refused<'a>>
    ensures named { IfErr result (NamesIn (rows_found matches.now)) }
    ensures writes { OnOk result (IsSome (options_in (rows_found matches.now))) }
{
    check_number(matches, HARTS, 0, u64::MAX)?;
    check_number(matches, RAM, 0, u64::MAX)?;
    check_number(matches, SEED, 0, u64::MAX)?;
    check_number(matches, BUSY, BUSY_LEAST, BUSY_MOST)?;
    check_number(matches, EVENTS, EVENTS_LEAST, POINTS_HIGHEST)?;
    Ok(())
}

/// The devices of a chain, where they are given.
#[tactic(auto, using(crate::proofs::ChainWriting::chain_unsaid, crate::proofs::ChainWriting::chain_said))]
fn check_chain<'a>(matches: &ArgMatches<'a>) -> Result<(), Refused<'a>>
    ensures named { IfErr result (NamesIn (rows_found matches.now)) }
    ensures writes { OnOk result (IsSome (chain_in (rows_found matches.now))) }
{
    let Some(list) = value(matches, CHAIN) else {
        return Ok(());
    };
    match plan_of(list) {
        Some(_) => Ok(()),
        None => Err(Refused::NoChain(list)),
    }
}

/// The devices of a chain, which may not stand beside `--loopback`.
#[tactic(auto, using(crate::proofs::ChainWriting::way_unsaid, crate::proofs::ChainWriting::way_unlooped))]
fn check_way<'a>(matches: &ArgMatches<'a>) -> Result<(), Refused<'a>>
    ensures named { IfErr result (NamesIn (rows_found matches.now)) }
    ensures writes { OnOk result (IsSome (way_in (rows_found matches.now))) }
{
    check_chain(matches)?;
    if value(matches, CHAIN).is_some() && flag(matches, LOOPBACK) {
        return Err(Refused::ChainLooped);
    }
    Ok(())
}

/// Two files without a number, or a number alone.
#[tactic(auto, using(crate::proofs::Writing::files_write, crate::proofs::Writing::number_writes))]
fn check_inputs<'a>(matches: &ArgMatches<'a>) -> Result<(), Refused<'a>>
    ensures named { IfErr result (NamesIn (rows_found matches.now)) }
    ensures writes { OnOk result (IsSome (inputs_in (rows_found matches.now))) }
{
    if value(matches, GEN).is_none() {
        check_given(matches, IMAGE)?;
        check_given(matches, SCRIPT)?;
        return Ok(());
    }
    check_beside(matches, IMAGE)?;
    check_beside(matches, SCRIPT)?;
    check_number(matches, GEN, 0, u64::MAX)?;
    Ok(())
}

/// An option that has to be given.
fn check_given<'a>(matches: &ArgMatches<'a>, option: &'static str) -> Result<(), Refused<'a>>
    ensures named { IfErr result (NamesIn (rows_found matches.now)) }
    ensures given { OnOk result (IsSome (value_in (rows_found matches.now) option.now)) }
{
    match value(matches, option) {
        Some(_) => Ok(()),
        None => Err(Refused::Missing(option)),
    }
}

/// An option that may not be given beside `--gen`.
fn check_beside<'a>(matches: &ArgMatches<'a>, option: &'static str) -> Result<(), Refused<'a>>
    ensures named { IfErr result (NamesIn (rows_found matches.now)) }
    ensures alone { OnOk result (IsSome (value_in (rows_found matches.now) (codes "gen")) → value_in (rows_found matches.now) option.now ≡ None) }
{
    match (value(matches, option), value(matches, GEN)) {
        (Some(_), Some(_)) => Err(Refused::BesideGen(option)),
        _ => Ok(()),
    }
}

/// An option that may not be given beside `--elf`.
fn check_beside_elf<'a>(matches: &ArgMatches<'a>, option: &'static str) -> Result<(), Refused<'a>>
    requires barred { bars_elf option.now ≡ true }
    ensures named { IfErr result (NamesIn (rows_found matches.now)) }
    ensures alone { OnOk result (IsSome (value_in (rows_found matches.now) (codes "elf")) → value_in (rows_found matches.now) option.now ≡ None) }
{
    match (value(matches, option), value(matches, ELF)) {
        (Some(_), Some(_)) => Err(Refused::BesideElf(option)),
        _ => Ok(()),
    }
}

/// `--loopback`, which may not be given beside `--elf`.
fn check_elf_way<'a>(matches: &ArgMatches<'a>) -> Result<(), Refused<'a>>
    ensures named { IfErr result (NamesIn (rows_found matches.now)) }
    ensures straight { OnOk result (IsSome (value_in (rows_found matches.now) (codes "elf")) → flag_in (rows_found matches.now) (codes "loopback") ≡ false) }
{
    match (value(matches, ELF), flag(matches, LOOPBACK)) {
        (Some(_), true) => Err(Refused::ElfLooped),
        _ => Ok(()),
    }
}

/// An option that may not be given beside `--soft`.
fn check_beside_soft<'a>(matches: &ArgMatches<'a>, option: &'static str) -> Result<(), Refused<'a>>
    requires barred { bars_soft option.now ≡ true }
    ensures named { IfErr result (NamesIn (rows_found matches.now)) }
    ensures alone { OnOk result (flag_in (rows_found matches.now) (codes "soft") ≡ true → value_in (rows_found matches.now) option.now ≡ None) }
{
    match (value(matches, option), flag(matches, SOFT)) {
        (Some(_), true) => Err(Refused::BesideSoft(option)),
        _ => Ok(()),
    }
}

/// `--loopback`, which may not be given beside `--soft`.
fn check_soft_way<'a>(matches: &ArgMatches<'a>) -> Result<(), Refused<'a>>
    ensures named { IfErr result (NamesIn (rows_found matches.now)) }
    ensures straight { OnOk result (flag_in (rows_found matches.now) (codes "soft") ≡ true → flag_in (rows_found matches.now) (codes "loopback") ≡ false) }
{
    if flag(matches, SOFT) && flag(matches, LOOPBACK) {
        return Err(Refused::SoftLooped);
    }
    Ok(())
}

/// The number of an option, where it is given.
#[tactic(auto, using(crate::proofs::Writing::number_unsaid))]
fn check_number<'a>(
    matches: &ArgMatches<'a>,
    option: &'static str,
    least: u64,
    most: u64,
) -> Result<(), Refused<'a>>
    requires least { least ≡ least_of option.now }
    requires most { most ≡ most_of option.now }
    ensures named { IfErr result (NamesIn (rows_found matches.now)) }
    ensures number { OnOk result (HasNumber (rows_found matches.now) option.now least most) }
{
    let Some(word) = value(matches, option) else {
        return Ok(());
    };
    match number_of(word) {
        Ok(number) if least <= number && number <= most => Ok(()),
        Ok(_) => Err(Refused::OutOfRange {
            option,
            word,
            least,
            most,
        }),
        Err(WordsFault::Refused) => Err(Refused::NoNumber(option, word)),
        Err(WordsFault::NoMemory) => Err(Refused::NoMemory),
    }
}
