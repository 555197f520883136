ghost use Rattle.std.specs.Prelude.{◌≡◌, ◌≤◌, IfOk, string_bytes};
ghost use Rattle.command_line.specs.Job.{Gives, inputs_value};
ghost use Rattle.command_line.specs.Numbers.{number_of};
ghost use Rattle.command_line.specs.WrittenJob.{chain_in, flag_in, inputs_from, inputs_in, is_elf_alone, number_in, number_or, options_in};
ghost use Rattle.command_line.specs.WrittenJob.{is_probe_soft_alone, is_soft_alone};
ghost use Rattle.command_line.specs.WrittenJob.{ranged_in, rows_found, stands_alone, text_of, value_in, version_by, way_in};

use crate::chains::plan_of;
use crate::fault::WordsFault;
use crate::job::{ChipOptions, Inputs, Way};
use crate::options::{
    BUSY, CHAIN, ELF, EVENTS, GEN, HALTED, HARTS, IMAGE, LOOPBACK, RAM, SCRIPT, SEED, V013,
};
use chain_scan::ChainPlan;
use clap::ArgMatches;
use debug_model::{POINTS_HIGHEST, POINTS_USUAL};
use rv_model::Version;
use script_lang::read_number;
use std::alloc::Global;
use std::ops::RangeInclusive;

/// The harts of a chip whose words give no number of harts.
const HARTS_UNSAID: u64 = 1;
/// The bytes of memory of a chip whose words give no size.
const RAM_UNSAID: u64 = 65_536;
/// The seed of a schedule whose words give none.
const SEED_UNSAID: u64 = 0;
/// The most rounds between two events of a kind, where the words give none.
const BUSY_UNSAID: u64 = 1;

pub(crate) const BUSY_LEAST: u64 = 1;

pub(crate) const BUSY_MOST: u64 = 32;

pub(crate) const EVENTS_LEAST: u64 = 1;

/// The value of an option, where it was given.
pub(crate) fn value<'a>(matches: &ArgMatches<'a>, name: &str) -> Option<&'a str>
    ensures { text_of result ≡ value_in (rows_found matches.now) name.now }
{
    matches.get_str(name)
}

/// The value of an option that has to be given, as a text of its own.
pub(crate) fn required(
    alloc: Global,
    matches: &ArgMatches,
    name: &str,
) -> Result<String, WordsFault>
    ensures { Gives string_bytes result (value_in (rows_found matches.now) name.now) }
{
    let text = value(matches, name).ok_or(WordsFault::Refused)?;
    Ok(String::from_str(alloc, text)?)
}

/// Whether a flag was given.
pub(crate) fn flag(matches: &ArgMatches, name: &str) -> bool
    ensures { result ≡ flag_in (rows_found matches.now) name.now }
{
    match value(matches, name) {
        Some(text) => text == "true",
        None => false,
    }
}

/// The number that a word writes.
#[tactic(auto, unfolding(crate::specs::Numbers::number_of))]
pub(crate) fn number_of(word: &str) -> Result<u64, WordsFault>
    ensures { Gives (λ number. number) result (number_of word.now) }
{
    match read_number(word.as_bytes()) {
        Ok(number) => Ok(number),
        Err(_) => Err(WordsFault::Refused),
    }
}

/// The number of an option, or the one that stands where it wasn't given.
#[tactic(auto, unfolding(crate::specs::WrittenJob::number_in))]
fn number_in(matches: &ArgMatches, name: &str, unsaid: u64) -> Result<u64, WordsFault>
    ensures { Gives (λ number. number) result (number_in (rows_found matches.now) name.now unsaid) }
{
    match value(matches, name) {
        Some(word) => number_of(word),
        None => Ok(unsaid),
    }
}

/// The same, from `least` to `most`.
pub(crate) fn ranged(
    matches: &ArgMatches,
    name: &str,
    unsaid: u64,
    least: u64,
    most: u64,
) -> Result<u64, WordsFault>
    ensures read { Gives (λ number. number) result (ranged_in (rows_found matches.now) name.now unsaid least most) }
    ensures within { IfOk result (λ number. (least ≤ number) × (number ≤ most)) }
{
    let number = number_in(matches, name, unsaid)?;
    if least <= number && number <= most {
        Ok(number)
    } else {
        Err(WordsFault::Refused)
    }
}

/// The release of a chip whose words have `--v013` or do not.
fn version_by(v013: bool) -> Version
    ensures { result ≡ version_by v013 }
{
    if v013 { Version::V013 } else { Version::V10 }
}

/// The options of the chip.
pub(crate) fn chip_options(matches: &ArgMatches) -> Result<ChipOptions, WordsFault>
    ensures { Gives (λ options. options) result (options_in (rows_found matches.now)) }
{
    let harts = number_in(matches, HARTS, HARTS_UNSAID)?;
    let ram = number_in(matches, RAM, RAM_UNSAID)?;
    let seed = number_in(matches, SEED, SEED_UNSAID)?;
    let busy = ranged(matches, BUSY, BUSY_UNSAID, BUSY_LEAST, BUSY_MOST)?;
    let events = ranged(matches, EVENTS, POINTS_USUAL, EVENTS_LEAST, POINTS_HIGHEST)?;
    Ok(ChipOptions {
        harts,
        ram,
        halted: flag(matches, HALTED),
        seed,
        busy: busy as u8,
        events,
        version: version_by(flag(matches, V013)),
    })
}

/// Where image and script come from.
pub(crate) fn inputs(alloc: Global, matches: &ArgMatches) -> Result<Inputs, WordsFault>
    ensures { Gives inputs_value result (inputs_in (rows_found matches.now)) }
{
    inputs_from(
        alloc,
        value(matches, IMAGE),
        value(matches, SCRIPT),
        value(matches, GEN),
    )
}

/// Two files without a number, or a number alone.
fn inputs_from(
    alloc: Global,
    image: Option<&str>,
    script: Option<&str>,
    number: Option<&str>,
) -> Result<Inputs, WordsFault>
    ensures { Gives inputs_value result (inputs_from (text_of image.entry) (text_of script.entry) (text_of number.entry)) }
{
    match (image, script, number) {
        (Some(image), Some(script), None) => {
            let image = String::from_str(alloc, image)?;
            let script = String::from_str(alloc, script)?;
            Ok(Inputs::Files { image, script })
        }
        (None, None, Some(word)) => {
            let number = number_of(word)?;
            Ok(Inputs::Gen(number))
        }
        _ => Err(WordsFault::Refused),
    }
}

/// Whether nothing stands beside an ELF file that may not: other inputs, a chain, or `--loopback`.
pub(crate) fn is_elf_alone(matches: &ArgMatches) -> bool
    ensures { result ≡ is_elf_alone (rows_found matches.now) }
{
    stands_alone(
        value(matches, IMAGE),
        value(matches, GEN),
        value(matches, CHAIN),
        flag(matches, LOOPBACK),
    )
}

/// Whether nothing stands beside software breakpoints that may not: an ELF file, a number, a chain, or `--loopback`.
pub(crate) fn is_soft_alone(matches: &ArgMatches) -> bool
    ensures { result ≡ is_soft_alone (rows_found matches.now) }
{
    stands_alone(
        value(matches, ELF),
        value(matches, GEN),
        value(matches, CHAIN),
        flag(matches, LOOPBACK),
    )
}

/// Whether no ELF file and no chain stands beside software breakpoints of the probe alone.
pub(crate) fn is_probe_soft_alone(matches: &ArgMatches) -> bool
    ensures { result ≡ is_probe_soft_alone (rows_found matches.now) }
{
    stands_alone(value(matches, ELF), None, value(matches, CHAIN), false)
}

/// No other inputs, no chain, and no connection of the machine to itself.
fn stands_alone(
    image: Option<&str>,
    number: Option<&str>,
    chain: Option<&str>,
    looped: bool,
) -> bool
    ensures { result ≡ stands_alone (text_of image.entry) (text_of number.entry) (text_of chain.entry) looped }
{
    match (image, number, chain, looped) {
        (None, None, None, false) => true,
        _ => false,
    }
}

/// The devices beside the chip, where a list of them is given.
pub(crate) fn chain(matches: &ArgMatches) -> Result<Option<ChainPlan>, WordsFault>
    ensures { Gives (λ chain. chain) result (chain_in (rows_found matches.now)) }
{
    let Some(list) = value(matches, CHAIN) else {
        return Ok(None);
    };
    match plan_of(list) {
        Some(plan) => Ok(Some(plan)),
        None => Err(WordsFault::Refused),
    }
}

/// The way of the stream to the chip. A chain may not stand beside `--loopback`.
pub(crate) fn way(matches: &ArgMatches) -> Result<Way, WordsFault>
    ensures { Gives (λ way. way) result (way_in (rows_found matches.now)) }
{
    let chain = chain(matches)?;
    match (chain, flag(matches, LOOPBACK)) {
        (None, false) => Ok(Way::Straight),
        (None, true) => Ok(Way::Looped),
        (Some(plan), false) => Ok(Way::Chained(plan)),
        (Some(_), true) => Err(WordsFault::Refused),
    }
}
