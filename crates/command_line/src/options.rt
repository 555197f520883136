ghost use Rattle.std.specs.Prelude.{◌≡◌, ◌++◌, IfOk, map, codes, true};
ghost use Rattle.std.specs.Borrow.{Bor};
ghost use Rattle.clap.specs.Words.{app_of, with_rule};
ghost use Rattle.command_line.specs.Options.{
  command_of,
  both_command,
  probe_command,
  chip_command,
  sniff_command,
  option_rule,
  flag_rule,
};

use clap::{Arg, ArgAction, Command};
use std::alloc::{AllocError, Global};

/// The file of the answers to a recorded stream.
pub(crate) const ANSWERS: &str = "answers";
/// The address of the target, or the one at which the chip waits.
pub(crate) const AT: &str = "at";
/// The most rounds between two events of a kind.
pub(crate) const BUSY: &str = "busy";
/// The devices of the chip's chain.
pub(crate) const CHAIN: &str = "chain";
/// The ELF file that the probe loads.
pub(crate) const ELF: &str = "elf";
/// The most points that a rise of TCK may find.
pub(crate) const EVENTS: &str = "events";
/// The number from which image and script are made.
pub(crate) const GEN: &str = "gen";
/// Whether the harts stand halted at the start.
pub(crate) const HALTED: &str = "halted";
/// How many harts the chip has.
pub(crate) const HARTS: &str = "harts";
/// The image's file.
pub(crate) const IMAGE: &str = "image";
/// Whether the bytes go over a connection of the machine to itself.
pub(crate) const LOOPBACK: &str = "loopback";
/// The most bytes of a piece of the stream.
pub(crate) const PIECE: &str = "piece";
/// How many bytes of memory the chip has.
pub(crate) const RAM: &str = "ram";
/// The script's file.
pub(crate) const SCRIPT: &str = "script";
/// The number from which the schedule is made.
pub(crate) const SEED: &str = "seed";
/// Whether the script may set software breakpoints.
pub(crate) const SOFT: &str = "soft";
/// The file of a recorded stream.
pub(crate) const STREAM: &str = "stream";
/// Whether the chip follows release 0.13.
pub(crate) const V013: &str = "v013";
/// Whether a recording is drawn as a Value Change Dump.
pub(crate) const VCD: &str = "vcd";

static BOTH_OPTIONS: [&str; 11] = [
    IMAGE, SCRIPT, GEN, ELF, HARTS, RAM, SEED, BUSY, EVENTS, PIECE, CHAIN,
];

static BOTH_FLAGS: [&str; 4] = [HALTED, LOOPBACK, SOFT, V013];

static PROBE_OPTIONS: [&str; 4] = [AT, SCRIPT, ELF, CHAIN];

static PROBE_FLAGS: [&str; 1] = [SOFT];

static CHIP_OPTIONS: [&str; 8] = [AT, IMAGE, HARTS, RAM, SEED, BUSY, EVENTS, CHAIN];

static CHIP_FLAGS: [&str; 2] = [HALTED, V013];

static SNIFF_OPTIONS: [&str; 2] = [STREAM, ANSWERS];

static SNIFF_FLAGS: [&str; 1] = [VCD];

/// The command of `both`.
pub(crate) fn both_command<'a>(alloc: Global) -> Result<Command<'a>, AllocError>
    ensures { IfOk result (λ command. app_of command ≡ both_command) }
{
    command(alloc, "both", &BOTH_OPTIONS, &BOTH_FLAGS)
}

/// The command of `probe`.
pub(crate) fn probe_command<'a>(alloc: Global) -> Result<Command<'a>, AllocError>
    ensures { IfOk result (λ command. app_of command ≡ probe_command) }
{
    command(alloc, "probe", &PROBE_OPTIONS, &PROBE_FLAGS)
}

/// The command of `chip`.
pub(crate) fn chip_command<'a>(alloc: Global) -> Result<Command<'a>, AllocError>
    ensures { IfOk result (λ command. app_of command ≡ chip_command) }
{
    command(alloc, "chip", &CHIP_OPTIONS, &CHIP_FLAGS)
}

/// The command of `sniff`.
pub(crate) fn sniff_command<'a>(alloc: Global) -> Result<Command<'a>, AllocError>
    ensures { IfOk result (λ command. app_of command ≡ sniff_command) }
{
    command(alloc, "sniff", &SNIFF_OPTIONS, &SNIFF_FLAGS)
}

/// The command of a program that takes these options and flags.
fn command<'a>(
    alloc: Global,
    program: &'a str,
    options: &[&'a str],
    flags: &[&'a str],
) -> Result<Command<'a>, AllocError>
    ensures { IfOk result (λ command. app_of command
        ≡ command_of program.now (map (λ name. name.now) options.now) (map (λ name. name.now) flags.now)) }
{
    let mut command = Command::new(alloc, program)
        .disable_help_flag(true)
        .disable_version_flag(true);
    for option in options {
        command = with_option(alloc, command, option)?;
    }
    for flag in flags {
        command = with_flag(alloc, command, flag)?;
    }
    Ok(command)
}

/// The command with one more option that has a value.
fn with_option<'a>(
    alloc: Global,
    command: Command<'a>,
    name: &'a str,
) -> Result<Command<'a>, AllocError>
    ensures { IfOk result (λ made. app_of made ≡ with_rule (app_of command.entry) (option_rule name.entry.now)) }
{
    command.arg(Arg::new(alloc, name).long(name))
}

/// The command with one more flag.
fn with_flag<'a>(
    alloc: Global,
    command: Command<'a>,
    name: &'a str,
) -> Result<Command<'a>, AllocError>
    ensures { IfOk result (λ made. app_of made ≡ with_rule (app_of command.entry) (flag_rule name.entry.now)) }
{
    let flag = Arg::new(alloc, name).long(name).action(ArgAction::SetTrue);
    command.arg(flag)
}
