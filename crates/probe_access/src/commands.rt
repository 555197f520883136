ghost use Rattle.std.specs.Prelude.{◌≡◌, ◌≤◌, ◌<◌, ◌^◌, ◌∷◌, [], true, false, IfOk, IfErr};
ghost use Rattle.debug_model.specs.ModuleWords.{command_word};
ghost use Rattle.probe_access.specs.CommandRuns.{CommandFailed, EndFailed, EndedFrom, PolledFrom, RanCommand};
ghost use Rattle.probe_access.specs.RegisterAccess.{program_command, transfer_command};
ghost use Rattle.probe_access.specs.RegisterRuns.{double_written};
ghost use Rattle.debug_model.specs.Rises.{Within};
ghost use Rattle.probe_access.specs.Never.{NeverLost};
ghost use Rattle.debug_model.specs.Kept.{CanCall, Keeps, Stands};
ghost use Rattle.probe_run.specs.Told.{Fails, told};
ghost use Rattle.probe_access.specs.Faults.{access_why};

use crate::doubles::{high_word, low_word};
use crate::fault::AccessFault;
use arrayvec::ArrayVec;
use debug_model::{AbstractCommand, Abstractcs, Data0, Data1, Dmi, DmiOp};

/// How many polls a call makes at most.
pub const POLLS_MOST: u32 = 64;

/// The word of `abstractcs` that clears `cmderr`.
const CLEARS_CMDERR: u32 = 0x700;

/// The field `aarsize` of transfers of 64 bits.
pub const DOUBLE: u8 = 3;

/// The command to read a register into the data words, or to write it from them.
pub fn transfer_of(register: u16, write: bool) -> AbstractCommand
    ensures { result ≡ transfer_command write register }
{
    AbstractCommand {
        cmdtype: 0,
        aarsize: DOUBLE,
        aarpostincrement: false,
        postexec: false,
        transfer: true,
        write,
        regno: register,
    }
}

/// The command to write a register from the data words, and then to execute the program buffer.
pub fn program_of(register: u16) -> AbstractCommand
    ensures { result ≡ program_command register }
{
    AbstractCommand {
        cmdtype: 0,
        aarsize: DOUBLE,
        aarpostincrement: false,
        postexec: true,
        transfer: true,
        write: true,
        regno: register,
    }
}

/// Polls for the end of a command, at most 64 times with the first poll, which showed `first`, and answers `abstractcs` as it was then.
fn await_end<D: Dmi>(link: &mut D, first: u32) -> Result<u32, AccessFault>
    requires stands { Stands (D.seen link.old) }
    ensures polled { IfOk result (λ last. PolledFrom first last (told (D.seen link.old)) (told (D.seen link.new))) }
    ensures failed { IfErr result (Fails (EndFailed first) (D.seen link.old) (D.seen link.new)) }
    ensures rises { Within 3 (D.seen link.old) (D.seen link.new) }
    ensures never { IfErr result (NeverLost (D.seen link.old)) }
    ensures keeps { Keeps access_why (D.seen link.old) (D.seen link.new) result }
{
    let mut word = first;
    'polls: for _polls in 1..POLLS_MOST {
        if !Abstractcs::from_word(word).busy {
            return Ok(word);
        }
        word = link.read(Abstractcs::ADDRESS)?;
    }
    if Abstractcs::from_word(word).busy {
        return Err(AccessFault::StillBusy);
    }
    Ok(word)
}

/// Polls for the end of a command, whose first poll showed `first`, and answers `abstractcs` as it was then. An error that it shows is cleared.
#[tactic(auto, using(debug_model::proofs::RiseLemmas::within_then, debug_model::proofs::RiseLemmas::within_more))]
pub fn end_command<D: Dmi>(link: &mut D, first: u32) -> Result<u32, AccessFault>
    requires stands { Stands (D.seen link.old) }
    ensures ended { IfOk result (λ last. EndedFrom first last (told (D.seen link.old)) (told (D.seen link.new))) }
    ensures failed { IfErr result (Fails (EndFailed first) (D.seen link.old) (D.seen link.new)) }
    ensures rises { Within 4 (D.seen link.old) (D.seen link.new) }
    ensures never { IfErr result (NeverLost (D.seen link.old)) }
    ensures keeps { Keeps access_why (D.seen link.old) (D.seen link.new) result }
{
    let last = await_end(link, first)?;
    let status = Abstractcs::from_word(last);
    if status.cmderr == 0 {
        return Ok(last);
    }
    link.write(Abstractcs::ADDRESS, CLEARS_CMDERR)?;
    Ok(last)
}

/// Writes `command` and polls for the command's end, and answers `abstractcs` as it was then. An error that it shows is cleared.
/// The first poll goes with the command.
#[tactic(auto, using(debug_model::proofs::RiseLemmas::within_then, debug_model::proofs::RiseLemmas::within_more))]
pub fn run_command<D: Dmi>(link: &mut D, command: AbstractCommand) -> Result<u32, AccessFault>
    requires callable { CanCall (D.seen link.old) }
    ensures ran { IfOk result (λ last. RanCommand [] (command_word command) last (told (D.seen link.old)) (told (D.seen link.new))) }
    ensures failed { IfErr result (Fails (CommandFailed [] (command_word command)) (D.seen link.old) (D.seen link.new)) }
    ensures rises { Within 6 (D.seen link.old) (D.seen link.new) }
    ensures never { IfErr result (NeverLost (D.seen link.old)) }
    ensures keeps { Keeps access_why (D.seen link.old) (D.seen link.new) result }
{
    let operations = [
        DmiOp::Write(AbstractCommand::ADDRESS, command.word()),
        DmiOp::Read(Abstractcs::ADDRESS),
    ];
    let mut words = ArrayVec::new();
    link.many(&operations, &mut words)?;
    let last = end_command(link, words[1])?;
    Ok(last)
}

/// The same behind this value in the data words, which goes with the command.
#[tactic(auto, using(debug_model::proofs::RiseLemmas::within_then, debug_model::proofs::RiseLemmas::within_more))]
pub fn run_with<D: Dmi>(
    link: &mut D,
    value: u64,
    command: AbstractCommand,
) -> Result<u32, AccessFault>
    requires callable { CanCall (D.seen link.old) }
    ensures ran { IfOk result (λ last. RanCommand (double_written value) (command_word command) last (told (D.seen link.old)) (told (D.seen link.new))) }
    ensures failed { IfErr result (Fails (CommandFailed (double_written value) (command_word command)) (D.seen link.old) (D.seen link.new)) }
    ensures rises { Within 8 (D.seen link.old) (D.seen link.new) }
    ensures never { IfErr result (NeverLost (D.seen link.old)) }
    ensures keeps { Keeps access_why (D.seen link.old) (D.seen link.new) result }
{
    let operations = [
        DmiOp::Write(Data0::ADDRESS, low_word(value)),
        DmiOp::Write(Data1::ADDRESS, high_word(value)),
        DmiOp::Write(AbstractCommand::ADDRESS, command.word()),
        DmiOp::Read(Abstractcs::ADDRESS),
    ];
    let mut words = ArrayVec::new();
    link.many(&operations, &mut words)?;
    let last = end_command(link, words[3])?;
    Ok(last)
}
