ghost use Rattle.std.specs.Prelude.{◌≡◌, ◌≤◌, ◌<◌, ◌^◌, ◌∷◌, [], true, false, IfOk, IfErr, OnOk};
ghost use Rattle.probe_access.specs.RegisterRuns.{AskFailed, AskedAtOnce, ReadApart, ReadApartFailed, ReadFailed};
ghost use Rattle.probe_access.specs.RegisterRuns.{RegisterRead, RegisterWritten, SwapFailed, Swapped, WriteFailed};
ghost use Rattle.debug_model.specs.Rises.{Within};
ghost use Rattle.probe_access.specs.Never.{NeverLost};
ghost use Rattle.debug_model.specs.Kept.{CanCall, Keeps};
ghost use Rattle.probe_run.specs.Told.{Fails, told};
ghost use Rattle.probe_access.specs.Faults.{access_why};

use crate::commands::{end_command, run_command, run_with, transfer_of};
use crate::doubles::{high_word, join, low_word, read_double};
use crate::fault::AccessFault;
use crate::odd::OddStatus;
use arrayvec::ArrayVec;
use debug_model::{AbstractCommand, Abstractcs, Data0, Data1, Dmi, DmiOp};

/// `cmderr` of a register that is not there or not writable, and of an exception in the program buffer.
pub const EXCEPTION: u8 = 3;

/// Asks for a register of the selected hart and reads the data words, in one call with the first poll: its value where the end of the transfer shows no
/// error. A word that is read while a command is under way sets an error, which stays until it is cleared (RISC-V Debug Specification 1.0, "Abstract Control
/// and Status", cmderr). An error is cleared.
#[tactic(auto, using(debug_model::proofs::RiseLemmas::within_then, debug_model::proofs::RiseLemmas::within_more))]
fn read_at_once<D: Dmi>(link: &mut D, register: u16) -> Result<Option<u64>, AccessFault>
    requires callable { CanCall (D.seen link.old) }
    ensures asked { IfOk result (λ answer. AskedAtOnce register answer (told (D.seen link.old)) (told (D.seen link.new))) }
    ensures failed { IfErr result (Fails (AskFailed register) (D.seen link.old) (D.seen link.new)) }
    ensures rises { Within 8 (D.seen link.old) (D.seen link.new) }
    ensures never { IfErr result (NeverLost (D.seen link.old)) }
    ensures keeps { Keeps access_why (D.seen link.old) (D.seen link.new) result }
{
    let operations = [
        DmiOp::Write(
            AbstractCommand::ADDRESS,
            transfer_of(register, false).word(),
        ),
        DmiOp::Read(Data1::ADDRESS),
        DmiOp::Read(Data0::ADDRESS),
        DmiOp::Read(Abstractcs::ADDRESS),
    ];
    let mut words = ArrayVec::new();
    link.many(&operations, &mut words)?;
    let last = end_command(link, words[3])?;
    if Abstractcs::from_word(last).cmderr != 0 {
        return Ok(None);
    }
    Ok(Some(join(words[2], words[1])))
}

/// Reads a register of the selected hart by calls of their own: the data words are read behind the end of the transfer.
#[tactic(auto, using(debug_model::proofs::RiseLemmas::within_then, debug_model::proofs::RiseLemmas::within_more))]
pub fn read_apart<D: Dmi>(link: &mut D, register: u16) -> Result<u64, AccessFault>
    requires callable { CanCall (D.seen link.old) }
    ensures read { IfOk result (λ value. ReadApart register value (told (D.seen link.old)) (told (D.seen link.new))) }
    ensures failed { IfErr result (Fails (ReadApartFailed register) (D.seen link.old) (D.seen link.new)) }
    ensures rises { Within 8 (D.seen link.old) (D.seen link.new) }
    ensures never { IfErr result (NeverLost (D.seen link.old)) }
    ensures keeps { Keeps access_why (D.seen link.old) (D.seen link.new) result }
{
    let last = run_command(link, transfer_of(register, false))?;
    match Abstractcs::from_word(last).cmderr {
        0 => {
            let value = read_double(link)?;
            Ok(value)
        }
        EXCEPTION => Err(AccessFault::Register(register)),
        _ => Err(AccessFault::Odd(OddStatus::Abstractcs(last))),
    }
}

/// Reads a register of the selected hart: in one call, and again by calls of their own where that shows an error.
#[tactic(auto, using(debug_model::proofs::RiseLemmas::within_then, debug_model::proofs::RiseLemmas::within_more))]
pub fn read_register<D: Dmi>(link: &mut D, register: u16) -> Result<u64, AccessFault>
    requires callable { CanCall (D.seen link.old) }
    ensures read { IfOk result (λ value. RegisterRead register value (told (D.seen link.old)) (told (D.seen link.new))) }
    ensures failed { IfErr result (Fails (ReadFailed register) (D.seen link.old) (D.seen link.new)) }
    ensures rises { Within 16 (D.seen link.old) (D.seen link.new) }
    ensures never { IfErr result (NeverLost (D.seen link.old)) }
    ensures keeps { Keeps access_why (D.seen link.old) (D.seen link.new) result }
{
    match read_at_once(link, register)? {
        Some(value) => Ok(value),
        None => {
            let value = read_apart(link, register)?;
            Ok(value)
        }
    }
}

/// Reads a register of the selected hart and then writes it, in one call with one poll for both: what it held, where the end shows no error. Else it was not
/// written: a word that is read while a command is under way sets an error, and with an error no command starts (RISC-V Debug Specification 1.0, "Abstract
/// Control and Status", cmderr). An error is cleared.
#[tactic(auto, using(debug_model::proofs::RiseLemmas::within_then, debug_model::proofs::RiseLemmas::within_more))]
pub fn swap_at_once<D: Dmi>(
    link: &mut D,
    register: u16,
    value: u64,
) -> Result<Option<u64>, AccessFault>
    requires callable { CanCall (D.seen link.old) }
    ensures swapped { IfOk result (λ answer. Swapped register value answer (told (D.seen link.old)) (told (D.seen link.new))) }
    ensures failed { IfErr result (Fails (SwapFailed register value) (D.seen link.old) (D.seen link.new)) }
    ensures rises { Within 11 (D.seen link.old) (D.seen link.new) }
    ensures never { IfErr result (NeverLost (D.seen link.old)) }
    ensures keeps { Keeps access_why (D.seen link.old) (D.seen link.new) result }
{
    let reads = transfer_of(register, false).word();
    let writes = transfer_of(register, true).word();
    let operations = [
        DmiOp::Write(AbstractCommand::ADDRESS, reads),
        DmiOp::Read(Data1::ADDRESS),
        DmiOp::Read(Data0::ADDRESS),
        DmiOp::Write(Data0::ADDRESS, low_word(value)),
        DmiOp::Write(Data1::ADDRESS, high_word(value)),
        DmiOp::Write(AbstractCommand::ADDRESS, writes),
        DmiOp::Read(Abstractcs::ADDRESS),
    ];
    let mut words = ArrayVec::new();
    link.many(&operations, &mut words)?;
    let last = end_command(link, words[6])?;
    if Abstractcs::from_word(last).cmderr != 0 {
        return Ok(None);
    }
    Ok(Some(join(words[2], words[1])))
}

/// Writes a register of the selected hart.
pub fn write_register<D: Dmi>(link: &mut D, register: u16, value: u64) -> Result<(), AccessFault>
    requires callable { CanCall (D.seen link.old) }
    ensures written { OnOk result (RegisterWritten register value (told (D.seen link.old)) (told (D.seen link.new))) }
    ensures failed { IfErr result (Fails (WriteFailed register value) (D.seen link.old) (D.seen link.new)) }
    ensures rises { Within 8 (D.seen link.old) (D.seen link.new) }
    ensures never { IfErr result (NeverLost (D.seen link.old)) }
    ensures keeps { Keeps access_why (D.seen link.old) (D.seen link.new) result }
{
    let last = run_with(link, value, transfer_of(register, true))?;
    match Abstractcs::from_word(last).cmderr {
        0 => Ok(()),
        EXCEPTION => Err(AccessFault::Register(register)),
        _ => Err(AccessFault::Odd(OddStatus::Abstractcs(last))),
    }
}
