//! The accesses of a block, one by one: a command hands out what x9 holds, and then executes a program that makes one access at the address in x8, and
//! raises x8 to the next element (RISC-V Debug Specification 1.0, "Program Buffer").

ghost use Rattle.std.specs.Prelude.{◌≡◌, ◌≤◌, ◌<◌, ◌^◌, [], IfErr, IfOk, OnOk};
ghost use Rattle.probe_access.specs.CommandRuns.{CommandFailed, RanCommand};
ghost use Rattle.probe_access.specs.ElementRuns.{HandFailed, HandedBy, RunFailed, StartFailed, Started, block_program};
ghost use Rattle.probe_access.specs.RegisterAccess.{next_command, next_word};
ghost use Rattle.probe_access.specs.RegisterRuns.{RanTo, no_error};
ghost use Rattle.debug_model.specs.Rises.{Within};
ghost use Rattle.probe_access.specs.Never.{NeverLost};
ghost use Rattle.debug_model.specs.Kept.{CanCall, Keeps};
ghost use Rattle.probe_run.specs.Told.{Fails, told};
ghost use Rattle.probe_access.specs.Faults.{access_why};

use crate::commands::{DOUBLE, end_command, run_command};
use crate::doubles::read_double;
use crate::fault::AccessFault;
use crate::odd::OddStatus;
use crate::program::{EBREAK, X8, X9, advance_of};
use crate::transfers::{EXCEPTION, write_register};
use arrayvec::ArrayVec;
use debug_model::{AbstractCommand, Abstractcs, Dmi, DmiOp, Progbuf0, Progbuf1, Progbuf2};
use rv_model::Size;

/// What a command handed out, and whether memory refused its access.
#[derive(Clone, Copy)]
pub struct Handed {
    pub value: u64,
    pub refused: bool,
}

/// The command to read x9 into the data words, and then to execute the program buffer.
pub fn next_command() -> AbstractCommand
    ensures { result ≡ next_command }
{
    AbstractCommand {
        cmdtype: 0,
        aarsize: DOUBLE,
        aarpostincrement: false,
        postexec: true,
        transfer: true,
        write: false,
        regno: X9,
    }
}

/// Writes the program of a block, and executes it once. Answers `abstractcs` as the last poll showed it; an error is cleared.
#[tactic(auto, using(debug_model::proofs::RiseLemmas::within_then, debug_model::proofs::RiseLemmas::within_more))]
fn run_first<D: Dmi>(link: &mut D, instruction: u32, size: Size) -> Result<u32, AccessFault>
    requires callable { CanCall (D.seen link.old) }
    ensures ran { IfOk result (λ last. RanCommand (block_program instruction size) next_word last (told (D.seen link.old)) (told (D.seen link.new))) }
    ensures failed { IfErr result (Fails (CommandFailed (block_program instruction size) next_word) (D.seen link.old) (D.seen link.new)) }
    ensures rises { Within 9 (D.seen link.old) (D.seen link.new) }
    ensures never { IfErr result (NeverLost (D.seen link.old)) }
    ensures keeps { Keeps access_why (D.seen link.old) (D.seen link.new) result }
{
    let operations = [
        DmiOp::Write(Progbuf0::ADDRESS, instruction),
        DmiOp::Write(Progbuf1::ADDRESS, advance_of(size)),
        DmiOp::Write(Progbuf2::ADDRESS, EBREAK),
        DmiOp::Write(AbstractCommand::ADDRESS, next_command().word()),
        DmiOp::Read(Abstractcs::ADDRESS),
    ];
    let mut words = ArrayVec::new();
    link.many(&operations, &mut words)?;
    let last = end_command(link, words[4])?;
    Ok(last)
}

/// Writes the program of a block, and makes its first access, at the address in x8. `Memory` where that met an exception.
fn first_element<D: Dmi>(
    link: &mut D,
    instruction: u32,
    size: Size,
    at: u64,
) -> Result<(), AccessFault>
    requires callable { CanCall (D.seen link.old) }
    ensures ran { OnOk result (RanTo (block_program instruction size) next_word no_error (told (D.seen link.old)) (told (D.seen link.new))) }
    ensures failed { IfErr result (Fails (RunFailed (block_program instruction size) at) (D.seen link.old) (D.seen link.new)) }
    ensures rises { Within 9 (D.seen link.old) (D.seen link.new) }
    ensures never { IfErr result (NeverLost (D.seen link.old)) }
    ensures keeps { Keeps access_why (D.seen link.old) (D.seen link.new) result }
{
    let last = run_first(link, instruction, size)?;
    match Abstractcs::from_word(last).cmderr {
        0 => Ok(()),
        EXCEPTION => Err(AccessFault::Memory(at)),
        _ => Err(AccessFault::Odd(OddStatus::Abstractcs(last))),
    }
}

/// Writes the address into x8 and the program of a block, and makes its first access.
#[tactic(auto, using(debug_model::proofs::RiseLemmas::within_then, debug_model::proofs::RiseLemmas::within_more))]
pub fn start_block<D: Dmi>(
    link: &mut D,
    instruction: u32,
    size: Size,
    address: u64,
) -> Result<(), AccessFault>
    requires callable { CanCall (D.seen link.old) }
    ensures started { OnOk result (Started instruction size address (told (D.seen link.old)) (told (D.seen link.new))) }
    ensures failed { IfErr result (Fails (StartFailed instruction size address) (D.seen link.old) (D.seen link.new)) }
    ensures rises { Within 17 (D.seen link.old) (D.seen link.new) }
    ensures never { IfErr result (NeverLost (D.seen link.old)) }
    ensures keeps { Keeps access_why (D.seen link.old) (D.seen link.new) result }
{
    write_register(link, X8, address)?;
    first_element(link, instruction, size, address)?;
    Ok(())
}

/// Makes the access of the next element, which is at this address. `Memory` where it met an exception.
pub fn next_element<D: Dmi>(link: &mut D, at: u64) -> Result<(), AccessFault>
    requires callable { CanCall (D.seen link.old) }
    ensures ran { OnOk result (RanTo [] next_word no_error (told (D.seen link.old)) (told (D.seen link.new))) }
    ensures failed { IfErr result (Fails (RunFailed [] at) (D.seen link.old) (D.seen link.new)) }
    ensures rises { Within 6 (D.seen link.old) (D.seen link.new) }
    ensures never { IfErr result (NeverLost (D.seen link.old)) }
    ensures keeps { Keeps access_why (D.seen link.old) (D.seen link.new) result }
{
    let last = run_command(link, next_command())?;
    match Abstractcs::from_word(last).cmderr {
        0 => Ok(()),
        EXCEPTION => Err(AccessFault::Memory(at)),
        _ => Err(AccessFault::Odd(OddStatus::Abstractcs(last))),
    }
}

/// Hands out what was loaded, and loads the next element. Where memory refuses that, what was loaded is handed out nevertheless.
#[tactic(auto, using(debug_model::proofs::RiseLemmas::within_then, debug_model::proofs::RiseLemmas::within_more))]
pub fn hand_next<D: Dmi>(link: &mut D) -> Result<Handed, AccessFault>
    requires callable { CanCall (D.seen link.old) }
    ensures handed { IfOk result (λ handed. HandedBy handed.refused handed.value (told (D.seen link.old)) (told (D.seen link.new))) }
    ensures failed { IfErr result (Fails HandFailed (D.seen link.old) (D.seen link.new)) }
    ensures rises { Within 8 (D.seen link.old) (D.seen link.new) }
    ensures never { IfErr result (NeverLost (D.seen link.old)) }
    ensures keeps { Keeps access_why (D.seen link.old) (D.seen link.new) result }
{
    let last = run_command(link, next_command())?;
    match Abstractcs::from_word(last).cmderr {
        0 => {
            let value = read_double(link)?;
            Ok(Handed {
                value,
                refused: false,
            })
        }
        EXCEPTION => {
            let value = read_double(link)?;
            Ok(Handed {
                value,
                refused: true,
            })
        }
        _ => Err(AccessFault::Odd(OddStatus::Abstractcs(last))),
    }
}
