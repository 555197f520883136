ghost use Rattle.std.specs.Prelude.{◌≡◌, ◌≤◌, ◌<◌, ◌^◌, IfErr, IfOk, OnOk};
ghost use Rattle.probe_access.specs.CommandRuns.{CommandFailed, RanCommand};
ghost use Rattle.probe_access.specs.MemoryRuns.{PerformFailed, Performed, program_set};
ghost use Rattle.probe_access.specs.RegisterAccess.{advance_word, element_load_word, load_word, program_word, store_word};
ghost use Rattle.debug_model.specs.Rises.{Within};
ghost use Rattle.probe_access.specs.Never.{NeverLost};
ghost use Rattle.debug_model.specs.Kept.{CanCall, Keeps};
ghost use Rattle.probe_run.specs.Told.{Fails, told};
ghost use Rattle.probe_access.specs.Faults.{access_why};

use crate::commands::{end_command, program_of};
use crate::doubles::{high_word, low_word};
use crate::fault::AccessFault;
use crate::odd::OddStatus;
use crate::transfers::EXCEPTION;
use arrayvec::ArrayVec;
use debug_model::{AbstractCommand, Abstractcs, Data0, Data1, Dmi, DmiOp, Progbuf0, Progbuf1};
use rv_model::{Size, register_number};

/// The number of x8, which holds the address of an access, and then what was loaded.
pub const X8: u16 = register_number::X0 + 8;

/// The number of x9, which holds what is stored.
pub const X9: u16 = register_number::X0 + 9;

/// `ebreak`
pub const EBREAK: u32 = 0x0010_0073;

/// `lbu x8, 0(x8)`, and the same for 2, 4 and 8 bytes.
const LBU: u32 = 0x0004_4403;

const LHU: u32 = 0x0004_5403;

const LWU: u32 = 0x0004_6403;

const LD: u32 = 0x0004_3403;

/// `lbu x9, 0(x8)`, and the same for 2, 4 and 8 bytes.
const LBU_X9: u32 = 0x0004_4483;

const LHU_X9: u32 = 0x0004_5483;

const LWU_X9: u32 = 0x0004_6483;

const LD_X9: u32 = 0x0004_3483;

/// `addi x8, x8, 1`, and the same for 2, 4 and 8.
const ADDI_1: u32 = 0x0014_0413;

const ADDI_2: u32 = 0x0024_0413;

const ADDI_4: u32 = 0x0044_0413;

const ADDI_8: u32 = 0x0084_0413;

/// `sb x9, 0(x8)`, and the same for 2, 4 and 8 bytes.
const SB: u32 = 0x0094_0023;

const SH: u32 = 0x0094_1023;

const SW: u32 = 0x0094_2023;

const SD: u32 = 0x0094_3023;

/// The instruction that loads so many bytes from the address in x8 into x8, the upper bits 0.
pub fn load_of(size: Size) -> u32
    ensures { result ≡ load_word size }
{
    match size {
        Size::B1 => LBU,
        Size::B2 => LHU,
        Size::B4 => LWU,
        Size::B8 => LD,
    }
}

/// The instruction that loads so many bytes from the address in x8 into x9, the upper bits 0.
pub fn element_load_of(size: Size) -> u32
    ensures { result ≡ element_load_word size }
{
    match size {
        Size::B1 => LBU_X9,
        Size::B2 => LHU_X9,
        Size::B4 => LWU_X9,
        Size::B8 => LD_X9,
    }
}

/// The instruction that adds so many bytes to the address in x8.
pub fn advance_of(size: Size) -> u32
    ensures { result ≡ advance_word size }
{
    match size {
        Size::B1 => ADDI_1,
        Size::B2 => ADDI_2,
        Size::B4 => ADDI_4,
        Size::B8 => ADDI_8,
    }
}

/// The instruction that stores so many bytes of x9 at the address in x8.
pub fn store_of(size: Size) -> u32
    ensures { result ≡ store_word size }
{
    match size {
        Size::B1 => SB,
        Size::B2 => SH,
        Size::B4 => SW,
        Size::B8 => SD,
    }
}

/// Writes an instruction and `ebreak` into the program buffer and this address into x8, and executes it: all goes with the first poll for its end.
/// Answers `abstractcs` as the last poll showed it; an error is cleared.
#[tactic(auto, using(debug_model::proofs::RiseLemmas::within_then, debug_model::proofs::RiseLemmas::within_more))]
fn run_program<D: Dmi>(link: &mut D, instruction: u32, address: u64) -> Result<u32, AccessFault>
    requires callable { CanCall (D.seen link.old) }
    ensures ran { IfOk result (λ last. RanCommand (program_set instruction address) program_word last (told (D.seen link.old)) (told (D.seen link.new))) }
    ensures failed { IfErr result (Fails (CommandFailed (program_set instruction address) program_word) (D.seen link.old) (D.seen link.new)) }
    ensures rises { Within 10 (D.seen link.old) (D.seen link.new) }
    ensures never { IfErr result (NeverLost (D.seen link.old)) }
    ensures keeps { Keeps access_why (D.seen link.old) (D.seen link.new) result }
{
    let operations = [
        DmiOp::Write(Progbuf0::ADDRESS, instruction),
        DmiOp::Write(Progbuf1::ADDRESS, EBREAK),
        DmiOp::Write(Data0::ADDRESS, low_word(address)),
        DmiOp::Write(Data1::ADDRESS, high_word(address)),
        DmiOp::Write(AbstractCommand::ADDRESS, program_of(X8).word()),
        DmiOp::Read(Abstractcs::ADDRESS),
    ];
    let mut words = ArrayVec::new();
    link.many(&operations, &mut words)?;
    let last = end_command(link, words[5])?;
    Ok(last)
}

/// Executes one instruction of the selected hart, with this address in x8. `Memory` where it met an exception.
pub fn perform<D: Dmi>(link: &mut D, instruction: u32, address: u64) -> Result<(), AccessFault>
    requires callable { CanCall (D.seen link.old) }
    ensures performed { OnOk result (Performed instruction address 0 (told (D.seen link.old)) (told (D.seen link.new))) }
    ensures failed { IfErr result (Fails (PerformFailed instruction address) (D.seen link.old) (D.seen link.new)) }
    ensures rises { Within 10 (D.seen link.old) (D.seen link.new) }
    ensures never { IfErr result (NeverLost (D.seen link.old)) }
    ensures keeps { Keeps access_why (D.seen link.old) (D.seen link.new) result }
{
    let last = run_program(link, instruction, address)?;
    match Abstractcs::from_word(last).cmderr {
        0 => Ok(()),
        EXCEPTION => Err(AccessFault::Memory(address)),
        _ => Err(AccessFault::Odd(OddStatus::Abstractcs(last))),
    }
}
