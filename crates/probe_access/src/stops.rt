ghost use Rattle.std.specs.Prelude.{◌≡◌, ◌≤◌, IfOk, IfErr, OnOk};
ghost use Rattle.rv_model.specs.Dcsr.{dcsr_of_word};
ghost use Rattle.probe_access.specs.Cuts.{IfCut, LeftAside, Leaves, Unchanged};
ghost use Rattle.probe_access.specs.Scratches.{ScratchLeft};
ghost use Rattle.probe_access.specs.Stops.{StopApart, StopApartFailed, StopAskFailed, StopAsked, StopFailed, StopRead, StoppedAt};
ghost use Rattle.debug_model.specs.Rises.{Within};
ghost use Rattle.probe_access.specs.Never.{NeverLost};
ghost use Rattle.debug_model.specs.Kept.{CanCall, Keeps};
ghost use Rattle.probe_run.specs.Told.{Fails, OnChip, told};
ghost use Rattle.probe_access.specs.Faults.{access_why};
ghost use Rattle.probe_run.specs.Told.{Serving};

use crate::commands::{end_command, transfer_of};
use crate::doubles::join;
use crate::fault::AccessFault;
use crate::stopped::Stop;
use crate::transfers::read_apart;
use arrayvec::ArrayVec;
use debug_model::{AbstractCommand, Abstractcs, Data0, Data1, Dmi, DmiOp};
use probe_run::Halted;
use rv_model::{Dcsr, register_number};

/// What these words of `dpc` and `dcsr` show.
fn stop_of(pc: u64, word: u64) -> Stop
    ensures pc { result.pc ≡ pc }
    ensures cause { result.cause ≡ (dcsr_of_word word).cause }
{
    let dcsr = Dcsr::from_word(word);
    Stop {
        pc,
        cause: dcsr.cause,
    }
}

/// Asks for `dpc` and then for `dcsr` of the selected hart and reads their words, in one call with one poll for both, where the end shows no error: a word
/// that is read while a command is under way sets one, and with an error no command starts (RISC-V Debug Specification 1.0, "Abstract Control and Status",
/// cmderr). An error is cleared. `dcsr` has 32 bits, so of its words the lower one is read alone.
#[tactic(auto, using(debug_model::proofs::RiseLemmas::within_then, debug_model::proofs::RiseLemmas::within_more))]
fn stop_at_once<D: Dmi>(link: &mut D) -> Result<Option<Stop>, AccessFault>
    requires callable { CanCall (D.seen link.old) }
    ensures asked { IfOk result (λ answer. StopAsked answer (told (D.seen link.old)) (told (D.seen link.new))) }
    ensures failed { IfErr result (Fails StopAskFailed (D.seen link.old) (D.seen link.new)) }
    ensures rises { Within 10 (D.seen link.old) (D.seen link.new) }
    ensures never { IfErr result (NeverLost (D.seen link.old)) }
    ensures keeps { Keeps access_why (D.seen link.old) (D.seen link.new) result }
{
    let dpc = transfer_of(register_number::DPC, false).word();
    let dcsr = transfer_of(register_number::DCSR, false).word();
    let operations = [
        DmiOp::Write(AbstractCommand::ADDRESS, dpc),
        DmiOp::Read(Data1::ADDRESS),
        DmiOp::Read(Data0::ADDRESS),
        DmiOp::Write(AbstractCommand::ADDRESS, dcsr),
        DmiOp::Read(Data0::ADDRESS),
        DmiOp::Read(Abstractcs::ADDRESS),
    ];
    let mut words = ArrayVec::new();
    link.many(&operations, &mut words)?;
    let last = end_command(link, words[5])?;
    if Abstractcs::from_word(last).cmderr != 0 {
        return Ok(None);
    }
    Ok(Some(stop_of(join(words[2], words[1]), u64::from(words[4]))))
}

/// Reads both by calls of their own.
#[tactic(auto, using(debug_model::proofs::RiseLemmas::within_then, debug_model::proofs::RiseLemmas::within_more))]
fn stop_apart<D: Dmi>(link: &mut D) -> Result<Stop, AccessFault>
    requires callable { CanCall (D.seen link.old) }
    ensures read { IfOk result (λ stop. StopApart stop.pc stop.cause (told (D.seen link.old)) (told (D.seen link.new))) }
    ensures failed { IfErr result (Fails StopApartFailed (D.seen link.old) (D.seen link.new)) }
    ensures rises { Within 16 (D.seen link.old) (D.seen link.new) }
    ensures never { IfErr result (NeverLost (D.seen link.old)) }
    ensures keeps { Keeps access_why (D.seen link.old) (D.seen link.new) result }
{
    let pc = read_apart(link, register_number::DPC)?;
    let word = read_apart(link, register_number::DCSR)?;
    Ok(stop_of(pc, word))
}

/// Where the halted hart stands, which is selected, and why it halted: its `dpc`, and the cause in its `dcsr`.
#[tactic(auto, using(debug_model::proofs::RiseLemmas::within_then, debug_model::proofs::RiseLemmas::within_more))]
pub fn stop<D: Dmi>(link: &mut D, halted: &Halted) -> Result<Stop, AccessFault>
    requires callable { CanCall (D.seen link.old) }
    requires serving { Serving halted.now.number (D.seen link.old).far }
    ensures stopped_at { IfOk result (λ stop. OnChip (StoppedAt halted.now.number stop.pc stop.cause) (D.seen link.old) (D.seen link.new)) }
    ensures read { IfOk result (λ stop. StopRead stop.pc stop.cause (told (D.seen link.old)) (told (D.seen link.new))) }
    ensures left { IfErr result (ScratchLeft (D.seen link.old).far) }
    ensures failed { IfErr result (Fails StopFailed (D.seen link.old) (D.seen link.new)) }
    ensures cut { IfErr result (IfCut (Leaves (LeftAside Unchanged halted.now.number) (D.seen link.old).far (D.seen link.new).far)) }
    ensures serving { OnOk result (Serving halted.now.number (D.seen link.new).far) }
    ensures rises { Within 26 (D.seen link.old) (D.seen link.new) }
    ensures never { IfErr result (NeverLost (D.seen link.old)) }
    ensures keeps { Keeps access_why (D.seen link.old) (D.seen link.new) result }
{
    let _halted = halted;
    match stop_at_once(link)? {
        Some(found) => Ok(found),
        None => {
            let found = stop_apart(link)?;
            Ok(found)
        }
    }
}
