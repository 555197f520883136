ghost use Rattle.std.specs.Prelude.{◌≡◌, ◌≤◌, IfOk, IfErr, OnOk};
ghost use Rattle.rv_model.specs.DebugRegisters.{dcsr_number};
ghost use Rattle.probe_access.specs.Cuts.{IfCut, LeftAside, Leaves, Unchanged};
ghost use Rattle.probe_access.specs.DcsrRuns.{DcsrAskFailed, DcsrAsked, DcsrRead, DcsrReadFailed};
ghost use Rattle.probe_access.specs.Registers.{RegisterReadAt};
ghost use Rattle.probe_access.specs.Scratches.{ScratchLeft};
ghost use Rattle.debug_model.specs.Rises.{Within};
ghost use Rattle.probe_access.specs.Never.{NeverLost};
ghost use Rattle.debug_model.specs.Kept.{CanCall, Keeps};
ghost use Rattle.probe_run.specs.Told.{Fails, OnChip, told};
ghost use Rattle.probe_access.specs.Faults.{access_why};
ghost use Rattle.probe_run.specs.Told.{Serving};

use crate::commands::{end_command, transfer_of};
use crate::fault::AccessFault;
use crate::transfers::read_apart;
use arrayvec::ArrayVec;
use debug_model::{AbstractCommand, Abstractcs, Data0, Dmi, DmiOp};
use probe_run::Halted;
use rv_model::register_number;

/// Asks for `dcsr` of the selected hart and reads its lower data word, which is all of its 32 bits, in one call with the first poll: its value where the end
/// shows no error. A word that is read while the command is under way sets one (RISC-V Debug Specification 1.0, "Abstract Control and Status", cmderr).
/// An error is cleared.
#[tactic(auto, using(debug_model::proofs::RiseLemmas::within_then, debug_model::proofs::RiseLemmas::within_more))]
fn dcsr_at_once<D: Dmi>(link: &mut D) -> Result<Option<u64>, AccessFault>
    requires callable { CanCall (D.seen link.old) }
    ensures asked { IfOk result (λ answer. DcsrAsked answer (told (D.seen link.old)) (told (D.seen link.new))) }
    ensures failed { IfErr result (Fails DcsrAskFailed (D.seen link.old) (D.seen link.new)) }
    ensures rises { Within 7 (D.seen link.old) (D.seen link.new) }
    ensures never { IfErr result (NeverLost (D.seen link.old)) }
    ensures keeps { Keeps access_why (D.seen link.old) (D.seen link.new) result }
{
    let operations = [
        DmiOp::Write(
            AbstractCommand::ADDRESS,
            transfer_of(register_number::DCSR, false).word(),
        ),
        DmiOp::Read(Data0::ADDRESS),
        DmiOp::Read(Abstractcs::ADDRESS),
    ];
    let mut words = ArrayVec::new();
    link.many(&operations, &mut words)?;
    let last = end_command(link, words[2])?;
    if Abstractcs::from_word(last).cmderr != 0 {
        return Ok(None);
    }
    Ok(Some(u64::from(words[1])))
}

/// What `dcsr` of the halted hart reads, which is selected: in one call, and again by calls of their own where that shows an error.
#[tactic(auto, using(debug_model::proofs::RiseLemmas::within_then, debug_model::proofs::RiseLemmas::within_more))]
pub fn read_dcsr<D: Dmi>(link: &mut D, halted: &Halted) -> Result<u64, AccessFault>
    requires callable { CanCall (D.seen link.old) }
    requires serving { Serving halted.now.number (D.seen link.old).far }
    ensures got { IfOk result (λ word. OnChip (RegisterReadAt halted.now.number dcsr_number word) (D.seen link.old) (D.seen link.new)) }
    ensures read { IfOk result (λ word. DcsrRead word (told (D.seen link.old)) (told (D.seen link.new))) }
    ensures left { IfErr result (ScratchLeft (D.seen link.old).far) }
    ensures failed { IfErr result (Fails DcsrReadFailed (D.seen link.old) (D.seen link.new)) }
    ensures cut { IfErr result (IfCut (Leaves (LeftAside Unchanged halted.now.number) (D.seen link.old).far (D.seen link.new).far)) }
    ensures serving { OnOk result (Serving halted.now.number (D.seen link.new).far) }
    ensures rises { Within 15 (D.seen link.old) (D.seen link.new) }
    ensures never { IfErr result (NeverLost (D.seen link.old)) }
    ensures keeps { Keeps access_why (D.seen link.old) (D.seen link.new) result }
{
    let _halted = halted;
    match dcsr_at_once(link)? {
        Some(word) => Ok(word),
        None => {
            let word = read_apart(link, register_number::DCSR)?;
            Ok(word)
        }
    }
}
