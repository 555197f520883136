ghost use Rattle.std.specs.Prelude.{◌≡◌, ◌<◌, ◌≤◌, ◌^◌, All, [], length, Some, OnOk, OnErr, IfOk, IfErr, IfSome};
ghost use Rattle.debug_model.specs.declared.dmi_op.DmiOp.TheVariants.{Read, Write};
ghost use Rattle.debug_model.specs.Asked.{AsksDtmcs, AsksIdcode, AsksOperation, AsksOperations};
ghost use Rattle.debug_model.specs.Dmi.{Answers, IsOperation, NoneOperated, Operated, OperationCut, Passes, Shows};
ghost use Rattle.debug_model.specs.Kept.{CanCall, DmiSeen, Keeps, ManyFails, OperationFails, RegisterScanFails};
ghost use Rattle.debug_model.specs.Many.{AnswersAll, OperatedAll, OperationsCut, operations_most};
ghost use Rattle.debug_model.specs.Rises.{BusyOnce, FailsByWire, RisesAtLeast, RisesByBusy, Within};
ghost use Rattle.debug_model.specs.Scan.{WhereTold};
ghost use Rattle.debug_model.specs.Tap.{idcode};
ghost use Rattle.debug_model.specs.Transport.{dtmcs_seen, fresh_dtm};
ghost use Rattle.debug_model.specs.TransportWords.{dtmcs_word};

use crate::dmi_op::DmiOp;
use crate::wire::WireFault;
use arrayvec::ArrayVec;
use thiserror::Error;

/// Why an operation on the debug module interface has no result.
#[derive(Clone, Copy, Debug, PartialEq, Eq, Error)]
pub enum DmiFault {
    /// The scans below failed.
    #[error("wire: {0}")]
    Wire(WireFault),
    /// The transport answered that the operation failed (`dmi`, op 2).
    #[error("dmi failed")]
    Failed,
    /// The transport answered 64 times that it was busy (`dmi`, op 3, or the reserved op 1).
    #[error("still busy")]
    StillBusy,
}

impl From<WireFault> for DmiFault {
    ghost use Rattle.debug_model.specs.declared.dmi.DmiFault.TheVariants as fault;

    ghost from_gives = { λ wire e. e ≡ fault.Wire wire };

    fn from(wire: WireFault) -> DmiFault {
        DmiFault::Wire(wire)
    }
}

/// How many operations one call takes at most.
pub const OPERATIONS_MOST: usize = 128;

/// Operations on the registers of a debug module, and the two registers of the transport that tell what it is
/// (RISC-V Debug Specification 1.0, "Debug Module Interface").
///
/// Where it tells its far end the clauses say what each call does there, as a path of atomic steps: whatever the rounds and the busy
/// answers were, an operation was performed exactly once. Each call also bounds how often it lets TCK rise: by its busy answers under
/// any schedule, and under one that is fair within 32 rounds by 256 rises an operation and 8 times the slack; no operation meets more
/// than one busy answer there, and only the wire fails. Where it tells what is to be heard, each answer is that. Behind any fault it is
/// not alive, and no call can be made.
pub trait Dmi: Drop {
    /// The chip at the far end, what is to be heard, and what scans were asked for, each where it is told; whether calls can be made; how many have failed; and
    /// what no call changes.
    ghost seen: { Self → DmiSeen };

    /// Resets the TAP and reads the 32 bits of its IDCODE (IEEE 1149.1, the device identification register).
    fn idcode(&mut self) -> Result<u32, DmiFault>
        requires callable { CanCall (seen self.old) }
        ensures path { OnOk result (WhereTold NoneOperated (seen self.old).far (seen self.new).far) }
        ensures value { IfOk result (λ value. IfSome (seen self.old).far (λ _. value ≡ idcode)) }
        ensures shows { IfOk result (λ value. Shows value (seen self.old).coming (seen self.new).coming) }
        ensures asked { OnOk result (AsksIdcode (seen self.old).asked (seen self.new).asked) }
        ensures cut { OnErr result (WhereTold NoneOperated (seen self.old).far (seen self.new).far) }
        ensures cause { IfErr result (RegisterScanFails (seen self.old) (seen self.new)) }
        ensures rises { Within 1 (seen self.old) (seen self.new) }
        ensures keeps { Keeps Some (seen self.old) (seen self.new) result };

    /// Clears the sticky status (`dmireset`) and reads the 32 bits of `dtmcs` as they were before.
    fn dtmcs(&mut self) -> Result<u32, DmiFault>
        requires callable { CanCall (seen self.old) }
        ensures path { OnOk result (WhereTold NoneOperated (seen self.old).far (seen self.new).far) }
        ensures value { IfOk result (λ value. IfSome (seen self.old).far (λ _. value ≡ dtmcs_word (dtmcs_seen fresh_dtm))) }
        ensures shows { IfOk result (λ value. Shows value (seen self.old).coming (seen self.new).coming) }
        ensures asked { IfOk result (λ value. AsksDtmcs value (seen self.old).asked (seen self.new).asked) }
        ensures cut { OnErr result (WhereTold NoneOperated (seen self.old).far (seen self.new).far) }
        ensures cause { IfErr result (RegisterScanFails (seen self.old) (seen self.new)) }
        ensures rises { Within 1 (seen self.old) (seen self.new) }
        ensures keeps { Keeps Some (seen self.old) (seen self.new) result };

    /// Reads the register at an address below 2^7: the operation's own result.
    fn read(&mut self, address: u8) -> Result<u32, DmiFault>
        requires address { address < 2 ^ 7 }
        requires callable { CanCall (seen self.old) }
        ensures operated { IfOk result (λ value. WhereTold (Operated (Read address) value) (seen self.old).far (seen self.new).far) }
        ensures answers { IfOk result (λ value. Answers value (seen self.old).coming (seen self.new).coming) }
        ensures asked { OnOk result (AsksOperation (Read address) (seen self.old).asked (seen self.new).asked) }
        ensures cut { OnErr result (WhereTold (OperationCut (Read address)) (seen self.old).far (seen self.new).far) }
        ensures cause { IfErr result (OperationFails (seen self.old) (seen self.new)) }
        ensures by_busy { RisesByBusy 1 (seen self.old) (seen self.new) }
        ensures least { OnOk result (RisesAtLeast 1 (seen self.old) (seen self.new)) }
        ensures once { BusyOnce 1 (seen self.old) (seen self.new) }
        ensures rises { Within 1 (seen self.old) (seen self.new) }
        ensures never { IfErr result (FailsByWire (seen self.old)) }
        ensures keeps { Keeps Some (seen self.old) (seen self.new) result };

    /// Writes the register at an address below 2^7.
    fn write(&mut self, address: u8, value: u32) -> Result<(), DmiFault>
        requires address { address < 2 ^ 7 }
        requires callable { CanCall (seen self.old) }
        ensures operated { OnOk result (WhereTold (Operated (Write address value) value) (seen self.old).far (seen self.new).far) }
        ensures passes { OnOk result (Passes (seen self.old).coming (seen self.new).coming) }
        ensures asked { OnOk result (AsksOperation (Write address value) (seen self.old).asked (seen self.new).asked) }
        ensures cut { OnErr result (WhereTold (OperationCut (Write address value)) (seen self.old).far (seen self.new).far) }
        ensures cause { IfErr result (OperationFails (seen self.old) (seen self.new)) }
        ensures by_busy { RisesByBusy 1 (seen self.old) (seen self.new) }
        ensures least { OnOk result (RisesAtLeast 1 (seen self.old) (seen self.new)) }
        ensures once { BusyOnce 1 (seen self.old) (seen self.new) }
        ensures rises { Within 1 (seen self.old) (seen self.new) }
        ensures never { IfErr result (FailsByWire (seen self.old)) }
        ensures keeps { Keeps Some (seen self.old) (seen self.new) result };

    /// Does from 1 to 128 operations, in order, each once: `results` is empty, and then holds each one's own result, a write's being its data. The scan that
    /// fetches one result carries the next operation. Behind a fault the first of them were done, each once, and `results` is empty.
    fn many(
        &mut self,
        ops: &[DmiOp],
        results: &mut ArrayVec<u32, OPERATIONS_MOST>,
    ) -> Result<(), DmiFault>
        requires some { 0 < length ops.now }
        requires room { length ops.now ≤ operations_most }
        requires operations { All IsOperation ops.now }
        requires empty { results.old.items ≡ [] }
        requires callable { CanCall (seen self.old) }
        ensures count { OnOk result (length results.new.items ≡ length ops.now) }
        ensures operated { OnOk result (WhereTold (OperatedAll ops.now results.new.items) (seen self.old).far (seen self.new).far) }
        ensures answers { OnOk result (AnswersAll ops.now results.new.items (seen self.old).coming (seen self.new).coming) }
        ensures asked { OnOk result (AsksOperations ops.now (seen self.old).asked (seen self.new).asked) }
        ensures cut { OnErr result (WhereTold (OperationsCut ops.now) (seen self.old).far (seen self.new).far) }
        ensures none { OnErr result (results.new.items ≡ []) }
        ensures cause { IfErr result (ManyFails (length ops.now) (seen self.old) (seen self.new)) }
        ensures by_busy { RisesByBusy (length ops.now) (seen self.old) (seen self.new) }
        ensures least { OnOk result (RisesAtLeast (length ops.now) (seen self.old) (seen self.new)) }
        ensures once { BusyOnce (length ops.now) (seen self.old) (seen self.new) }
        ensures rises { Within (length ops.now) (seen self.old) (seen self.new) }
        ensures never { IfErr result (FailsByWire (seen self.old)) }
        ensures keeps { Keeps Some (seen self.old) (seen self.new) result };

    /// Whether calls can be made: no call has failed.
    fn alive(&self) -> bool
        ensures { result ≡ (seen self.now).is_alive };

    /// How many calls of what carries the operations have failed. The count stays at the top of a `u64`.
    fn faults(&self) -> u64
        ensures { result ≡ (seen self.now).fault_count };
}
