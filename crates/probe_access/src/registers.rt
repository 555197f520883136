ghost use Rattle.std.specs.Prelude.{◌≡◌, ◌≤◌, true, false, IfOk, IfErr, OnOk};
ghost use Rattle.rv_model.specs.Registers.{mip_number};
ghost use Rattle.probe_access.specs.Cuts.{AccessLeftOff, IfCut, LeftAside, Leaves, LoadLeaves, MaybeWritten, Unchanged};
ghost use Rattle.probe_access.specs.Pending.{GetFailed, PendingReadAt, RegisterCutAt, RegisterGot, RegisterGotAt, is_mip};
ghost use Rattle.probe_access.specs.RegisterRuns.{ReadApart, ReadApartFailed, ReadFailed, RegisterRead, RegisterWritten, WriteFailed};
ghost use Rattle.probe_access.specs.Registers.{RegisterReadAt, IfRegister, RegisterLeft, RegisterWrittenAt};
ghost use Rattle.debug_model.specs.Rises.{Within};
ghost use Rattle.probe_access.specs.Never.{NeverLost};
ghost use Rattle.debug_model.specs.Kept.{CanCall, Keeps};
ghost use Rattle.probe_run.specs.Told.{Fails, OnChip, told};
ghost use Rattle.probe_access.specs.Faults.{access_why};
ghost use Rattle.probe_run.specs.Told.{Serving};

use crate::fault::AccessFault;
use crate::transfers::{read_apart, read_register, write_register};
use debug_model::Dmi;
use probe_run::Halted;
use rv_model::register_number;

/// What `mip` shows of the halted hart, which is selected: by one transfer, which is one access to memory, since it is memory that tells it.
fn pending<D: Dmi>(link: &mut D, halted: &Halted) -> Result<u64, AccessFault>
    requires callable { CanCall (D.seen link.old) }
    requires serving { Serving halted.now.number (D.seen link.old).far }
    ensures got { IfOk result (λ value. OnChip (PendingReadAt halted.now.number value) (D.seen link.old) (D.seen link.new)) }
    ensures read { IfOk result (λ value. ReadApart mip_number value (told (D.seen link.old)) (told (D.seen link.new))) }
    ensures left { IfErr result (RegisterLeft false halted.now.number mip_number (D.seen link.old).far (D.seen link.new).far) }
    ensures failed { IfErr result (Fails (ReadApartFailed mip_number) (D.seen link.old) (D.seen link.new)) }
    ensures cut { IfErr result
        (IfCut (Leaves (AccessLeftOff Unchanged LoadLeaves halted.now.number) (D.seen link.old).far (D.seen link.new).far)) }
    ensures serving { OnOk result (Serving halted.now.number (D.seen link.new).far) }
    ensures serving_still { IfErr result (IfRegister (Serving halted.now.number (D.seen link.new).far)) }
    ensures rises { Within 8 (D.seen link.old) (D.seen link.new) }
    ensures never { IfErr result (NeverLost (D.seen link.old)) }
    ensures keeps { Keeps access_why (D.seen link.old) (D.seen link.new) result }
{
    let _halted = halted;
    let value = read_apart(link, register_number::MIP)?;
    Ok(value)
}

/// The value of a register that the halted hart itself holds: the same for any register but `mip`. A register may be asked for twice, and `mip` may not, since
/// a second read of it is a second access.
pub fn held_reg<D: Dmi>(link: &mut D, halted: &Halted, register: u16) -> Result<u64, AccessFault>
    requires other { is_mip register ≡ false }
    requires callable { CanCall (D.seen link.old) }
    requires serving { Serving halted.now.number (D.seen link.old).far }
    ensures got { IfOk result (λ value. OnChip (RegisterReadAt halted.now.number register value) (D.seen link.old) (D.seen link.new)) }
    ensures read { IfOk result (λ value. RegisterRead register value (told (D.seen link.old)) (told (D.seen link.new))) }
    ensures left { IfErr result (RegisterLeft false halted.now.number register (D.seen link.old).far (D.seen link.new).far) }
    ensures failed { IfErr result (Fails (ReadFailed register) (D.seen link.old) (D.seen link.new)) }
    ensures cut { IfErr result (IfCut (Leaves (LeftAside Unchanged halted.now.number) (D.seen link.old).far (D.seen link.new).far)) }
    ensures serving { OnOk result (Serving halted.now.number (D.seen link.new).far) }
    ensures serving_still { IfErr result (IfRegister (Serving halted.now.number (D.seen link.new).far)) }
    ensures rises { Within 16 (D.seen link.old) (D.seen link.new) }
    ensures never { IfErr result (NeverLost (D.seen link.old)) }
    ensures keeps { Keeps access_why (D.seen link.old) (D.seen link.new) result }
{
    let _halted = halted;
    let value = read_register(link, register)?;
    Ok(value)
}

/// The value of a register of the halted hart, which is selected: x0 to x31 from 0x1000 on, `pc` as `dpc`, others by their CSR number
/// (RISC-V Debug Specification 1.0, "Access Register"). `Register` where there is no such register. A read of `mip` is one access to memory,
/// and of another register none.
#[tactic(auto, using(debug_model::proofs::RiseLemmas::within_then, debug_model::proofs::RiseLemmas::within_more))]
pub fn reg<D: Dmi>(link: &mut D, halted: &Halted, register: u16) -> Result<u64, AccessFault>
    requires callable { CanCall (D.seen link.old) }
    requires serving { Serving halted.now.number (D.seen link.old).far }
    ensures got { IfOk result (λ value. OnChip (RegisterGotAt halted.now.number register value) (D.seen link.old) (D.seen link.new)) }
    ensures read { IfOk result (λ value. RegisterGot register value (told (D.seen link.old)) (told (D.seen link.new))) }
    ensures left { IfErr result (RegisterLeft false halted.now.number register (D.seen link.old).far (D.seen link.new).far) }
    ensures failed { IfErr result (Fails (GetFailed register) (D.seen link.old) (D.seen link.new)) }
    ensures cut { IfErr result (IfCut (Leaves (RegisterCutAt register halted.now.number) (D.seen link.old).far (D.seen link.new).far)) }
    ensures serving { OnOk result (Serving halted.now.number (D.seen link.new).far) }
    ensures serving_still { IfErr result (IfRegister (Serving halted.now.number (D.seen link.new).far)) }
    ensures rises { Within 16 (D.seen link.old) (D.seen link.new) }
    ensures never { IfErr result (NeverLost (D.seen link.old)) }
    ensures keeps { Keeps access_why (D.seen link.old) (D.seen link.new) result }
{
    if register == register_number::MIP {
        return pending(link, halted);
    }
    held_reg(link, halted, register)
}

/// Writes a register of the halted hart, which is selected; the numbers are those of `reg`. What is not writable of it stays as it is.
/// `Register` where there is no such register, or it is read-only.
pub fn set_reg<D: Dmi>(
    link: &mut D,
    halted: &Halted,
    register: u16,
    value: u64,
) -> Result<(), AccessFault>
    requires callable { CanCall (D.seen link.old) }
    requires serving { Serving halted.now.number (D.seen link.old).far }
    ensures set_to { OnOk result (OnChip (RegisterWrittenAt halted.now.number register value) (D.seen link.old) (D.seen link.new)) }
    ensures written { OnOk result (RegisterWritten register value (told (D.seen link.old)) (told (D.seen link.new))) }
    ensures left { IfErr result (RegisterLeft true halted.now.number register (D.seen link.old).far (D.seen link.new).far) }
    ensures failed { IfErr result (Fails (WriteFailed register value) (D.seen link.old) (D.seen link.new)) }
    ensures cut { IfErr result (IfCut (Leaves (LeftAside (MaybeWritten register value) halted.now.number) (D.seen link.old).far (D.seen link.new).far)) }
    ensures serving { OnOk result (Serving halted.now.number (D.seen link.new).far) }
    ensures serving_still { IfErr result (IfRegister (Serving halted.now.number (D.seen link.new).far)) }
    ensures rises { Within 8 (D.seen link.old) (D.seen link.new) }
    ensures never { IfErr result (NeverLost (D.seen link.old)) }
    ensures keeps { Keeps access_why (D.seen link.old) (D.seen link.new) result }
{
    let _halted = halted;
    write_register(link, register, value)?;
    Ok(())
}
