ghost use Rattle.std.specs.Prelude.{◌≡◌, true, false, IfOk, IfErr};
ghost use Rattle.probe_access.specs.Pending.{is_mip};
ghost use Rattle.probe_session.specs.Calls.{AskFell, GiveFell, Got, PendingFell, ReadFell};
ghost use Rattle.probe_session.specs.Links.{AttachedHalted, Goes};
ghost use Rattle.probe_session.specs.Answers.{PendingAs, ReadAs, WrittenAs};
ghost use Rattle.probe_run.specs.Told.{told, Fails};
ghost use Rattle.debug_model.specs.Rises.{Within};
ghost use Rattle.probe_session.specs.Never.{NeverGivesUp};

use crate::fault::Failure;
use debug_model::Dmi;
use probe_access::AccessFault;
use probe_run::Halted;
use rv_model::register_number;

/// The value of a register that the halted hart itself holds, or none where the chip refuses to read it.
pub(crate) fn reg_or_none<D: Dmi>(
    link: &mut D,
    halted: &Halted,
    number: u16,
) -> Result<Option<u64>, Failure>
    requires other { is_mip number ≡ false }
    requires serving { AttachedHalted halted.now.number (D.seen link.old) }
    ensures got { IfOk result
        (ReadAs halted.now.number number (told (D.seen link.old)) (told (D.seen link.new))) }
    ensures fell { IfErr result (Fails (AskFell halted.now.number number) (D.seen link.old) (D.seen link.new)) }
    ensures rises { Within 16 (D.seen link.old) (D.seen link.new) }
    ensures never { IfErr result (NeverGivesUp (D.seen link.old)) }
    ensures keeps { Goes (λ _. AttachedHalted halted.now.number) (D.seen link.old) (D.seen link.new) result }
{
    match probe_access::held_reg(link, halted, number) {
        Ok(value) => Ok(Some(value)),
        Err(fault) => match fault {
            AccessFault::Register(_) => Ok(None),
            other => Err(Failure::from(other)),
        },
    }
}

/// What `mip` shows of the halted hart at one access to memory, or none where the chip refuses to read it.
pub(crate) fn pending_or_none<D: Dmi>(link: &mut D, halted: &Halted) -> Result<Option<u64>, Failure>
    requires serving { AttachedHalted halted.now.number (D.seen link.old) }
    ensures got { IfOk result (PendingAs halted.now.number (told (D.seen link.old)) (told (D.seen link.new))) }
    ensures fell { IfErr result (Fails (PendingFell halted.now.number) (D.seen link.old) (D.seen link.new)) }
    ensures rises { Within 16 (D.seen link.old) (D.seen link.new) }
    ensures never { IfErr result (NeverGivesUp (D.seen link.old)) }
    ensures keeps { Goes (λ _. AttachedHalted halted.now.number) (D.seen link.old) (D.seen link.new) result }
{
    match probe_access::reg(link, halted, register_number::MIP) {
        Ok(value) => Ok(Some(value)),
        Err(fault) => match fault {
            AccessFault::Register(_) => Ok(None),
            other => Err(Failure::from(other)),
        },
    }
}

/// The value of a register that each halted hart itself holds: a chip that refuses to read it loses the session.
pub fn reg<D: Dmi>(link: &mut D, halted: &Halted, number: u16) -> Result<u64, Failure>
    requires other { is_mip number ≡ false }
    requires serving { AttachedHalted halted.now.number (D.seen link.old) }
    ensures got { IfOk result
        (λ value. Got halted.now.number number value (told (D.seen link.old)) (told (D.seen link.new))) }
    ensures fell { IfErr result (Fails (ReadFell halted.now.number number) (D.seen link.old) (D.seen link.new)) }
    ensures rises { Within 16 (D.seen link.old) (D.seen link.new) }
    ensures never { IfErr result (NeverGivesUp (D.seen link.old)) }
    ensures keeps { Goes (λ _. AttachedHalted halted.now.number) (D.seen link.old) (D.seen link.new) result }
{
    let value = probe_access::held_reg(link, halted, number)?;
    Ok(value)
}

/// Writes a register of the halted hart. It answers whether the chip took it.
pub fn set_reg_if_taken<D: Dmi>(
    link: &mut D,
    halted: &Halted,
    number: u16,
    value: u64,
) -> Result<bool, Failure>
    requires serving { AttachedHalted halted.now.number (D.seen link.old) }
    ensures gave { IfOk result
        (WrittenAs halted.now.number number value (told (D.seen link.old)) (told (D.seen link.new))) }
    ensures fell { IfErr result (Fails (GiveFell halted.now.number number value) (D.seen link.old) (D.seen link.new)) }
    ensures rises { Within 8 (D.seen link.old) (D.seen link.new) }
    ensures never { IfErr result (NeverGivesUp (D.seen link.old)) }
    ensures keeps { Goes (λ _. AttachedHalted halted.now.number) (D.seen link.old) (D.seen link.new) result }
{
    match probe_access::set_reg(link, halted, number, value) {
        Ok(()) => Ok(true),
        Err(fault) => match fault {
            AccessFault::Register(_) => Ok(false),
            other => Err(Failure::from(other)),
        },
    }
}
