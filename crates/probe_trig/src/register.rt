ghost use Rattle.std.specs.Prelude.{◌≡◌, ◌∷◌, [], IfOk, IfErr, OnOk};
ghost use Rattle.debug_model.specs.Rises.{Within};
ghost use Rattle.probe_access.specs.Never.{NeverLost};
ghost use Rattle.debug_model.specs.Kept.{CanCall, Keeps};
ghost use Rattle.probe_run.specs.Told.{told, Fails, Serving};
ghost use Rattle.probe_access.specs.Faults.{access_why};
ghost use Rattle.probe_trig.specs.Faults.{Refuses, RefusesNoTinfo};
ghost use Rattle.probe_trig.specs.Runs.{word_read};
ghost use Rattle.probe_trig.specs.Transfers.{FailedIn, Made, asked, number_of};
ghost use Rattle.probe_trig.specs.Transfers.Transfer.{Got, Set};
ghost use Rattle.probe_trig.specs.declared.register.TriggerRegister.TheVariants.{Tselect, Tdata1};
ghost use Rattle.probe_trig.specs.Single.{OneAsked, OneGot, OneSet, WordRead};

use debug_model::Dmi;
use probe_access::AccessFault;
use probe_run::Halted;
use rv_model::register_number;

/// A register of a halted hart that a call on its slots reads or writes.
#[derive(Clone, Copy)]
pub enum TriggerRegister {
    /// Which slot the next three show.
    Tselect,
    /// The slot's trigger.
    Tdata1,
    /// What it compares with.
    Tdata2,
    /// Which types of triggers it offers.
    Tinfo,
    /// Why the hart halted.
    Dcsr,
}

impl TriggerRegister {
    /// Its number.
    fn number(self) -> u16
        ensures { result ≡ number_of self }
    {
        match self {
            TriggerRegister::Tselect => register_number::TSELECT,
            TriggerRegister::Tdata1 => register_number::TDATA1,
            TriggerRegister::Tdata2 => register_number::TDATA2,
            TriggerRegister::Tinfo => register_number::TINFO,
            TriggerRegister::Dcsr => register_number::DCSR,
        }
    }
}

/// Reads a register of the halted hart.
pub fn reg<D: Dmi>(
    link: &mut D,
    halted: &Halted,
    register: TriggerRegister,
) -> Result<u64, AccessFault>
    requires callable { CanCall (D.seen link.old) }
    requires serving { Serving halted.now.number (D.seen link.old).far }
    ensures made { IfOk result (λ value. Made halted.now.number (told (D.seen link.old)) (Got register value ∷ []) (told (D.seen link.new))) }
    ensures failed { IfErr result (Fails (FailedIn (OneGot register) halted.now.number) (D.seen link.old) (D.seen link.new)) }
    ensures serving { OnOk result (Serving halted.now.number (D.seen link.new).far) }
    ensures refuses { IfErr result (Refuses (λ number. number ≡ number_of register)) }
    ensures rises { Within 16 (D.seen link.old) (D.seen link.new) }
    ensures never { IfErr result (NeverLost (D.seen link.old)) }
    ensures keeps { Keeps access_why (D.seen link.old) (D.seen link.new) result }
{
    let value = probe_access::held_reg(link, halted, register.number())?;
    Ok(value)
}

/// Reads a register that the harts of another chip may lack: `None` where there is no such register.
pub fn reg_or_none<D: Dmi>(
    link: &mut D,
    halted: &Halted,
    register: TriggerRegister,
) -> Result<Option<u64>, AccessFault>
    requires callable { CanCall (D.seen link.old) }
    requires serving { Serving halted.now.number (D.seen link.old).far }
    ensures made { IfOk result (λ value. Made halted.now.number (told (D.seen link.old)) (asked register value) (told (D.seen link.new))) }
    ensures failed { IfErr result (Fails (FailedIn (OneAsked register) halted.now.number) (D.seen link.old) (D.seen link.new)) }
    ensures serving { OnOk result (Serving halted.now.number (D.seen link.new).far) }
    ensures refuses { IfErr result (Refuses (λ number. ⊥)) }
    ensures rises { Within 16 (D.seen link.old) (D.seen link.new) }
    ensures never { IfErr result (NeverLost (D.seen link.old)) }
    ensures keeps { Keeps access_why (D.seen link.old) (D.seen link.new) result }
{
    match probe_access::held_reg(link, halted, register.number()) {
        Ok(value) => Ok(Some(value)),
        Err(fault) => match fault {
            AccessFault::Register(_) => Ok(None),
            other => Err(other),
        },
    }
}

/// Writes a register of the halted hart.
pub fn set_reg<D: Dmi>(
    link: &mut D,
    halted: &Halted,
    register: TriggerRegister,
    value: u64,
) -> Result<(), AccessFault>
    requires callable { CanCall (D.seen link.old) }
    requires serving { Serving halted.now.number (D.seen link.old).far }
    ensures made { OnOk result (Made halted.now.number (told (D.seen link.old)) (Set register value ∷ []) (told (D.seen link.new))) }
    ensures failed { IfErr result (Fails (FailedIn (OneSet register value) halted.now.number) (D.seen link.old) (D.seen link.new)) }
    ensures serving { OnOk result (Serving halted.now.number (D.seen link.new).far) }
    ensures refuses { IfErr result (Refuses (λ number. number ≡ number_of register)) }
    ensures rises { Within 8 (D.seen link.old) (D.seen link.new) }
    ensures never { IfErr result (NeverLost (D.seen link.old)) }
    ensures keeps { Keeps access_why (D.seen link.old) (D.seen link.new) result }
{
    probe_access::set_reg(link, halted, register.number(), value)?;
    Ok(())
}

/// Selects a slot, and reads its `tdata1`.
pub fn read_word<D: Dmi>(link: &mut D, halted: &Halted, slot: u8) -> Result<u64, AccessFault>
    requires callable { CanCall (D.seen link.old) }
    requires serving { Serving halted.now.number (D.seen link.old).far }
    ensures made { IfOk result (λ tdata1. Made halted.now.number (told (D.seen link.old)) (word_read slot tdata1) (told (D.seen link.new))) }
    ensures failed { IfErr result (Fails (FailedIn (WordRead slot) halted.now.number) (D.seen link.old) (D.seen link.new)) }
    ensures serving { OnOk result (Serving halted.now.number (D.seen link.new).far) }
    ensures refuses { IfErr result RefusesNoTinfo }
    ensures rises { Within 24 (D.seen link.old) (D.seen link.new) }
    ensures never { IfErr result (NeverLost (D.seen link.old)) }
    ensures keeps { Keeps access_why (D.seen link.old) (D.seen link.new) result }
{
    set_reg(link, halted, TriggerRegister::Tselect, u64::from(slot))?;
    let tdata1 = reg(link, halted, TriggerRegister::Tdata1)?;
    Ok(tdata1)
}
