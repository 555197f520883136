ghost use Rattle.std.specs.Prelude.{◌≡◌, ◌<◌, true, false, Some, None, IfOk, IfErr, OnOk};
ghost use Rattle.debug_model.specs.Rises.{Within};
ghost use Rattle.probe_trig.specs.Never.{SlotNeverLost};
ghost use Rattle.probe_access.specs.Never.{NeverLost};
ghost use Rattle.debug_model.specs.Kept.{CanCall, Keeps, Stands};
ghost use Rattle.probe_run.specs.Told.{told, OnChip, Fails, Serving};
ghost use Rattle.probe_access.specs.Faults.{access_why};
ghost use Rattle.probe_access.specs.Cuts.{IfCut, LeftAside, Leaves};
ghost use Rattle.probe_access.specs.Scratches.{ScratchLeft};
ghost use Rattle.abstract_debugger.specs.Slots.{address_trigger};
ghost use Rattle.rv_model.specs.TriggerWords.{CountFits};
ghost use Rattle.probe_trig.specs.Faults.{ByFault, IfAccess, RefusesNoTinfo, UnlessAccess, trig_why};
ghost use Rattle.probe_trig.specs.Runs.{Arms, ArmsAny, ArmsOn, Seeks, SeeksAny, address_set, armed_by, arming_version};
ghost use Rattle.probe_trig.specs.Single.{AddressSet, Armed, ArmedBy};
ghost use Rattle.probe_trig.specs.Slots.{ArmedAt, AtHarts, DebugAlone, FullAt};
ghost use Rattle.probe_trig.specs.Transfers.{Did, FailedIn, Made};
ghost use Rattle.probe_trig.specs.SlotRegisters.{CanArm, address_named, trigger_named};

use crate::fault::TrigFault;
use crate::register::{TriggerRegister, read_word, reg, reg_or_none, set_reg};
use crate::words::shows_free;
use debug_model::{Dmi, SlotUse, WatchKind};
use probe_access::AccessFault;
use probe_run::Halted;
use rv_model::{Comparison, Icount, Mcontrol6, Trigger, Version};

/// How many slots a hart has.
const SLOTS: u8 = 4;

/// A trigger at an address.
fn at_address(execute: bool, load: bool, store: bool) -> Trigger
    ensures is { result ≡ address_trigger execute load store }
    ensures fits { CountFits result }
{
    Trigger::Mcontrol6(Mcontrol6 {
        hit: false,
        comparison: Comparison::Equal,
        m: true,
        execute,
        store,
        load,
    })
}

/// The trigger of a slot that is armed for this.
fn trigger_for(what: SlotUse) -> Trigger
    requires can { CanArm what }
    ensures is { result ≡ trigger_named what }
    ensures fits { CountFits result }
{
    match what {
        SlotUse::Break(_) => at_address(true, false, false),
        SlotUse::Watch(WatchKind::Load, _) => at_address(false, true, false),
        SlotUse::Watch(WatchKind::Store, _) => at_address(false, false, true),
        SlotUse::Watch(WatchKind::Access, _) => at_address(false, true, true),
        SlotUse::Count(turns) => Trigger::Icount(Icount {
            hit: false,
            count: turns,
            m: true,
            pending: false,
        }),
        SlotUse::Free | SlotUse::Other(_) => Trigger::Disabled,
    }
}

/// The release by whose type of address triggers a slot is armed: type 6 where its `tinfo` offers that, else type 2; without a `tinfo` the type of
/// the release that its chip follows.
fn arming_version(release: Version, tinfo: Option<u64>) -> Version
    ensures { result ≡ arming_version release tinfo }
{
    match tinfo {
        Some(tinfo) => Version::offered_by(tinfo),
        None => release,
    }
}

/// The address that it compares with, if it does.
fn address_of(what: SlotUse) -> Option<u64>
    ensures { result ≡ address_named what }
{
    match what {
        SlotUse::Break(address) | SlotUse::Watch(_, address) => Some(address),
        SlotUse::Free | SlotUse::Count(_) | SlotUse::Other(_) => None,
    }
}

/// Writes the address of what the selected slot is to be armed for, where it has one.
fn set_address<D: Dmi>(link: &mut D, halted: &Halted, what: SlotUse) -> Result<(), AccessFault>
    requires stands { Stands (D.seen link.old) }
    requires serving { Serving halted.now.number (D.seen link.old).far }
    ensures made { OnOk result (Made halted.now.number (told (D.seen link.old)) (address_set (address_named what)) (told (D.seen link.new))) }
    ensures failed { IfErr result (Fails (FailedIn (AddressSet what) halted.now.number) (D.seen link.old) (D.seen link.new)) }
    ensures serving { OnOk result (Serving halted.now.number (D.seen link.new).far) }
    ensures refuses { IfErr result RefusesNoTinfo }
    ensures rises { Within 8 (D.seen link.old) (D.seen link.new) }
    ensures never { IfErr result (NeverLost (D.seen link.old)) }
    ensures keeps { Keeps access_why (D.seen link.old) (D.seen link.new) result }
{
    match address_of(what) {
        Some(address) => {
            set_reg(link, halted, TriggerRegister::Tdata2, address)?;
            Ok(())
        }
        None => Ok(()),
    }
}

/// Arms the selected slot, with an address trigger of this release's type.
fn arm_by<D: Dmi>(
    link: &mut D,
    halted: &Halted,
    what: SlotUse,
    version: Version,
) -> Result<(), AccessFault>
    requires can { CanArm what }
    requires stands { Stands (D.seen link.old) }
    requires serving { Serving halted.now.number (D.seen link.old).far }
    ensures made { OnOk result (Made halted.now.number (told (D.seen link.old)) (armed_by version what) (told (D.seen link.new))) }
    ensures failed { IfErr result (Fails (FailedIn (ArmedBy version what) halted.now.number) (D.seen link.old) (D.seen link.new)) }
    ensures serving { OnOk result (Serving halted.now.number (D.seen link.new).far) }
    ensures refuses { IfErr result RefusesNoTinfo }
    ensures rises { Within 16 (D.seen link.old) (D.seen link.new) }
    ensures never { IfErr result (NeverLost (D.seen link.old)) }
    ensures keeps { Keeps access_why (D.seen link.old) (D.seen link.new) result }
{
    set_address(link, halted, what)?;
    let tdata1 = trigger_for(what).tdata1(version);
    set_reg(link, halted, TriggerRegister::Tdata1, tdata1)?;
    Ok(())
}

/// Arms the selected slot, by the types that it offers, or by the release of its chip.
fn arm_selected<D: Dmi>(link: &mut D, halted: &Halted, what: SlotUse) -> Result<(), AccessFault>
    requires can { CanArm what }
    requires callable { CanCall (D.seen link.old) }
    requires serving { Serving halted.now.number (D.seen link.old).far }
    ensures did { OnOk result (Did (Armed halted.now.version what) halted.now.number (told (D.seen link.old)) (told (D.seen link.new))) }
    ensures failed { IfErr result (Fails (FailedIn (Armed halted.now.version what) halted.now.number) (D.seen link.old) (D.seen link.new)) }
    ensures serving { OnOk result (Serving halted.now.number (D.seen link.new).far) }
    ensures refuses { IfErr result RefusesNoTinfo }
    ensures rises { Within 32 (D.seen link.old) (D.seen link.new) }
    ensures never { IfErr result (NeverLost (D.seen link.old)) }
    ensures keeps { Keeps access_why (D.seen link.old) (D.seen link.new) result }
{
    let tinfo = reg_or_none(link, halted, TriggerRegister::Tinfo)?;
    arm_by(link, halted, what, arming_version(halted.version(), tinfo))?;
    Ok(())
}

/// Selects the lowest free slot, if there is one.
fn seek_free<D: Dmi>(link: &mut D, halted: &Halted) -> Result<Option<u8>, AccessFault>
    requires callable { CanCall (D.seen link.old) }
    requires serving { Serving halted.now.number (D.seen link.old).far }
    ensures did { IfOk result (λ found. Did (Seeks found) halted.now.number (told (D.seen link.old)) (told (D.seen link.new))) }
    ensures failed { IfErr result (Fails (FailedIn SeeksAny halted.now.number) (D.seen link.old) (D.seen link.new)) }
    ensures serving { OnOk result (Serving halted.now.number (D.seen link.new).far) }
    ensures refuses { IfErr result RefusesNoTinfo }
    ensures rises { Within 96 (D.seen link.old) (D.seen link.new) }
    ensures never { IfErr result (NeverLost (D.seen link.old)) }
    ensures keeps { Keeps access_why (D.seen link.old) (D.seen link.new) result }
{
    'seeking: for slot in 0..SLOTS {
        let tdata1 = read_word(link, halted, slot)?;
        if shows_free(tdata1) {
            return Ok(Some(slot));
        }
    }
    Ok(None)
}

/// Arms the lowest free slot, if there is one.
fn arm_lowest<D: Dmi>(
    link: &mut D,
    halted: &Halted,
    what: SlotUse,
) -> Result<Option<u8>, AccessFault>
    requires can { CanArm what }
    requires callable { CanCall (D.seen link.old) }
    requires serving { Serving halted.now.number (D.seen link.old).far }
    ensures did { IfOk result (λ found. Did (ArmsOn halted.now.version what found) halted.now.number (told (D.seen link.old)) (told (D.seen link.new))) }
    ensures failed { IfErr result (Fails (FailedIn (ArmsAny what) halted.now.number) (D.seen link.old) (D.seen link.new)) }
    ensures serving { OnOk result (Serving halted.now.number (D.seen link.new).far) }
    ensures refuses { IfErr result RefusesNoTinfo }
    ensures rises { Within 152 (D.seen link.old) (D.seen link.new) }
    ensures never { IfErr result (NeverLost (D.seen link.old)) }
    ensures keeps { Keeps access_why (D.seen link.old) (D.seen link.new) result }
{
    let kept = reg(link, halted, TriggerRegister::Tselect)?;
    match seek_free(link, halted)? {
        Some(slot) => {
            arm_selected(link, halted, what)?;
            set_reg(link, halted, TriggerRegister::Tselect, kept)?;
            Ok(Some(slot))
        }
        None => {
            set_reg(link, halted, TriggerRegister::Tselect, kept)?;
            Ok(None)
        }
    }
}

/// Arms the lowest free slot of the halted hart, which is selected, for a break, a watch, or a count from 1 to 16,383, and answers which it is,
/// below 4. `NoFreeSlot` where all four are in use. An address trigger is of type 6 where `tinfo` of the slot offers that, and else of type 2
/// (RISC-V External Debug Support 0.13.2, "Match Control"); on a chip that has no `tinfo` it is of the type of the release that the opening read.
pub fn arm<D: Dmi>(link: &mut D, halted: &Halted, what: SlotUse) -> Result<u8, TrigFault>
    requires can { CanArm what }
    requires callable { CanCall (D.seen link.old) }
    requires serving { Serving halted.now.number (D.seen link.old).far }
    ensures armed { IfOk result (λ slot. OnChip (AtHarts (ArmedAt what slot halted.now.number)) (D.seen link.old) (D.seen link.new)) }
    ensures did { IfOk result (λ slot. Did (Arms what (Some slot)) halted.now.number (told (D.seen link.old)) (told (D.seen link.new))) }
    ensures release { IfOk result
        (λ slot. Did (ArmsOn halted.now.version what (Some slot)) halted.now.number (told (D.seen link.old)) (told (D.seen link.new))) }
    ensures below { IfOk result (λ slot. slot < 4) }
    ensures left { IfErr result (ByFault (ScratchLeft (D.seen link.old).far)
        (OnChip (AtHarts (FullAt halted.now.number)) (D.seen link.old) (D.seen link.new))
        ⊥) }
    ensures failed { IfErr result (ByFault (Fails (FailedIn (ArmsAny what) halted.now.number) (D.seen link.old) (D.seen link.new))
        (Did (Arms what None) halted.now.number (told (D.seen link.old)) (told (D.seen link.new)))
        ⊥) }
    ensures cut { IfErr result (IfAccess (IfCut (Leaves (LeftAside DebugAlone halted.now.number) (D.seen link.old).far (D.seen link.new).far))) }
    ensures serving_still { IfErr result (UnlessAccess (Serving halted.now.number (D.seen link.new).far)) }
    ensures serving { OnOk result (Serving halted.now.number (D.seen link.new).far) }
    ensures refuses { IfErr result (IfAccess RefusesNoTinfo) }
    ensures rises { Within 152 (D.seen link.old) (D.seen link.new) }
    ensures never { IfErr result (SlotNeverLost (D.seen link.old)) }
    ensures keeps { Keeps trig_why (D.seen link.old) (D.seen link.new) result }
{
    match arm_lowest(link, halted, what)? {
        Some(slot) => Ok(slot),
        None => Err(TrigFault::NoFreeSlot),
    }
}
