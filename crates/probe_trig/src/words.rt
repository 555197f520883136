ghost use Rattle.std.specs.Prelude.{◌≡◌};
ghost use Rattle.abstract_debugger.specs.Slots.{address_use, trigger_has_hit};
ghost use Rattle.abstract_debugger.specs.SlotUses.{use_named};
ghost use Rattle.probe_trig.specs.SlotRegisters.{or_other, shows_free, shows_hit, trigger_shown, use_shown};
ghost use Rattle.rv_model.specs.TriggerWords.{CountFits};

use debug_model::{SlotUse, WatchKind};
use rv_model::{Comparison, Mcontrol6, Trigger, Version};

/// The place and the number of the type of a disabled trigger (RISC-V Debug Specification 1.0, "Trigger Data 1").
const TYPE_LOW: u32 = 60;

const DISABLED: u64 = 15;

/// Whether `tdata1` shows a slot that is free. One of a type that is not known is in use.
pub fn shows_free(tdata1: u64) -> bool
    ensures { result ≡ shows_free tdata1 }
{
    tdata1 >> TYPE_LOW == DISABLED
}

/// The trigger that `tdata1` shows, by the type in it: type 2 is an address trigger of release 0.13, type 6 one of release 1.0.
fn trigger_shown(tdata1: u64) -> Trigger
    ensures is { result ≡ trigger_shown tdata1 }
    ensures fits { CountFits result }
{
    Trigger::from_tdata1(tdata1, Version::shown_by(tdata1))
}

/// Whether `tdata1` shows that the slot stopped the hart.
pub fn shows_hit(tdata1: u64) -> bool
    ensures { result ≡ shows_hit tdata1 }
{
    match trigger_shown(tdata1) {
        Trigger::Mcontrol6(t) => t.hit,
        Trigger::Icount(t) => t.hit,
        Trigger::Disabled => false,
    }
}

/// What an address trigger is used for, whose slot reads so.
fn address_use(trigger: Mcontrol6, tdata1: u64, tdata2: u64) -> SlotUse
    ensures { use_named result ≡ or_other tdata1 (address_use trigger.comparison trigger tdata1 tdata2) }
{
    let other = SlotUse::Other(tdata1);
    match trigger.comparison {
        Comparison::Equal => match (trigger.m, trigger.execute, trigger.load, trigger.store) {
            (true, true, false, false) => SlotUse::Break(tdata2),
            (true, false, true, false) => SlotUse::Watch(WatchKind::Load, tdata2),
            (true, false, false, true) => SlotUse::Watch(WatchKind::Store, tdata2),
            (true, false, true, true) => SlotUse::Watch(WatchKind::Access, tdata2),
            _ => other,
        },
        Comparison::AtLeast | Comparison::Below => other,
    }
}

/// What a slot is used for that reads so.
pub fn use_shown(tdata1: u64, tdata2: u64) -> SlotUse
    ensures { use_named result ≡ use_shown tdata1 tdata2 }
{
    if shows_free(tdata1) {
        return SlotUse::Free;
    }
    match trigger_shown(tdata1) {
        Trigger::Mcontrol6(t) => address_use(t, tdata1, tdata2),
        Trigger::Icount(t) if t.m => SlotUse::Count(t.count),
        Trigger::Icount(_) | Trigger::Disabled => SlotUse::Other(tdata1),
    }
}
