//! What one slot does: it fires, takes its hit, and lets its count fall
//! (RISC-V Debug Specification 1.0, "Match Control Type 6" and "Instruction Count"; RISC-V External Debug Support 0.13.2, "Match Control").

ghost use Rattle.std.specs.Prelude.{◌≡◌};
ghost use Rattle.rv_model.specs.Triggers.{slot_fires, counted, slot_counted};
ghost use Rattle.rv_model.specs.TriggerWords.{CountFits};
ghost use Rattle.trig_unit.specs.Armed.{slot_armed};
ghost use Rattle.trig_unit.specs.Members.{slot_hit_by};

use crate::access::{access_compares, compares};
use rv_model::{Icount, Mcontrol6, Slot, Touch, Trigger};

/// Whether a slot is on in Machine Mode.
pub fn is_armed(slot: &Slot) -> bool
    ensures { result ≡ slot_armed slot.now }
{
    match slot.trigger {
        Trigger::Mcontrol6(t) => t.m,
        Trigger::Icount(t) => t.m,
        Trigger::Disabled => false,
    }
}

/// Whether a slot fires at what an instruction touches.
pub fn fires(slot: &Slot, touch: &Touch) -> bool
    ensures { result ≡ slot_fires touch.now slot.now }
{
    let tdata2 = slot.tdata2;
    match slot.trigger {
        Trigger::Mcontrol6(t) => {
            t.m && (t.execute && compares(t.comparison, tdata2, touch.pc)
                || t.load && access_compares(t.comparison, tdata2, touch.load)
                || t.store && access_compares(t.comparison, tdata2, touch.store))
        }
        Trigger::Icount(t) => t.m && t.pending,
        Trigger::Disabled => false,
    }
}

/// The slot behind a stop: where it fired it takes its hit, and a count loses its pending mark.
pub fn hit_where(fired: bool, slot: Slot) -> Slot
    requires { CountFits slot.trigger }
    ensures slot { result ≡ slot_hit_by fired slot }
    ensures fits { CountFits result.trigger }
{
    if !fired {
        return slot;
    }
    let trigger = match slot.trigger {
        Trigger::Mcontrol6(t) => Trigger::Mcontrol6(Mcontrol6 { hit: true, ..t }),
        Trigger::Icount(t) => Trigger::Icount(Icount {
            hit: true,
            pending: false,
            ..t
        }),
        Trigger::Disabled => Trigger::Disabled,
    };
    Slot { trigger, ..slot }
}

/// A count behind an executed turn.
fn counted(t: Icount) -> Icount
    ensures { result ≡ counted t }
{
    if !t.m || t.count == 0 {
        return t;
    }
    Icount {
        count: t.count - 1,
        pending: t.pending || t.count == 1,
        ..t
    }
}

/// The slot behind an executed turn: only a count changes.
pub fn counted_down(slot: Slot) -> Slot
    requires { CountFits slot.trigger }
    ensures slot { result ≡ slot_counted slot }
    ensures fits { CountFits result.trigger }
{
    match slot.trigger {
        Trigger::Mcontrol6(_) => slot,
        Trigger::Icount(t) => Slot {
            trigger: Trigger::Icount(counted(t)),
            ..slot
        },
        Trigger::Disabled => slot,
    }
}
