ghost use Rattle.std.specs.Prelude.{◌≡◌, false, nat_lt, ◌<◌, replicate, [], ◌∷◌};
ghost use Rattle.rv_model.specs.declared.touch.Touch.{Touch};
ghost use Rattle.rv_model.specs.declared.version.Version.TheVariants.{V10};
ghost use Rattle.rv_model.specs.Board.{free_slot, slot_count};
ghost use Rattle.rv_model.specs.Triggers.{fires, marked, counted_down};
ghost use Rattle.trig_unit.specs.Armed.{some_armed};
ghost use Rattle.trig_unit.specs.Members.{members, some_member, hit_by};

mod registers;

use crate::slot;
use rv_model::{Slot, SlotSet, Touch, Trigger, Version};
use std::marker::Model;

/// How many slots a hart has.
pub const SLOTS: u8 = 4;

/// A hart's trigger slots, and `tselect`.
#[derive(Drop)]
pub struct Slots {
    /// The release that the hart follows: it never changes.
    version: Version,
    tselect: u8,
    slots: [Slot; SLOTS as usize],
    /// Whether some slot is on in Machine Mode: a hart looks at it in each turn.
    armed: bool,
}

impl Model for Slots {
    ghost use Rattle.rv_model.specs.TriggerWords.{TriggerPart};
    ghost use Rattle.trig_unit.specs.Parts.{trigger_part_code, IsSlots};

    ghost Value = { TriggerPart };

    ghost coded = { trigger_part_code };

    ghost view = { λ s. record { version = s.version; tselect = s.tselect; slots = s.slots } };

    ghost invariant = { λ s. IsSlots s.tselect s.slots s.armed };
}

/// Whether one of the slots is on in Machine Mode.
fn any_armed(slots: &[Slot; SLOTS as usize]) -> bool
    ensures { result ≡ some_armed slots.now }
{
    let [a, b, c, d] = slots;
    slot::is_armed(a) || slot::is_armed(b) || slot::is_armed(c) || slot::is_armed(d)
}

/// The set with slot 0, slot 1 and so on where the answer is true.
fn set_of(a: bool, b: bool, c: bool, d: bool) -> SlotSet
    ensures members { members result ≡ a ∷ b ∷ c ∷ d ∷ [] }
    ensures some { nat_lt 0 result.0 ≡ some_member (a ∷ b ∷ c ∷ d ∷ []) }
    ensures small { result.0 < 16 }
{
    SlotSet(u8::from(a) + (u8::from(b) << 1) + (u8::from(c) << 2) + (u8::from(d) << 3))
}

impl Slots {
    /// Four free slots of a hart of release 1.0, the first of them selected.
    pub fn new() -> Self
        ensures { result ≡ record { version = V10; tselect = 0; slots = replicate slot_count free_slot } }
    {
        Slots::of_version(Version::V10)
    }

    /// The same of a hart of a release.
    pub fn of_version(version: Version) -> Self
        ensures { result ≡ record { version = version; tselect = 0; slots = replicate slot_count free_slot } }
    {
        let free = Slot {
            trigger: Trigger::Disabled,
            tdata2: 0,
        };
        Slots {
            version,
            tselect: 0,
            slots: [free; SLOTS as usize],
            armed: false,
        }
    }

    /// Whether some slot is on in Machine Mode: no other fires or counts.
    #[inline(always)]
    pub fn any_armed(&self) -> bool
        ensures armed { result ≡ some_armed self.now.slots }
        ensures quiet { result ≡ false → (touch : Touch) → some_member (fires touch self.now.slots) ≡ false }
    {
        self.armed
    }

    /// The slots that fire at the instruction that touches this.
    pub fn fires(&self, touch: &Touch) -> SlotSet
        ensures members { members result ≡ fires touch.now self.now.slots }
        ensures some { nat_lt 0 result.0 ≡ some_member (fires touch.now self.now.slots) }
        ensures small { result.0 < 16 }
    {
        let [a, b, c, d] = &self.slots;
        set_of(
            slot::fires(a, touch),
            slot::fires(b, touch),
            slot::fires(c, touch),
            slot::fires(d, touch),
        )
    }

    /// The slots of a set take their hit, and a count among them loses its pending mark: what a stop leaves where these slots fired.
    pub fn mark(&mut self, fired: SlotSet)
        ensures hit { self.new ≡ record self.old { slots = hit_by (members fired) self.old.slots } }
        ensures marked { (touch : Touch) → members fired ≡ fires touch self.old.slots → self.new.slots ≡ marked touch self.old.slots }
    {
        let [a, b, c, d] = self.slots;
        self.slots = [
            slot::hit_where(fired.has(0), a),
            slot::hit_where(fired.has(1), b),
            slot::hit_where(fired.has(2), c),
            slot::hit_where(fired.has(3), d),
        ];
        self.armed = any_armed(&self.slots);
    }

    /// An executed turn lets the counts fall.
    #[inline(always)]
    pub fn retired(&mut self)
        ensures { self.new ≡ record self.old { slots = counted_down self.old.slots } }
    {
        if self.armed {
            self.count_down();
        }
    }

    /// Lets each count fall that is on.
    #[inline(never)]
    fn count_down(&mut self)
        ensures { self.new ≡ record self.old { slots = counted_down self.old.slots } }
    {
        let [a, b, c, d] = self.slots;
        self.slots = [
            slot::counted_down(a),
            slot::counted_down(b),
            slot::counted_down(c),
            slot::counted_down(d),
        ];
        self.armed = any_armed(&self.slots);
    }
}
