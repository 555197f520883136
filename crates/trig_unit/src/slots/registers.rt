//! The registers that reach the slots
//! (RISC-V Debug Specification 1.0, "Trigger Select", "Trigger Data 1", "Trigger Data 2" and "Trigger Info").
//! What `tdata1` and `tinfo` hold goes by the release that the hart follows.

ghost use Rattle.std.specs.Prelude.{◌≡◌, ◌<◌, false, is_some, slice_index_or};
ghost use Rattle.rv_model.specs.Board.{free_slot};
ghost use Rattle.rv_model.specs.TriggerWords.{CountFits, with_selected, trigger_csr_value, trigger_csr_written};
ghost use Rattle.trig_unit.specs.Parts.{CountsFit};

use super::{SLOTS, Slots, any_armed};
use rv_model::register_number::{TDATA1, TDATA2, TINFO, TSELECT};
use rv_model::{Slot, Trigger};

/// The bits that `tselect` keeps: the number of a slot.
const TSELECT_BITS: u64 = 3;

/// The slot of that place.
fn slot_at(slots: &[Slot; SLOTS as usize], place: u8) -> Slot
    requires place { place < 4 }
    requires counts { CountsFit slots.now }
    ensures slot { result ≡ slice_index_or slots.now place free_slot }
    ensures fits { CountFits result.trigger }
{
    slots[place as usize]
}

impl Slots {
    /// A register's value, or `None` where this is no number of a trigger register.
    #[tactic(auto, unfolding(rv_model::specs::TriggerWords::trigger_csr_value))]
    pub fn read_csr(&self, number: u16) -> Option<u64>
        ensures { result ≡ trigger_csr_value self.now number }
    {
        match number {
            TSELECT => Some(u64::from(self.tselect)),
            TDATA1 => Some(
                slot_at(&self.slots, self.tselect)
                    .trigger
                    .tdata1(self.version),
            ),
            TDATA2 => Some(slot_at(&self.slots, self.tselect).tdata2),
            TINFO => Some(self.version.tinfo()),
            _ => None,
        }
    }

    /// Writes a register; what is not writable stays as it is. It answers false, and changes nothing, where this is no number of a trigger register.
    #[tactic(auto, unfolding(rv_model::specs::TriggerWords::trigger_csr_value, rv_model::specs::TriggerWords::trigger_csr_written))]
    pub fn write_csr(&mut self, number: u16, value: u64) -> bool
        ensures known { result ≡ is_some (trigger_csr_value self.old number) }
        ensures after { self.new ≡ trigger_csr_written self.old number value }
        ensures refused { result ≡ false → self.new ≡ self.old }
    {
        match number {
            TSELECT => self.tselect = (value & TSELECT_BITS) as u8,
            TDATA1 => {
                let slot = slot_at(&self.slots, self.tselect);
                self.put(Slot {
                    trigger: Trigger::from_tdata1(value, self.version),
                    ..slot
                });
            }
            TDATA2 => {
                let slot = slot_at(&self.slots, self.tselect);
                self.put(Slot {
                    tdata2: value,
                    ..slot
                });
            }
            TINFO => {}
            _ => return false,
        }
        true
    }

    /// Puts a slot where `tselect` says.
    fn put(&mut self, slot: Slot)
        requires { CountFits slot.trigger }
        ensures { self.new ≡ with_selected slot self.old }
    {
        self.slots[self.tselect as usize] = slot;
        self.armed = any_armed(&self.slots);
    }
}
