ghost use Rattle.std.specs.Prelude.{◌≡◌, ◌<◌};
ghost use Rattle.rv_model.specs.SlotSet.{has_slot};

/// A set of a hart's four trigger slots: bit n says that slot n is in it.
#[derive(Clone, Copy, Debug, PartialEq, Eq)]
pub struct SlotSet(pub u8);

impl SlotSet {
    /// Is that slot in the set? The slot is below 4.
    pub fn has(&self, slot: u8) -> bool
        requires { slot < 4 }
        ensures { result ≡ has_slot self.now slot }
    {
        self.0 >> slot & 1 == 1
    }
}
