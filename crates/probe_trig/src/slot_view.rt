use debug_model::SlotUse;
use rv_model::SlotSet;

/// A hart's four slots.
#[derive(Clone, Copy, Debug, PartialEq, Eq)]
pub struct SlotView {
    /// What each is used for.
    pub used: [SlotUse; 4],
    /// Those that stopped the hart where it stands.
    pub hits: SlotSet,
}
