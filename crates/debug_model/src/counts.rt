/// What a chip counts. Each number stands still at its type's end.
#[derive(Clone, Copy, Debug, Default, PartialEq, Eq)]
pub struct Counts {
    /// Rises of TCK, each of which took one round.
    pub rounds: u64,
    /// DMI operations that were performed.
    pub dmi_done: u64,
    /// Captures of `dmi` that found an operation in flight, and set the sticky status.
    pub dmi_busy: u64,
    /// DMI operations that were dropped unperformed.
    pub dmi_failed: u64,
}
