use arrayvec::ArrayVec;

/// One step of the chip, as a schedule names it.
///
/// An event whose part has nothing to do changes nothing, nor does the turn of a hart that does not exist.
#[derive(Clone, Copy, Debug, Default, PartialEq, Eq)]
pub enum Event {
    /// The hart of this number has its turn: one instruction, one trap, one stop or one resume.
    Turn(u8),
    /// The debug module performs the DMI operation that is in flight.
    ///
    /// It is also what fills the unused places of a round's array.
    #[default]
    DmiDone,
    /// The DMI operation that is in flight fails, and is dropped.
    DmiFail,
    /// The abstract command that is under way takes one micro step.
    CmdStep,
    /// The system bus access that is under way is made.
    BusDone,
}

/// The events that one rising edge of TCK takes after it acted on the TAP, in order: at most eight.
pub type Round = ArrayVec<Event, 8>;
