/// What a link knows of the TAP at its far end.
#[derive(Clone, Copy, Debug, PartialEq, Eq)]
pub enum State {
    /// No call has reset it.
    New,
    /// It was left in Run-Test/Idle.
    Idle,
    /// A call has failed: nothing more is sent.
    Dead,
}
