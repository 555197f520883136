use crate::fault::LostCause;
use debug_model::WireFault;

/// What became of a command.
#[derive(Clone, Copy, Debug, PartialEq, Eq)]
pub enum Acted {
    /// It was done, and no line says an error.
    Done,
    /// A line says an error.
    Error,
    /// It is `end`.
    End,
    /// The wire failed.
    Wire(WireFault),
    /// The session is lost.
    Lost(LostCause),
    /// A line could not be written.
    Sink,
}
