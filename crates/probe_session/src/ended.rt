use crate::fault::LostCause;
use debug_model::WireFault;
use probe_run::ConnectFault;

/// How a session ended.
#[derive(Clone, Copy, Debug, PartialEq, Eq)]
pub enum Ended {
    /// At the script's end or at its `end`, and no line says an error.
    Clean,
    /// There too, and some line says an error.
    WithErrors,
    /// A register of the chip is not as the opening asks: no fault of the transport.
    Target(ConnectFault),
    /// The wire failed.
    Wire(WireFault),
    /// The session is lost: the chip may have been left in the middle of a command.
    Lost(LostCause),
    /// A line could not be written.
    Sink,
}
