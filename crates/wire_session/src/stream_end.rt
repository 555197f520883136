//! The end of a session's stream.

ghost use Rattle.std.specs.Prelude.{◌≡◌};
ghost use Rattle.wire_session.specs.Closing.{Closes, sends_quit, unclosed};
ghost use Rattle.wire_session.specs.Session.{LeavesWire};

use debug_model::{Wire, WireFault};
use probe_session::Ended;

/// The sign that ends a stream.
pub const QUIT: u8 = b'Q';

/// Whether the stream of a session that ended so is ended: behind a fault of the wire nothing more is sent.
pub fn sends_quit(ended: Ended) -> bool
    ensures { result ≡ sends_quit ended }
{
    match ended {
        Ended::Clean => true,
        Ended::WithErrors => true,
        Ended::Target(_) => true,
        Ended::Wire(_) => false,
        Ended::Lost(_) => true,
        Ended::Sink => true,
    }
}

/// How a session ended whose stream could not be ended: by the wire, unless a line could not be written before.
pub fn unclosed(fault: WireFault, ended: Ended) -> Ended
    ensures { result ≡ unclosed fault ended }
{
    match ended {
        Ended::Clean => Ended::Wire(fault),
        Ended::WithErrors => Ended::Wire(fault),
        Ended::Target(_) => Ended::Wire(fault),
        Ended::Wire(first) => Ended::Wire(first),
        Ended::Lost(_) => Ended::Wire(fault),
        Ended::Sink => Ended::Sink,
    }
}

/// Ends the stream of a session that ended so, and says how both together ended.
pub fn end_stream<W: Wire>(wire: &mut W, ended: Ended) -> Ended
    requires leaves { LeavesWire (W.far wire.old) ended }
    ensures closes { Closes
        (record { far = W.far wire.old; coming = W.coming wire.old; faults = W.fault_count wire.old })
        (record { far = W.far wire.new; coming = W.coming wire.new; faults = W.fault_count wire.new })
        ended result }
    ensures ties { W.ties wire.new ≡ W.ties wire.old }
{
    if !sends_quit(ended) {
        return ended;
    }
    match wire.send(&[QUIT]) {
        Ok(()) => ended,
        Err(fault) => unclosed(fault, ended),
    }
}
