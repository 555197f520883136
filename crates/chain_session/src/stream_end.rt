//! The end of the stream of a session over a wire to a chain.

ghost use Rattle.std.specs.Prelude.{◌≡◌};
ghost use Rattle.wire_session.specs.Closing.{Closes};
ghost use Rattle.wire_session.specs.Session.{LeavesWire};
ghost use Rattle.chain_scan.specs.Told.{chip_told};

use chain_scan::ChainWire;
use probe_session::Ended;
use wire_session::{QUIT, sends_quit, unclosed};

/// Ends the stream of a session that ended so, and says how both together ended.
#[tactic(auto, using(wire_session::proofs::StreamEnds::can_quit, crate::proofs::ChainEnds::chip_quits, crate::proofs::ChainEnds::chip_quits_front))]
pub(crate) fn end_chain_stream<W: ChainWire>(wire: &mut W, ended: Ended) -> Ended
    requires leaves { LeavesWire (chip_told (W.far wire.old)) ended }
    ensures closes { Closes
        (record { far = chip_told (W.far wire.old); coming = W.coming wire.old; faults = W.fault_count wire.old })
        (record { far = chip_told (W.far wire.new); coming = W.coming wire.new; faults = W.fault_count wire.new })
        ended result }
    ensures ties { W.ties wire.new ≡ W.ties wire.old }
{
    if !sends_quit(ended) {
        return ended;
    }
    match wire.send(&[QUIT]) {
        Ok(()) => ended,
        Err(fault) => unclosed(fault, ended),
    }
}
