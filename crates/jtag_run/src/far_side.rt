//! Who is at the far side of a net.

ghost use Rattle.std.specs.Prelude.{◌≡◌, is_some};

use bench_links::BenchNet;
use debug_model::{Net, Schedule};
use jtag_net::{MemoryNet, TcpNet};
use std::net;
use std::time::Clock;

/// A net that says whether it tells the chip at its far side. A chip that a net tells stands alone there, so such a net leads to no chain.
pub trait FarSide: Net {
    /// Whether `connect` leads to a chip that the net tells.
    fn tells_chip(&self) -> bool
        ensures { result ≡ is_some (Self.peer self.now).chip };
}

impl<R: net::Net + Eprint + Clock + Drop> FarSide for TcpNet<R> {
    fn tells_chip(&self) -> bool {
        false
    }
}

impl FarSide for MemoryNet {
    fn tells_chip(&self) -> bool {
        false
    }
}

impl<'a, Q: Schedule> FarSide for BenchNet<'a, Q> {
    fn tells_chip(&self) -> bool {
        self.know_loaded();
        true
    }
}
