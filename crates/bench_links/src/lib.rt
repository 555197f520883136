//! Links to the chip on a bench that go over a net.
//!
//! A `LoopWire` is a wire through both ends of a joined net, with the chip at its far end: each byte crosses the net once and in order, and is compared with
//! what was put in. A `BenchNet` is a net whose `connect` ends at the chip.
#![tactic(auto)]

mod bench_net;
mod crossing;
mod loop_wire;
#[cfg(test)]
mod tests;

pub use bench_net::{BenchNet, FAILING_MOST};
pub use loop_wire::LoopWire;
