//! A session over any wire to a chain of several TAPs, from its opening to the end of its stream, and a wire to a chain over any net.
//!
//! `run_chain_session` runs a script on the chip of the chain, around the other devices, and ends the stream by `Q`, alone, but not behind a fault of the wire.
//! Its clauses are those of a session over a wire to a chip alone, with the chip in the chain in the place of the chip alone: so where the wire tells a chain
//! whose chip is as loaded, the sentences of the headline hold of that chip.
#![tactic(auto)]

mod net_wire;
mod session;
mod stream_end;

pub use net_wire::ChainNetWire;
pub use session::run_chain_session;
