//! A wire to a chain of several TAPs, with the chip on a bench as one of them.
//!
//! A `ChainBench` carries the bytes of the stream to the chip and to the devices beside it, as IEEE 1149.1 connects them: TCK, TMS and TRST reach all, and
//! each gets TDI from its neighbour. The chip is moved by bytes alone, as on a bench of its own, so it stays what it is there. A `ServedChain` takes the same
//! bytes as a peer's stream, and says how that ends; `serve_in_chain` serves it over a net.
#![tactic(auto)]

mod chain_bench;
mod served_chain;
mod sides;
mod taking;
#[cfg(test)]
mod tests;

pub use chain_bench::ChainBench;
pub use served_chain::{ServedChain, chain_ends_as_its_chip, chain_takes_pieces, serve_in_chain};
