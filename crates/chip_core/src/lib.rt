//! The chip on its bench: TAP, debug module, harts, memory, journal and schedule as one thing that takes the bytes of the bit-bang stream.
//!
//! A `Bench` is blank or has a chip as a load left it. `feed` is the fold of debug_model's definition, with the exact place of whatever ends the stream;
//! feeding two pieces is feeding them joined, and the harts' turns are exactly those that the schedule offered. A `BenchWire` is a wire to the chip that tells
//! it, and fails only where the chip has met its limit.
#![tactic(auto)]

mod bench;
mod bench_wire;
mod chip;
mod fed;
mod laws;
mod load_fault;
mod notes;
mod system;

pub use bench::{ANSWERS_MOST, Answers, Bench};
pub use bench_wire::{BenchWire, feed_pieces};
pub use fed::Fed;
pub use laws::{ended_stays_ended, feeds_tell, pieces_join};
pub use load_fault::LoadFault;
