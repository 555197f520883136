//! A sniffer at a chip on its bench: the operations that it shows are those that the chip's transport put in flight.
#![tactic(auto)]

mod chip_sniffing;
mod laws;

pub use chip_sniffing::sniff_chip;
pub use laws::lines_tell_operations;
