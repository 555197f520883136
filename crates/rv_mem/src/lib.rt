//! The memory of the harts: RAM and the harts' MSIP words, with one reservation for each hart.
//!
//! For those above, `Ram` is a map from addresses to bytes; how the bytes are kept is not theirs to know.
#![tactic(auto)]

mod bytes;
mod places;
mod ram;
mod ram_fault;
mod windows;

pub use ram::Ram;
pub use ram_fault::RamFault;
