//! The JTAG side of the chip: the TAP controller with its instruction register and its test data registers, and the debug
//! transport behind dtmcs and dmi. Each call is exactly the definition's edge, level or end of an operation, from every
//! state. Nothing here knows a byte of the stream, nor what an operation does to the debug module.
#![tactic(auto)]

mod controller;
mod tap;
mod transport;

pub use controller::next_state;
pub use tap::Tap;
