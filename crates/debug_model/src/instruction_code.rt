//! The codes of the instruction register, of five bits, that select a test data register (RISC-V Debug Specification 1.0, "JTAG DTM Registers").
//! Every other code selects BYPASS.

/// The device identification register.
pub const IDCODE: u8 = 0x01;
/// `dtmcs`, the control and status register of the debug transport.
pub const DTMCS: u8 = 0x10;
/// `dmi`, the access to the debug module interface.
pub const DMI: u8 = 0x11;
