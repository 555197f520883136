/// A test data register of the chip: what the instruction register selects between TDI and TDO.
///
/// Source: IEEE 1149.1, test data registers; RISC-V Debug Specification 1.0, "JTAG DTM Registers".
#[derive(Clone, Copy, Debug, PartialEq, Eq)]
pub enum DataRegister {
    /// The 32 bit device identification register.
    Idcode,
    /// The 32 bit control and status register of the debug transport.
    Dtmcs,
    /// The 41 bit access to the debug module interface.
    Dmi,
    /// The 1 bit bypass register.
    Bypass,
}
