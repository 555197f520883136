//! Registers of the debug module that hold one value each, with no fields (RISC-V Debug Specification 1.0, "Debug Module Registers").

/// The lower word that a transfer of a command reads from and writes to.
pub struct Data0;

impl Data0 {
    /// Its address.
    pub const ADDRESS: u8 = 0x04;
}

/// The upper word.
pub struct Data1;

impl Data1 {
    /// Its address.
    pub const ADDRESS: u8 = 0x05;
}

/// The first word of the program buffer.
pub struct Progbuf0;

impl Progbuf0 {
    /// Its address.
    pub const ADDRESS: u8 = 0x20;
}

/// The second.
pub struct Progbuf1;

impl Progbuf1 {
    /// Its address.
    pub const ADDRESS: u8 = 0x21;
}

/// The third.
pub struct Progbuf2;

impl Progbuf2 {
    /// Its address.
    pub const ADDRESS: u8 = 0x22;
}

/// The fourth.
pub struct Progbuf3;

impl Progbuf3 {
    /// Its address.
    pub const ADDRESS: u8 = 0x23;
}

/// The lower half of the address of a system bus access.
pub struct Sbaddress0;

impl Sbaddress0 {
    /// Its address.
    pub const ADDRESS: u8 = 0x39;
}

/// The upper half.
pub struct Sbaddress1;

impl Sbaddress1 {
    /// Its address.
    pub const ADDRESS: u8 = 0x3a;
}

/// The lower word of what a system bus access reads or writes.
pub struct Sbdata0;

impl Sbdata0 {
    /// Its address.
    pub const ADDRESS: u8 = 0x3c;
}

/// The upper word.
pub struct Sbdata1;

impl Sbdata1 {
    /// Its address.
    pub const ADDRESS: u8 = 0x3d;
}

/// Which of the first 32 harts are halted.
pub struct Haltsum0;

impl Haltsum0 {
    /// Its address.
    pub const ADDRESS: u8 = 0x40;
}
