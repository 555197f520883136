ghost use Rattle.std.specs.Prelude.{◌≡◌};
ghost use Rattle.debug_model.specs.ModuleWords.{sbcs_of, sbcs_word};

/// The register `sbcs` (RISC-V Debug Specification 1.0, "System Bus Access Control and Status"). A field is cut to its width.
#[derive(Clone, Copy, Debug, Default, PartialEq, Eq)]
pub struct Sbcs {
    /// Bits 31 to 29: 1 for the version of the standard's releases 0.13 and 1.0.
    pub sbversion: u8,
    /// Bit 22: the bus was accessed while it was busy; written 1 it is cleared.
    pub sbbusyerror: bool,
    /// Bit 21: an access is under way.
    pub sbbusy: bool,
    /// Bit 20: a write of `sbaddress0` starts a read.
    pub sbreadonaddr: bool,
    /// Bits 19 to 17: an access has 2 to the power of this many bytes.
    pub sbaccess: u8,
    /// Bit 16: the address grows by the size behind each access.
    pub sbautoincrement: bool,
    /// Bit 15: a read of `sbdata0` starts a read.
    pub sbreadondata: bool,
    /// Bits 14 to 12: the error of an access; written, the bits that are 1 are cleared.
    pub sberror: u8,
    /// Bits 11 to 5: the bits of an address.
    pub sbasize: u8,
    /// Bits 4 to 0: accesses of 16, 8, 4, 2 and 1 bytes can be made, the last of them in bit 0.
    pub sizes: u8,
}

impl Sbcs {
    /// Its address.
    pub const ADDRESS: u8 = 0x38;

    /// The fields of a word.
    pub fn from_word(word: u32) -> Self
        ensures { result ≡ sbcs_of word }
    {
        Sbcs {
            sbversion: (word >> 29 & 0x7) as u8,
            sbbusyerror: word >> 22 & 1 == 1,
            sbbusy: word >> 21 & 1 == 1,
            sbreadonaddr: word >> 20 & 1 == 1,
            sbaccess: (word >> 17 & 0x7) as u8,
            sbautoincrement: word >> 16 & 1 == 1,
            sbreadondata: word >> 15 & 1 == 1,
            sberror: (word >> 12 & 0x7) as u8,
            sbasize: (word >> 5 & 0x7f) as u8,
            sizes: (word & 0x1f) as u8,
        }
    }

    /// The word with these fields, and 0 in all others.
    pub fn word(self) -> u32
        ensures { result ≡ sbcs_word self }
    {
        (u32::from(self.sbversion % 8) << 29)
            + (u32::from(self.sbbusyerror) << 22)
            + (u32::from(self.sbbusy) << 21)
            + (u32::from(self.sbreadonaddr) << 20)
            + (u32::from(self.sbaccess % 8) << 17)
            + (u32::from(self.sbautoincrement) << 16)
            + (u32::from(self.sbreadondata) << 15)
            + (u32::from(self.sberror % 8) << 12)
            + (u32::from(self.sbasize % 128) << 5)
            + u32::from(self.sizes % 32)
    }
}
