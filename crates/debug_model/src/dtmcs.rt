ghost use Rattle.std.specs.Prelude.{◌≡◌};
ghost use Rattle.debug_model.specs.TransportWords.{dtmcs_of, dtmcs_word};

/// The register `dtmcs` (RISC-V Debug Specification 1.0, "DTM Control and Status"), 32 bits. A field is cut to its width.
#[derive(Clone, Copy, Debug, Default, PartialEq, Eq)]
pub struct Dtmcs {
    /// Bit 17: written 1, the transport starts anew.
    pub dtmhardreset: bool,
    /// Bit 16: written 1, the sticky status is cleared.
    pub dmireset: bool,
    /// Bits 14 to 12: a hint on clocks in Run-Test/Idle.
    pub idle: u8,
    /// Bits 11 and 10: the sticky status.
    pub dmistat: u8,
    /// Bits 9 to 4: the bits of an address.
    pub abits: u8,
    /// Bits 3 to 0: 1 for the version of the standard's releases 0.13 and 1.0.
    pub version: u8,
}

impl Dtmcs {
    /// The fields of a word.
    pub fn from_word(word: u32) -> Self
        ensures { result ≡ dtmcs_of word }
    {
        Dtmcs {
            dtmhardreset: word >> 17 & 1 == 1,
            dmireset: word >> 16 & 1 == 1,
            idle: (word >> 12 & 0x7) as u8,
            dmistat: (word >> 10 & 0x3) as u8,
            abits: (word >> 4 & 0x3f) as u8,
            version: (word & 0xf) as u8,
        }
    }

    /// The word with these fields, and 0 in all others.
    pub fn word(self) -> u32
        ensures { result ≡ dtmcs_word self }
    {
        (u32::from(self.dtmhardreset) << 17)
            + (u32::from(self.dmireset) << 16)
            + (u32::from(self.idle % 8) << 12)
            + (u32::from(self.dmistat % 4) << 10)
            + (u32::from(self.abits % 64) << 4)
            + u32::from(self.version % 16)
    }
}
