ghost use Rattle.std.specs.Prelude.{◌≡◌};
ghost use Rattle.debug_model.specs.ModuleWords.{abstractcs_of, abstractcs_word};

/// The register `abstractcs` (RISC-V Debug Specification 1.0, "Abstract Control and Status"). A field is cut to its width.
#[derive(Clone, Copy, Debug, Default, PartialEq, Eq)]
pub struct Abstractcs {
    /// Bits 28 to 24: the words of the program buffer.
    pub progbufsize: u8,
    /// Bit 12: a command is under way.
    pub busy: bool,
    /// Bits 10 to 8: the error of a command; written, the bits that are 1 are cleared.
    pub cmderr: u8,
    /// Bits 3 to 0: the data words.
    pub datacount: u8,
}

impl Abstractcs {
    /// Its address.
    pub const ADDRESS: u8 = 0x16;

    /// The fields of a word.
    pub fn from_word(word: u32) -> Self
        ensures { result ≡ abstractcs_of word }
    {
        Abstractcs {
            progbufsize: (word >> 24 & 0x1f) as u8,
            busy: word >> 12 & 1 == 1,
            cmderr: (word >> 8 & 0x7) as u8,
            datacount: (word & 0xf) as u8,
        }
    }

    /// The word with these fields, and 0 in all others.
    pub fn word(self) -> u32
        ensures { result ≡ abstractcs_word self }
    {
        (u32::from(self.progbufsize % 32) << 24)
            + (u32::from(self.busy) << 12)
            + (u32::from(self.cmderr % 8) << 8)
            + u32::from(self.datacount % 16)
    }
}
