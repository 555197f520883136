ghost use Rattle.std.specs.Prelude.{◌≡◌};
ghost use Rattle.debug_model.specs.ModuleWords.{abstractauto_of, abstractauto_word};

/// The register `abstractauto` (RISC-V Debug Specification 1.0, "Abstract Command Autoexec"): which words start the kept command again when they are accessed.
#[derive(Clone, Copy, Debug, Default, PartialEq, Eq)]
pub struct Abstractauto {
    /// Bit 0.
    pub data0: bool,
    /// Bit 1.
    pub data1: bool,
    /// Bit 16.
    pub progbuf0: bool,
    /// Bit 17.
    pub progbuf1: bool,
    /// Bit 18.
    pub progbuf2: bool,
    /// Bit 19.
    pub progbuf3: bool,
}

impl Abstractauto {
    /// Its address.
    pub const ADDRESS: u8 = 0x18;

    /// The fields of a word.
    pub fn from_word(word: u32) -> Self
        ensures { result ≡ abstractauto_of word }
    {
        Abstractauto {
            data0: word & 1 == 1,
            data1: word >> 1 & 1 == 1,
            progbuf0: word >> 16 & 1 == 1,
            progbuf1: word >> 17 & 1 == 1,
            progbuf2: word >> 18 & 1 == 1,
            progbuf3: word >> 19 & 1 == 1,
        }
    }

    /// The word with these fields, and 0 in all others.
    pub fn word(self) -> u32
        ensures { result ≡ abstractauto_word self }
    {
        u32::from(self.data0)
            + (u32::from(self.data1) << 1)
            + (u32::from(self.progbuf0) << 16)
            + (u32::from(self.progbuf1) << 17)
            + (u32::from(self.progbuf2) << 18)
            + (u32::from(self.progbuf3) << 19)
    }
}
