ghost use Rattle.std.specs.Prelude.{◌≡◌};
ghost use Rattle.debug_model.specs.ModuleWords.{dmstatus_of, dmstatus_word};

/// The register `dmstatus` (RISC-V Debug Specification 1.0, "Debug Module Status"), where one hart is selected: each pair of
/// "all" and "any" is equal. The version is cut to its width.
#[derive(Clone, Copy, Debug, Default, PartialEq, Eq)]
pub struct Dmstatus {
    /// Bits 19 and 18: the hart has been reset, and that was not acknowledged.
    pub havereset: bool,
    /// Bits 17 and 16: the hart has resumed since it was last asked to.
    pub resumeack: bool,
    /// Bits 15 and 14: there is no such hart.
    pub nonexistent: bool,
    /// Bits 11 and 10: the hart runs.
    pub running: bool,
    /// Bits 9 and 8: the hart is halted.
    pub halted: bool,
    /// Bit 7: the debug module may be used.
    pub authenticated: bool,
    /// Bits 3 to 0: 2 for the standard's release 0.13, 3 for release 1.0.
    pub version: u8,
}

impl Dmstatus {
    /// Its address.
    pub const ADDRESS: u8 = 0x11;

    /// The fields of a word, each pair by its bit "all".
    pub fn from_word(word: u32) -> Self
        ensures { result ≡ dmstatus_of word }
    {
        Dmstatus {
            havereset: word >> 19 & 1 == 1,
            resumeack: word >> 17 & 1 == 1,
            nonexistent: word >> 15 & 1 == 1,
            running: word >> 11 & 1 == 1,
            halted: word >> 9 & 1 == 1,
            authenticated: word >> 7 & 1 == 1,
            version: (word & 0xf) as u8,
        }
    }

    /// The word with these fields, and 0 in all others.
    pub fn word(self) -> u32
        ensures { result ≡ dmstatus_word self }
    {
        let state = (u32::from(self.havereset) << 19)
            + (u32::from(self.havereset) << 18)
            + (u32::from(self.resumeack) << 17)
            + (u32::from(self.resumeack) << 16)
            + (u32::from(self.nonexistent) << 15)
            + (u32::from(self.nonexistent) << 14)
            + (u32::from(self.running) << 11)
            + (u32::from(self.running) << 10)
            + (u32::from(self.halted) << 9)
            + (u32::from(self.halted) << 8);
        state + (u32::from(self.authenticated) << 7) + u32::from(self.version % 16)
    }
}
