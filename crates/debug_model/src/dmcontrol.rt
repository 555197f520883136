ghost use Rattle.std.specs.Prelude.{◌≡◌};
ghost use Rattle.debug_model.specs.ModuleWords.{dmcontrol_of, dmcontrol_word};

/// The register `dmcontrol` (RISC-V Debug Specification 1.0, "Debug Module Control"). A field is cut to its width.
#[derive(Clone, Copy, Debug, Default, PartialEq, Eq)]
pub struct Dmcontrol {
    /// Bit 31: the selected hart is asked to halt.
    pub haltreq: bool,
    /// Bit 30: the selected hart is asked to resume.
    pub resumereq: bool,
    /// Bit 28: the debugger knows that the selected hart was reset.
    pub ackhavereset: bool,
    /// Bits 25 to 16: the number of the selected hart.
    pub hartsello: u16,
    /// Bit 0: the debug module works; at 0 it is reset.
    pub dmactive: bool,
}

impl Dmcontrol {
    /// Its address.
    pub const ADDRESS: u8 = 0x10;

    /// The fields of a word.
    pub fn from_word(word: u32) -> Self
        ensures { result ≡ dmcontrol_of word }
    {
        Dmcontrol {
            haltreq: word >> 31 & 1 == 1,
            resumereq: word >> 30 & 1 == 1,
            ackhavereset: word >> 28 & 1 == 1,
            hartsello: (word >> 16 & 0x3ff) as u16,
            dmactive: word & 1 == 1,
        }
    }

    /// The word with these fields, and 0 in all others.
    pub fn word(self) -> u32
        ensures { result ≡ dmcontrol_word self }
    {
        (u32::from(self.haltreq) << 31)
            + (u32::from(self.resumereq) << 30)
            + (u32::from(self.ackhavereset) << 28)
            + (u32::from(self.hartsello % 1024) << 16)
            + u32::from(self.dmactive)
    }
}
