ghost use Rattle.std.specs.Prelude.{◌≡◌};
ghost use Rattle.debug_model.specs.ModuleWords.{command_of, command_word};

/// The register `command` (RISC-V Debug Specification 1.0, "Abstract Command" and "Access Register"). A field is cut to its width.
#[derive(Clone, Copy, Debug, Default, PartialEq, Eq)]
pub struct AbstractCommand {
    /// Bits 31 to 24: 0 is an access to a register.
    pub cmdtype: u8,
    /// Bits 22 to 20: 2 for 32 bits, 3 for 64 bits.
    pub aarsize: u8,
    /// Bit 19: `regno` grows by one afterwards.
    pub aarpostincrement: bool,
    /// Bit 18: the program buffer is executed afterwards.
    pub postexec: bool,
    /// Bit 17: the register is read or written.
    pub transfer: bool,
    /// Bit 16: it is written from the data words, and else read into them.
    pub write: bool,
    /// Bits 15 to 0: the number of the register.
    pub regno: u16,
}

impl AbstractCommand {
    /// Its address.
    pub const ADDRESS: u8 = 0x17;

    /// The fields of a word.
    pub fn from_word(word: u32) -> Self
        ensures { result ≡ command_of word }
    {
        AbstractCommand {
            cmdtype: (word >> 24 & 0xff) as u8,
            aarsize: (word >> 20 & 0x7) as u8,
            aarpostincrement: word >> 19 & 1 == 1,
            postexec: word >> 18 & 1 == 1,
            transfer: word >> 17 & 1 == 1,
            write: word >> 16 & 1 == 1,
            regno: (word & 0xffff) as u16,
        }
    }

    /// The word with these fields, and 0 in all others.
    pub fn word(self) -> u32
        ensures { result ≡ command_word self }
    {
        (u32::from(self.cmdtype) << 24)
            + (u32::from(self.aarsize % 8) << 20)
            + (u32::from(self.aarpostincrement) << 19)
            + (u32::from(self.postexec) << 18)
            + (u32::from(self.transfer) << 17)
            + (u32::from(self.write) << 16)
            + u32::from(self.regno)
    }
}
