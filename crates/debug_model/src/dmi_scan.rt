ghost use Rattle.std.specs.Prelude.{◌≡◌};
ghost use Rattle.debug_model.specs.TransportWords.{dmi_of, dmi_word};

/// What one scan of `dmi` carries (RISC-V Debug Specification 1.0, "Debug Module Interface Access"). A field is cut to its width.
#[derive(Clone, Copy, Debug, Default, PartialEq, Eq)]
pub struct DmiScan {
    /// Bits 40 to 34: the address of a register of the debug module.
    pub address: u8,
    /// Bits 33 to 2: the word to be written, or that was read.
    pub value: u32,
    /// Bits 1 and 0: shifted in, what to do; captured, how the last operation ended.
    pub op: u8,
}

impl DmiScan {
    /// The fields of a word of 41 bits; higher bits are left out.
    pub fn from_bits(bits: u64) -> Self
        ensures { result ≡ dmi_of bits }
    {
        DmiScan {
            address: (bits >> 34 & 0x7f) as u8,
            value: (bits >> 2 & 0xffff_ffff) as u32,
            op: (bits & 0x3) as u8,
        }
    }

    /// The word of 41 bits with these fields.
    pub fn bits(self) -> u64
        ensures { result ≡ dmi_word self }
    {
        (u64::from(self.address % 128) << 34)
            + (u64::from(self.value) << 2)
            + u64::from(self.op % 4)
    }
}
