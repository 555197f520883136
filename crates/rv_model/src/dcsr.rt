ghost use Rattle.std.specs.Prelude.{◌≡◌, ◌<◌};
ghost use Rattle.rv_model.specs.Dcsr.{dcsr_word, dcsr_of_word};

use crate::bits::{bit, bit_value, field};

const EBREAKM: u32 = 15;

const STEPIE: u32 = 11;

const CAUSE_LOW: u32 = 6;

const CAUSE_BITS: u32 = 3;

const STEP: u32 = 2;
/// `debugver` 4 and `prv` 3.
const FIXED: u64 = 0x4000_0003;

/// The fields of `dcsr` that change (RISC-V Debug Specification 1.0, "Debug Control and Status").
#[derive(Clone, Copy, Debug, PartialEq, Eq)]
pub struct Dcsr {
    /// An `ebreak` in Machine Mode enters Debug Mode.
    pub ebreakm: bool,
    /// Interrupts are on in a single step.
    pub stepie: bool,
    /// Why the hart halted, from 0 to 7.
    pub cause: u8,
    /// A resumed hart executes one instruction and halts.
    pub step: bool,
}

impl Dcsr {
    /// The register's word, with `debugver` 4 and `prv` 3. The cause is below 8.
    #[tactic(auto, unfolding(crate::specs::Dcsr::dcsr_word))]
    pub fn word(self) -> u64
        requires { self.cause < 8 }
        ensures { result ≡ dcsr_word self }
    {
        FIXED
            + bit_value(self.ebreakm, EBREAKM)
            + bit_value(self.stepie, STEPIE)
            + (u64::from(self.cause) << CAUSE_LOW)
            + bit_value(self.step, STEP)
    }

    /// The fields of a word.
    #[tactic(auto, unfolding(crate::specs::Dcsr::dcsr_of_word))]
    pub fn from_word(word: u64) -> Self
        ensures is { result ≡ dcsr_of_word word }
        ensures fits { result.cause < 8 }
    {
        Dcsr {
            ebreakm: bit(word, EBREAKM),
            stepie: bit(word, STEPIE),
            cause: field(word, CAUSE_LOW, CAUSE_BITS) as u8,
            step: bit(word, STEP),
        }
    }
}
