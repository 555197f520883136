ghost use Rattle.std.specs.Prelude.{◌≡◌};
ghost use Rattle.probe_session.specs.Failures.{odd_word};

use probe_access::OddStatus;

/// An answer of the chip that no other case names.
#[derive(Clone, Copy, Debug, PartialEq, Eq)]
pub enum Odd {
    /// A register that shows an error, as it was read.
    Status(OddStatus),
    /// The number of a register that each hart has, and that was refused.
    Register(u16),
    /// A refusal where a command asks for nothing that can be refused: of memory, or of a slot.
    Refusal,
}

impl Odd {
    /// The register as it was read, or the number; 0 for a refusal.
    pub fn word(self) -> u32
        ensures { result ≡ odd_word self }
    {
        match self {
            Odd::Status(OddStatus::Abstractcs(word)) => word,
            Odd::Status(OddStatus::Sbcs(word)) => word,
            Odd::Register(number) => u32::from(number),
            Odd::Refusal => 0,
        }
    }
}
