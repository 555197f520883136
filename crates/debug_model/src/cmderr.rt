ghost use Rattle.std.specs.Prelude.{◌≡◌};
ghost use Rattle.debug_model.specs.ModuleWords.{cmderr_cleared, cmderr_number};

/// The error of abstract commands, as far as this chip has one (RISC-V Debug Specification 1.0, "Abstract Control and Status", the field `cmderr`).
#[derive(Clone, Copy, Debug, PartialEq, Eq)]
pub enum Cmderr {
    /// 0: no error.
    Fine,
    /// 1: a register was accessed while a command was under way.
    Busy,
    /// 2: the command is not supported.
    NotSupported,
    /// 3: the program buffer met an exception, or the register of a transfer is not there or not writable.
    Exception,
    /// 4: the selected hart is not halted.
    HaltResume,
}

impl Cmderr {
    /// The number that `abstractcs` shows, from 0 to 4.
    pub fn number(self) -> u8
        ensures { result ≡ cmderr_number self }
    {
        match self {
            Cmderr::Fine => 0,
            Cmderr::Busy => 1,
            Cmderr::NotSupported => 2,
            Cmderr::Exception => 3,
            Cmderr::HaltResume => 4,
        }
    }

    /// The error without the bits of its number that are 1 in `written`.
    pub fn cleared(self, written: u8) -> Self
        ensures { result ≡ cmderr_cleared written self }
    {
        let clears_0 = written & 1 == 1;
        let clears_1 = written >> 1 & 1 == 1;
        let clears_2 = written >> 2 & 1 == 1;
        match self {
            Cmderr::Busy if clears_0 => Cmderr::Fine,
            Cmderr::NotSupported if clears_1 => Cmderr::Fine,
            Cmderr::Exception => match (clears_1, clears_0) {
                (true, true) => Cmderr::Fine,
                (true, false) => Cmderr::Busy,
                (false, true) => Cmderr::NotSupported,
                (false, false) => Cmderr::Exception,
            },
            Cmderr::HaltResume if clears_2 => Cmderr::Fine,
            kept => kept,
        }
    }
}
