ghost use Rattle.std.specs.Prelude.{◌≡◌};
ghost use Rattle.debug_model.specs.ModuleWords.{sberror_cleared, sberror_number};

/// The error of system bus accesses, as far as this chip has one (RISC-V Debug Specification 1.0, "System Bus Access Control and Status", the field `sberror`).
#[derive(Clone, Copy, Debug, PartialEq, Eq)]
pub enum Sberror {
    /// 0: no error.
    Fine,
    /// 1: left where bit 1 of an error of alignment is cleared; no access of this chip times out.
    Timeout,
    /// 2: a byte of the access lies outside memory.
    Address,
    /// 3: the address is no multiple of the size.
    Alignment,
    /// 4: no access has that size.
    Size,
}

impl Sberror {
    /// The number that `sbcs` shows, from 0 to 4.
    pub fn number(self) -> u8
        ensures { result ≡ sberror_number self }
    {
        match self {
            Sberror::Fine => 0,
            Sberror::Timeout => 1,
            Sberror::Address => 2,
            Sberror::Alignment => 3,
            Sberror::Size => 4,
        }
    }

    /// The error without the bits of its number that are 1 in `written`.
    pub fn cleared(self, written: u8) -> Self
        ensures { result ≡ sberror_cleared written self }
    {
        let clears_0 = written & 1 == 1;
        let clears_1 = written >> 1 & 1 == 1;
        let clears_2 = written >> 2 & 1 == 1;
        match self {
            Sberror::Timeout if clears_0 => Sberror::Fine,
            Sberror::Address if clears_1 => Sberror::Fine,
            Sberror::Alignment => match (clears_1, clears_0) {
                (true, true) => Sberror::Fine,
                (true, false) => Sberror::Timeout,
                (false, true) => Sberror::Address,
                (false, false) => Sberror::Alignment,
            },
            Sberror::Size if clears_2 => Sberror::Fine,
            kept => kept,
        }
    }
}
