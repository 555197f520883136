ghost use Rattle.std.specs.Prelude.{◌≡◌};
ghost use Rattle.rv_model.specs.Version.{version_number, version_of};

/// The release of the debug specification that a chip follows.
#[derive(Clone, Copy, Debug, PartialEq, Eq)]
pub enum Version {
    /// RISC-V External Debug Support 0.13.2: address triggers are of type 2, `mcontrol`.
    V013,
    /// RISC-V Debug Specification 1.0: they are of type 6, `mcontrol6`.
    V10,
}

impl Version {
    /// The number by which `dmstatus` names it, in its field `version`: 2 or 3.
    pub fn number(self) -> u8
        ensures { result ≡ version_number self }
    {
        match self {
            Version::V013 => 2,
            Version::V10 => 3,
        }
    }

    /// The release of a number, or `None` where it is none of the two.
    pub fn from_number(number: u8) -> Option<Self>
        ensures { result ≡ version_of number }
    {
        match number {
            2 => Some(Version::V013),
            3 => Some(Version::V10),
            _ => None,
        }
    }
}
