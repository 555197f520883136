ghost use Rattle.std.specs.Prelude.{◌≡◌, ◌<◌, ◌^◌};

use rv_model::Version;

/// A hart that was seen halted. It is consumed by the call that lets the hart go, and cannot be copied.
#[derive(Debug, Drop)]
pub struct Halted {
    pub(crate) number: u16,
    pub(crate) version: Version,
    ghost within: { number < 2 ^ 10 },
}

impl Halted {
    /// The hart's number, at most 1023.
    pub fn hart(&self) -> u16
        ensures { result ≡ self.now.number }
    {
        self.number
    }

    /// The release of the debug specification that its chip follows, as the opening read it in `dmstatus`.
    pub fn version(&self) -> Version
        ensures { result ≡ self.now.version }
    {
        self.version
    }
}

/// A hart that was seen running. It is consumed by the call that halts the hart, and cannot be copied.
#[derive(Debug, Drop)]
pub struct Running {
    pub(crate) number: u16,
    pub(crate) version: Version,
    ghost within: { number < 2 ^ 10 },
}

impl Running {
    /// The hart's number, at most 1023.
    pub fn hart(&self) -> u16
        ensures { result ≡ self.now.number }
    {
        self.number
    }

    /// The release of the debug specification that its chip follows, as the opening read it in `dmstatus`.
    pub fn version(&self) -> Version
        ensures { result ≡ self.now.version }
    {
        self.version
    }
}

/// What a Look of a hart saw.
#[derive(Debug, Drop)]
pub enum Seen {
    /// It is halted.
    Halted(Halted),
    /// It runs.
    Running(Running),
    /// There is no such hart.
    Absent,
}
