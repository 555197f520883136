ghost use Rattle.std.specs.Prelude.{◌≡◌};
ghost use Rattle.rv_model.specs.Cause.{cause_number};

/// Why a hart halted (RISC-V Debug Specification 1.0, "Debug Control and Status", the field `cause` of `dcsr`).
#[derive(Clone, Copy, Debug, PartialEq, Eq)]
pub enum Cause {
    /// An `ebreak` was to be executed while `ebreakm` was set.
    Ebreak,
    /// A trigger fired.
    Trigger,
    /// The debugger asked for it.
    HaltReq,
    /// One step was done.
    Step,
    /// The hart was halted from reset on.
    Reset,
}

impl Cause {
    /// The number that `dcsr` shows, from 1 to 5.
    pub fn number(self) -> u8
        ensures { result ≡ cause_number self }
    {
        match self {
            Cause::Ebreak => 1,
            Cause::Trigger => 2,
            Cause::HaltReq => 3,
            Cause::Step => 4,
            Cause::Reset => 5,
        }
    }
}
