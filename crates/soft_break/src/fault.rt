ghost use Rattle.std.specs.Prelude.{◌≡◌};
ghost use Rattle.soft_break.specs.declared.fault.SoftFault.TheVariants as soft_fault;

use probe_access::AccessFault;
use thiserror::Error;

/// Why a software breakpoint is not set, or not taken out.
#[derive(Clone, Copy, Debug, PartialEq, Eq, Error)]
pub enum SoftFault {
    /// An access to memory failed.
    #[error("{0}")]
    Access(AccessFault),
    /// 32 breakpoints are set.
    #[error("no free soft break")]
    Full,
    /// One is set at this address.
    #[error("a soft break is set there")]
    Set,
    /// None is set at this address.
    #[error("no soft break is set there")]
    NotSet,
}

impl From<AccessFault> for SoftFault {
    ghost from_gives = { λ a e. e ≡ soft_fault.Access a };

    fn from(fault: AccessFault) -> SoftFault {
        SoftFault::Access(fault)
    }
}
