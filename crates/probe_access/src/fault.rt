ghost use Rattle.std.specs.Prelude.{◌≡◌};
ghost use Rattle.probe_access.specs.declared.fault.AccessFault.TheVariants as access_fault;
ghost use Rattle.probe_access.specs.StepRuns.{of_run};

use crate::odd::OddStatus;
use debug_model::DmiFault;
use probe_run::RunFault;
use thiserror::Error;

/// Why an access to a register or to memory has no result.
#[derive(Clone, Copy, Debug, PartialEq, Eq, Error)]
pub enum AccessFault {
    /// An operation failed.
    #[error("{0}")]
    Dmi(DmiFault),
    /// A byte of the access at this address lies outside memory.
    #[error("memory fault at {0:#018x}")]
    Memory(u64),
    /// There is no register of this number, or it is written and read-only.
    #[error("no access to register {0:#06x}")]
    Register(u16),
    /// The command or the bus was still busy at the 64th poll.
    #[error("still busy")]
    StillBusy,
    /// The single step failed.
    #[error("{0}")]
    Run(RunFault),
    /// `abstractcs` or `sbcs`, as kept, shows an error that no other case names.
    #[error("unexpected error in {0}")]
    Odd(OddStatus),
}

impl From<DmiFault> for AccessFault {
    ghost from_gives = { λ d e. e ≡ access_fault.Dmi d };

    fn from(fault: DmiFault) -> AccessFault {
        AccessFault::Dmi(fault)
    }
}

impl From<RunFault> for AccessFault {
    ghost from_gives = { λ r e. e ≡ of_run r };

    fn from(fault: RunFault) -> AccessFault {
        match fault {
            RunFault::Dmi(why) => AccessFault::Dmi(why),
            _ => AccessFault::Run(fault),
        }
    }
}
