ghost use Rattle.std.specs.Prelude.{◌≡◌};
ghost use Rattle.probe_access.specs.StepRuns.{of_run};
ghost use Rattle.probe_trig.specs.declared.fault.TrigFault.TheVariants as trig_fault;

use probe_access::AccessFault;
use probe_run::RunFault;
use thiserror::Error;

/// Why a call on a hart's slots has no result.
#[derive(Clone, Copy, Debug, PartialEq, Eq, Error)]
pub enum TrigFault {
    /// An access failed, or the run control of a step.
    #[error("{0}")]
    Access(AccessFault),
    /// All four slots are in use.
    #[error("no free slot")]
    NoFreeSlot,
    /// The slot is free.
    #[error("slot not in use")]
    NotInUse,
}

impl From<AccessFault> for TrigFault {
    ghost from_gives = { λ f e. e ≡ trig_fault.Access f };

    fn from(fault: AccessFault) -> TrigFault {
        TrigFault::Access(fault)
    }
}

impl From<RunFault> for TrigFault {
    ghost from_gives = { λ f e. e ≡ trig_fault.Access (of_run f) };

    fn from(fault: RunFault) -> TrigFault {
        TrigFault::Access(AccessFault::from(fault))
    }
}
