ghost use Rattle.std.specs.Prelude.{◌≡◌};
ghost use Rattle.probe_session.specs.Failures.{failure_of_access, failure_of_dmi, failure_of_run, failure_of_trig};
ghost use Rattle.probe_session.specs.declared.fault.Failure.TheVariants as failure;

use crate::odd::Odd;
use debug_model::{DmiFault, WireFault};
use jt_base::SinkFault;
use probe_access::AccessFault;
use probe_run::RunFault;
use probe_trig::TrigFault;

/// Why a session was lost: the chip may have been left in the middle of a command.
#[derive(Clone, Copy, Debug, PartialEq, Eq)]
pub enum LostCause {
    /// The transport answered that an operation failed.
    DmiFailed,
    /// The transport, a command or the bus was still busy behind 64 answers.
    StillBusy,
    /// So many Looks did not see the hart halted.
    NoHalt(u32),
    /// So many Looks did not see a resume acknowledged.
    NoAck(u32),
    /// An answer that no case names.
    Odd(Odd),
}

/// Why a command did not come to its end.
#[derive(Clone, Copy, Debug, PartialEq, Eq)]
pub enum Failure {
    /// The wire failed.
    Wire(WireFault),
    /// The session is lost.
    Lost(LostCause),
    /// The sink failed.
    Sink,
}

impl From<DmiFault> for Failure {
    ghost from_gives = { λ fault e. e ≡ failure_of_dmi fault };

    fn from(fault: DmiFault) -> Failure {
        match fault {
            DmiFault::Wire(why) => Failure::Wire(why),
            DmiFault::Failed => Failure::Lost(LostCause::DmiFailed),
            DmiFault::StillBusy => Failure::Lost(LostCause::StillBusy),
        }
    }
}

impl From<RunFault> for Failure {
    ghost from_gives = { λ fault e. e ≡ failure_of_run fault };

    fn from(fault: RunFault) -> Failure {
        match fault {
            RunFault::Dmi(why) => Failure::from(why),
            RunFault::NoHalt(looks) => Failure::Lost(LostCause::NoHalt(looks)),
            RunFault::NoAck(looks) => Failure::Lost(LostCause::NoAck(looks)),
        }
    }
}

impl From<SinkFault> for Failure {
    ghost from_gives = { λ _ e. e ≡ failure.Sink };

    fn from(_: SinkFault) -> Failure {
        Failure::Sink
    }
}

impl From<AccessFault> for Failure {
    ghost from_gives = { λ fault e. e ≡ failure_of_access fault };

    fn from(fault: AccessFault) -> Failure {
        match fault {
            AccessFault::Dmi(why) => Failure::from(why),
            AccessFault::Memory(_) => Failure::Lost(LostCause::Odd(Odd::Refusal)),
            AccessFault::Register(number) => Failure::Lost(LostCause::Odd(Odd::Register(number))),
            AccessFault::StillBusy => Failure::Lost(LostCause::StillBusy),
            AccessFault::Run(why) => Failure::from(why),
            AccessFault::Odd(shown) => Failure::Lost(LostCause::Odd(Odd::Status(shown))),
        }
    }
}

impl From<TrigFault> for Failure {
    ghost from_gives = { λ fault e. e ≡ failure_of_trig fault };

    fn from(fault: TrigFault) -> Failure {
        match fault {
            TrigFault::Access(why) => Failure::from(why),
            TrigFault::NoFreeSlot => Failure::Lost(LostCause::Odd(Odd::Refusal)),
            TrigFault::NotInUse => Failure::Lost(LostCause::Odd(Odd::Refusal)),
        }
    }
}
