use probe_access::AccessFault;
use probe_run::{ConnectFault, RunFault};
use probe_trig::TrigFault;

/// Why a call of the probe failed, or that a Look did not see the hart as it must be.
#[derive(Clone, Copy, Debug, PartialEq, Eq)]
pub enum Fault {
    /// The opening failed.
    Connect(ConnectFault),
    /// A call of run control failed.
    Run(RunFault),
    /// An access failed.
    Access(AccessFault),
    /// A call on slots failed.
    Trig(TrigFault),
    /// A Look did not see the hart as it must be.
    SeenOtherwise,
}

impl From<ConnectFault> for Fault {
    fn from(fault: ConnectFault) -> Self {
        Fault::Connect(fault)
    }
}

impl From<RunFault> for Fault {
    fn from(fault: RunFault) -> Self {
        Fault::Run(fault)
    }
}

impl From<AccessFault> for Fault {
    fn from(fault: AccessFault) -> Self {
        Fault::Access(fault)
    }
}

impl From<TrigFault> for Fault {
    fn from(fault: TrigFault) -> Self {
        Fault::Trig(fault)
    }
}
