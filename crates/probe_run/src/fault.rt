ghost use Rattle.std.specs.Prelude.{◌≡◌};
ghost use Rattle.probe_run.specs.declared.fault.ConnectFault.TheVariants as connect_fault;
ghost use Rattle.probe_run.specs.declared.fault.RunFault.TheVariants as run_fault;

use debug_model::DmiFault;
use thiserror::Error;

/// Why a chip could not be opened. A register is kept as it was read.
#[derive(Clone, Copy, Debug, PartialEq, Eq, Error)]
pub enum ConnectFault {
    /// `dtmcs`: its version is not 1, or an address has not 7 to 30 bits.
    #[error("transport: dtmcs {0:#010x}")]
    Dtm(u32),
    /// With true `dmcontrol`, whose dmactive did not become 1; with false `dmstatus`, which is not authenticated or not of version 3.
    #[error("debug module: register {0:#010x}")]
    Module(u32, bool),
    /// `abstractcs`: fewer than four words of program buffer or than two of data, or a command under way.
    #[error("abstract commands: abstractcs {0:#010x}")]
    Abstract(u32),
    /// `sbcs`: not version 1, not 64 bits of address, or no accesses of 1, 2, 4 and 8 bytes.
    #[error("system bus: sbcs {0:#010x}")]
    Bus(u32),
    /// An operation failed.
    #[error("{0}")]
    Dmi(DmiFault),
}

impl From<DmiFault> for ConnectFault {
    ghost from_gives = { λ d e. e ≡ connect_fault.Dmi d };

    fn from(fault: DmiFault) -> ConnectFault {
        ConnectFault::Dmi(fault)
    }
}

/// Why a call of run control has no result.
#[derive(Clone, Copy, Debug, PartialEq, Eq, Error)]
pub enum RunFault {
    /// An operation failed.
    #[error("{0}")]
    Dmi(DmiFault),
    /// So many Looks did not see the hart halted.
    #[error("no halt after {0} looks")]
    NoHalt(u32),
    /// So many Looks did not see the resume acknowledged.
    #[error("no resume ack after {0} looks")]
    NoAck(u32),
}

impl From<DmiFault> for RunFault {
    ghost from_gives = { λ d e. e ≡ run_fault.Dmi d };

    fn from(fault: DmiFault) -> RunFault {
        RunFault::Dmi(fault)
    }
}
