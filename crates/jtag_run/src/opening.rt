//! The opening of a net.

ghost use Rattle.std.specs.Prelude.{◌≡◌};
ghost use Rattle.jtag_run.specs.Opening.{refusal_of};

use crate::refusal::Refusal;
use debug_model::NetFault;

/// Why a run is refused whose net could not be opened.
pub fn refusal_of(fault: NetFault) -> Refusal<'static>
    ensures { result ≡ refusal_of fault }
{
    match fault {
        NetFault::Failed => Refusal::Open,
        NetFault::NoMemory => Refusal::OutOfMemory,
    }
}
