ghost use Rattle.std.specs.Prelude.{◌≡◌, ◌≤◌, ◌<◌, ◌^◌, IfErr, OnOk};
ghost use Rattle.probe_access.specs.MemoryRuns.{StoreFailedInside, StoredInside};
ghost use Rattle.debug_model.specs.Rises.{Within};
ghost use Rattle.probe_access.specs.Never.{NeverLost};
ghost use Rattle.debug_model.specs.Kept.{CanCall, Keeps};
ghost use Rattle.probe_run.specs.Told.{Fails, told};
ghost use Rattle.probe_access.specs.Faults.{access_why};

use crate::fault::AccessFault;
use crate::program::{X9, perform, store_of};
use crate::transfers::write_register;
use debug_model::Dmi;
use rv_model::Size;

/// Stores to memory by x8 and x9 of the selected hart, which it changes.
#[tactic(auto, using(debug_model::proofs::RiseLemmas::within_then, debug_model::proofs::RiseLemmas::within_more))]
pub fn store_inside<D: Dmi>(
    link: &mut D,
    size: Size,
    address: u64,
    value: u64,
) -> Result<(), AccessFault>
    requires callable { CanCall (D.seen link.old) }
    ensures stored { OnOk result (StoredInside size address value (told (D.seen link.old)) (told (D.seen link.new))) }
    ensures failed { IfErr result (Fails (StoreFailedInside size address value) (D.seen link.old) (D.seen link.new)) }
    ensures rises { Within 18 (D.seen link.old) (D.seen link.new) }
    ensures never { IfErr result (NeverLost (D.seen link.old)) }
    ensures keeps { Keeps access_why (D.seen link.old) (D.seen link.new) result }
{
    write_register(link, X9, value)?;
    perform(link, store_of(size), address)?;
    Ok(())
}
