//! Accesses to memory by the system bus: no hart takes part, and none need be halted.

ghost use Rattle.std.specs.Prelude.{◌≡◌, ◌≤◌, true, IfOk, IfErr, OnOk};
ghost use Rattle.rv_model.specs.Memory.{is_aligned};
ghost use Rattle.debug_model.specs.Told.{IsReady};
ghost use Rattle.probe_access.specs.Accesses.{AccessLeft, BusLoadRefused, BusLoadedAt, BusStoreRefused, BusStoredAt, IfMemory};
ghost use Rattle.probe_access.specs.BusRuns.{BusLoadFailed, BusLoaded, BusStoreFailed, BusStored};
ghost use Rattle.probe_access.specs.Cuts.{BusLeftOff, IfCut, Leaves, LoadLeaves, StoreLeaves};
ghost use Rattle.debug_model.specs.Rises.{Within};
ghost use Rattle.probe_access.specs.Never.{NeverLost};
ghost use Rattle.debug_model.specs.Kept.{CanCall, Keeps};
ghost use Rattle.probe_run.specs.Told.{Fails, OnChip, told};
ghost use Rattle.probe_access.specs.Faults.{access_why};

use crate::bus_parts::{fetch, finish, start_read, start_write};
use crate::fault::AccessFault;
use debug_model::Dmi;
use rv_model::Size;

/// Loads 1, 2, 4 or 8 bytes of memory by the system bus, the upper bits 0: one access. `Memory` where a byte lies outside memory
/// (RISC-V Debug Specification 1.0, "System Bus Access").
#[tactic(auto, using(debug_model::proofs::RiseLemmas::within_then, debug_model::proofs::RiseLemmas::within_more))]
pub fn bus_load<D: Dmi>(link: &mut D, size: Size, address: u64) -> Result<u64, AccessFault>
    requires callable { CanCall (D.seen link.old) }
    requires ready { IsReady (D.seen link.old).far }
    requires aligned { is_aligned address size ≡ true }
    ensures loaded { IfOk result (λ value. OnChip (BusLoadedAt size address value) (D.seen link.old) (D.seen link.new)) }
    ensures ran { IfOk result (λ value. BusLoaded size address value (told (D.seen link.old)) (told (D.seen link.new))) }
    ensures left { IfErr result (AccessLeft (BusLoadRefused size address) address (D.seen link.old).far (D.seen link.new).far) }
    ensures failed { IfErr result (Fails (BusLoadFailed size address) (D.seen link.old) (D.seen link.new)) }
    ensures cut { IfErr result (IfCut (Leaves (BusLeftOff LoadLeaves) (D.seen link.old).far (D.seen link.new).far)) }
    ensures ready { OnOk result (IsReady (D.seen link.new).far) }
    ensures ready_again { IfErr result (IfMemory (IsReady (D.seen link.new).far)) }
    ensures rises { Within 7 (D.seen link.old) (D.seen link.new) }
    ensures never { IfErr result (NeverLost (D.seen link.old)) }
    ensures keeps { Keeps access_why (D.seen link.old) (D.seen link.new) result }
{
    start_read(link, size, address)?;
    finish(link, address)?;
    let value = fetch(link, size)?;
    Ok(value)
}

/// Stores the lowest 1, 2, 4 or 8 bytes of a value by the system bus: one access. `Memory` where a byte lies outside memory
/// (RISC-V Debug Specification 1.0, "System Bus Access").
#[tactic(auto, using(debug_model::proofs::RiseLemmas::within_then, debug_model::proofs::RiseLemmas::within_more))]
pub fn bus_store<D: Dmi>(
    link: &mut D,
    size: Size,
    address: u64,
    value: u64,
) -> Result<(), AccessFault>
    requires callable { CanCall (D.seen link.old) }
    requires ready { IsReady (D.seen link.old).far }
    requires aligned { is_aligned address size ≡ true }
    ensures stored { OnOk result (OnChip (BusStoredAt size address value) (D.seen link.old) (D.seen link.new)) }
    ensures ran { OnOk result (BusStored size address value (told (D.seen link.old)) (told (D.seen link.new))) }
    ensures left { IfErr result (AccessLeft (BusStoreRefused size address) address (D.seen link.old).far (D.seen link.new).far) }
    ensures failed { IfErr result (Fails (BusStoreFailed size address value) (D.seen link.old) (D.seen link.new)) }
    ensures cut { IfErr result (IfCut (Leaves (BusLeftOff (StoreLeaves size address value)) (D.seen link.old).far (D.seen link.new).far)) }
    ensures ready { OnOk result (IsReady (D.seen link.new).far) }
    ensures ready_again { IfErr result (IfMemory (IsReady (D.seen link.new).far)) }
    ensures rises { Within 7 (D.seen link.old) (D.seen link.new) }
    ensures never { IfErr result (NeverLost (D.seen link.old)) }
    ensures keeps { Keeps access_why (D.seen link.old) (D.seen link.new) result }
{
    start_write(link, size, address, value)?;
    finish(link, address)?;
    Ok(())
}
