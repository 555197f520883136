//! Accesses to many elements in a row by the system bus: no hart takes part, and none need be halted.

ghost use Rattle.std.specs.Prelude.{◌≡◌, ◌⊎◌, ◌≤◌, ◌+◌, ◌*◌, ◌++◌, [], true, length, IfErr, OnOk};
ghost use Rattle.rv_model.specs.Memory.{is_aligned};
ghost use Rattle.rv_model.specs.Size.{count_of};
ghost use Rattle.debug_model.specs.Rises.{Within};
ghost use Rattle.probe_access.specs.Never.{NeverLost};
ghost use Rattle.debug_model.specs.Command.{most_elements, all_addresses};
ghost use Rattle.debug_model.specs.Told.{IsReady};
ghost use Rattle.probe_access.specs.Accesses.{IfMemory};
ghost use Rattle.probe_access.specs.BlockRises.{bus_load_rises, bus_store_rises, bus_values_rises};
ghost use Rattle.probe_access.specs.BusBlocks.{BusBlockLoadCut, BusBlockLoadLeft, BusBlockLoadedAt, BusBlockStoreCut, BusBlockStoreLeft, BusBlockStoredAt};
ghost use Rattle.probe_access.specs.BusBlocks.{BusValuesStoreCut, BusValuesStoreLeft, BusValuesStoredAt};
ghost use Rattle.probe_access.specs.BusStoreStreams.{data_words};
ghost use Rattle.probe_access.specs.BusBlockRuns.{BusCauses, BusLoads, BusLoadsRefused, BusStores, BusStoresRefused, BusValueStores};
ghost use Rattle.probe_access.specs.BusBlockRuns.{BusValueStoresRefused};
ghost use Rattle.probe_access.specs.Cuts.{IfCut, Leaves};
ghost use Rattle.debug_model.specs.Addresses.{sbcs_address};
ghost use Rattle.probe_access.specs.BusStreams.{element_words};
ghost use Rattle.probe_access.specs.Spent.{DidAtMost, IfUnbroken};
ghost use Rattle.debug_model.specs.Kept.{CanCall, Keeps};
ghost use Rattle.probe_run.specs.Told.{Fails, OnChip, told};
ghost use Rattle.probe_access.specs.Faults.{access_why};

use crate::blocks::ELEMENTS_MOST;
use crate::bus_load_awaits::load_awaited;
use crate::bus_runs::{element, load_run};
use crate::bus_store_awaits::store_awaited;
use crate::bus_store_runs::store_run;
use crate::fault::AccessFault;
use arrayvec::ArrayVec;
use debug_model::Dmi;
use rv_model::Size;

/// How many elements of 8 bytes a block may have that is read in one run. Each of them takes two words, so a longer one has two runs.
const ONE_RUN_MOST: u16 = 10;

/// How many elements the first run has. Where it goes too early, and where one behind it does, what that wastes and what the rest then take is no more than
/// `few` of a block allows.
fn first_run(size: Size, count: u16) -> u16
    requires some { 1 ≤ count }
    requires room { count ≤ most_elements }
    ensures some { 1 ≤ result }
    ensures within { result ≤ count }
    ensures few { element_words size * result ≤ count + 10 }
    ensures half { (result ≡ count) ⊎ (count ≤ 2 * result) }
{
    match size {
        Size::B1 | Size::B2 | Size::B4 => count,
        Size::B8 => {
            if count <= ONE_RUN_MOST {
                return count;
            }
            count / 2 + 1
        }
    }
}

/// Puts values behind others, where there is room.
fn append(values: &[u64], into: &mut ArrayVec<u64, ELEMENTS_MOST>)
    ensures { length into.old.items + length values.now ≤ most_elements → into.new.items ≡ into.old.items ++ values.now }
{
    let _room = into.try_extend_from_slice(values);
}

/// Loads elements in one run or two, or up to the first that was read too early. `Memory` where memory refused one. Behind another fault `into` holds those of the
/// runs in front.
fn load_runs<D: Dmi>(
    link: &mut D,
    size: Size,
    address: u64,
    count: u16,
    into: &mut ArrayVec<u64, ELEMENTS_MOST>,
) -> Result<(), AccessFault>
    requires callable { CanCall (D.seen link.old) }
    requires ready { IsReady (D.seen link.old).far }
    requires aligned { is_aligned address size ≡ true }
    requires some { 1 ≤ count }
    requires room { count ≤ most_elements }
    requires ends { address + count * count_of size ≤ all_addresses }
    requires empty { into.old.items ≡ [] }
    ensures most { OnOk result (length into.new.items ≤ count) }
    ensures loaded { OnOk result (OnChip (BusBlockLoadedAt size address into.new.items) (D.seen link.old) (D.seen link.new)) }
    ensures loads { OnOk result (BusLoads size address (told (D.seen link.old)) into.new.items (told (D.seen link.new))) }
    ensures refused { IfErr result (IfMemory (BusLoadsRefused size address into.new.items (told (D.seen link.old)) (told (D.seen link.new)))) }
    ensures few { OnOk result (DidAtMost sbcs_address (count + 19 + 2 * length into.new.items) (told (D.seen link.old)) (told (D.seen link.new))) }
    ensures few_failed { IfErr result (IfUnbroken (DidAtMost sbcs_address (3 * count + 24) (told (D.seen link.old)) (told (D.seen link.new)))) }
    ensures left { IfErr result (BusBlockLoadLeft size address count into.new.items (D.seen link.old).far (D.seen link.new).far) }
    ensures causes { IfErr result (Fails BusCauses (D.seen link.old) (D.seen link.new)) }
    ensures cut { IfErr result (IfCut (Leaves (BusBlockLoadCut size address count into.new.items) (D.seen link.old).far (D.seen link.new).far)) }
    ensures ready { OnOk result (IsReady (D.seen link.new).far) }
    ensures ready_again { IfErr result (IfMemory (IsReady (D.seen link.new).far)) }
    ensures rises { Within (2 * count + 22) (D.seen link.old) (D.seen link.new) }
    ensures never { IfErr result (NeverLost (D.seen link.old)) }
    ensures keeps { Keeps access_why (D.seen link.old) (D.seen link.new) result }
{
    let first = first_run(size, count);
    load_run(link, size, address, first, into)?;
    let done = into.len() as u16;
    if done < first || first == count {
        return Ok(());
    }
    let mut part = ArrayVec::new();
    let at = element(size, address, done, count);
    match load_run(link, size, at, count - done, &mut part) {
        Ok(()) => {
            append(&part, into);
            Ok(())
        }
        Err(fault) => {
            append(&part, into);
            Err(fault)
        }
    }
}

/// Loads so many elements of 1, 2, 4 or 8 bytes, upwards from an address, by the system bus: one access for each, in order, up to and with the
/// first that lies outside memory. Behind `Memory` of an element `into` holds those in front of it; behind a fault of the link it holds a front of
/// those that were loaded. Each read of the data starts the next access; where one came too early, each of the rest is awaited
/// (RISC-V Debug Specification 1.0, "System Bus Access").
pub fn bus_load_block<D: Dmi>(
    link: &mut D,
    size: Size,
    address: u64,
    count: u16,
    into: &mut ArrayVec<u64, ELEMENTS_MOST>,
) -> Result<(), AccessFault>
    requires callable { CanCall (D.seen link.old) }
    requires ready { IsReady (D.seen link.old).far }
    requires aligned { is_aligned address size ≡ true }
    requires some { 1 ≤ count }
    requires room { count ≤ most_elements }
    requires ends { address + count * count_of size ≤ all_addresses }
    requires empty { into.old.items ≡ [] }
    ensures all { OnOk result (length into.new.items ≡ count) }
    ensures loaded { OnOk result (OnChip (BusBlockLoadedAt size address into.new.items) (D.seen link.old) (D.seen link.new)) }
    ensures loads { OnOk result (BusLoads size address (told (D.seen link.old)) into.new.items (told (D.seen link.new))) }
    ensures refused { IfErr result (IfMemory (BusLoadsRefused size address into.new.items (told (D.seen link.old)) (told (D.seen link.new)))) }
    ensures few { OnOk result (DidAtMost sbcs_address (3 * count + 24) (told (D.seen link.old)) (told (D.seen link.new))) }
    ensures few_failed { IfErr result (IfUnbroken (DidAtMost sbcs_address (3 * count + 24) (told (D.seen link.old)) (told (D.seen link.new)))) }
    ensures left { IfErr result (BusBlockLoadLeft size address count into.new.items (D.seen link.old).far (D.seen link.new).far) }
    ensures causes { IfErr result (Fails BusCauses (D.seen link.old) (D.seen link.new)) }
    ensures cut { IfErr result (IfCut (Leaves (BusBlockLoadCut size address count into.new.items) (D.seen link.old).far (D.seen link.new).far)) }
    ensures ready { OnOk result (IsReady (D.seen link.new).far) }
    ensures ready_again { IfErr result (IfMemory (IsReady (D.seen link.new).far)) }
    ensures rises { Within (bus_load_rises count) (D.seen link.old) (D.seen link.new) }
    ensures never { IfErr result (NeverLost (D.seen link.old)) }
    ensures keeps { Keeps access_why (D.seen link.old) (D.seen link.new) result }
{
    load_runs(link, size, address, count, into)?;
    if into.len() as u16 == count {
        return Ok(());
    }
    load_awaited(link, size, address, count, into)?;
    Ok(())
}

/// Stores the lowest 1, 2, 4 or 8 bytes of each of these values, upwards from an address, by the system bus: one access for each, in order, up to and
/// with the first that lies outside memory. Behind `Memory` of an element those in front of it are stored. Each value takes one word of the data, and
/// one more where its upper half is another than that of the one before. The lower half starts the next access; where one came too early, each of the
/// rest is awaited (RISC-V Debug Specification 1.0, "System Bus Access").
pub fn bus_store_values<D: Dmi>(
    link: &mut D,
    size: Size,
    address: u64,
    values: &[u64],
) -> Result<(), AccessFault>
    requires callable { CanCall (D.seen link.old) }
    requires ready { IsReady (D.seen link.old).far }
    requires aligned { is_aligned address size ≡ true }
    requires some { 1 ≤ length values.now }
    requires room { length values.now ≤ most_elements }
    requires ends { address + length values.now * count_of size ≤ all_addresses }
    ensures stored { OnOk result (OnChip (BusValuesStoredAt size address values.now (length values.now)) (D.seen link.old) (D.seen link.new)) }
    ensures stores { OnOk result (BusValueStores size address values.now (told (D.seen link.old)) (length values.now) (told (D.seen link.new))) }
    ensures refused { IfErr result
        (IfMemory (BusValueStoresRefused size address values.now (length values.now) (told (D.seen link.old)) (told (D.seen link.new)))) }
    ensures few { OnOk result (DidAtMost sbcs_address (2 * data_words values.now + 14) (told (D.seen link.old)) (told (D.seen link.new))) }
    ensures few_failed { IfErr result
        (IfUnbroken (DidAtMost sbcs_address (2 * data_words values.now + 14) (told (D.seen link.old)) (told (D.seen link.new)))) }
    ensures left { IfErr result (BusValuesStoreLeft size address values.now (length values.now) (D.seen link.old).far (D.seen link.new).far) }
    ensures causes { IfErr result (Fails BusCauses (D.seen link.old) (D.seen link.new)) }
    ensures cut { IfErr result
        (IfCut (Leaves (BusValuesStoreCut size address values.now (length values.now)) (D.seen link.old).far (D.seen link.new).far)) }
    ensures ready { OnOk result (IsReady (D.seen link.new).far) }
    ensures ready_again { IfErr result (IfMemory (IsReady (D.seen link.new).far)) }
    ensures rises { Within (bus_values_rises values.now) (D.seen link.old) (D.seen link.new) }
    ensures never { IfErr result (NeverLost (D.seen link.old)) }
    ensures keeps { Keeps access_why (D.seen link.old) (D.seen link.new) result }
{
    let done = store_run(link, size, address, values)?;
    if done as usize == values.len() {
        return Ok(());
    }
    store_awaited(link, size, address, done, values)?;
    Ok(())
}

/// Stores the lowest 1, 2, 4 or 8 bytes of a value so many times, upwards from an address, by the system bus: one access for each, in order, up to
/// and with the first that lies outside memory. Behind `Memory` of an element those in front of it are stored. Each write of the data starts the next
/// access; where one came too early, each of the rest is awaited (RISC-V Debug Specification 1.0, "System Bus Access").
pub fn bus_store_block<D: Dmi>(
    link: &mut D,
    size: Size,
    address: u64,
    count: u16,
    value: u64,
) -> Result<(), AccessFault>
    requires callable { CanCall (D.seen link.old) }
    requires ready { IsReady (D.seen link.old).far }
    requires aligned { is_aligned address size ≡ true }
    requires some { 1 ≤ count }
    requires room { count ≤ most_elements }
    requires ends { address + count * count_of size ≤ all_addresses }
    ensures stored { OnOk result (OnChip (BusBlockStoredAt size address value count) (D.seen link.old) (D.seen link.new)) }
    ensures stores { OnOk result (BusStores size address value (told (D.seen link.old)) count (told (D.seen link.new))) }
    ensures refused { IfErr result (IfMemory (BusStoresRefused size address value count (told (D.seen link.old)) (told (D.seen link.new)))) }
    ensures few { OnOk result (DidAtMost sbcs_address (3 * count + 24) (told (D.seen link.old)) (told (D.seen link.new))) }
    ensures few_failed { IfErr result (IfUnbroken (DidAtMost sbcs_address (3 * count + 24) (told (D.seen link.old)) (told (D.seen link.new)))) }
    ensures left { IfErr result (BusBlockStoreLeft size address count value (D.seen link.old).far (D.seen link.new).far) }
    ensures causes { IfErr result (Fails BusCauses (D.seen link.old) (D.seen link.new)) }
    ensures cut { IfErr result (IfCut (Leaves (BusBlockStoreCut size address value count) (D.seen link.old).far (D.seen link.new).far)) }
    ensures ready { OnOk result (IsReady (D.seen link.new).far) }
    ensures ready_again { IfErr result (IfMemory (IsReady (D.seen link.new).far)) }
    ensures rises { Within (bus_store_rises count) (D.seen link.old) (D.seen link.new) }
    ensures never { IfErr result (NeverLost (D.seen link.old)) }
    ensures keeps { Keeps access_why (D.seen link.old) (D.seen link.new) result }
{
    let values = [value; ELEMENTS_MOST];
    bus_store_values(link, size, address, &values[..count as usize])?;
    Ok(())
}
