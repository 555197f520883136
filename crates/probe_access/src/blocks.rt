//! Accesses to many elements in a row.

ghost use Rattle.std.specs.Prelude.{◌≡◌, ◌≤◌, ◌<◌, ◌+◌, ◌*◌, [], true, length, IfErr, OnOk};
ghost use Rattle.rv_model.specs.Memory.{is_aligned};
ghost use Rattle.rv_model.specs.Size.{count_of};
ghost use Rattle.debug_model.specs.Rises.{Within};
ghost use Rattle.probe_access.specs.Never.{NeverLost};
ghost use Rattle.debug_model.specs.Command.{most_elements, all_addresses};
ghost use Rattle.probe_access.specs.Accesses.{IfMemory};
ghost use Rattle.probe_access.specs.BlockCuts.{BlockLoadCut, BlockStoreCut};
ghost use Rattle.probe_access.specs.BlockRises.{load_rises, store_rises};
ghost use Rattle.probe_access.specs.BlockRuns.{Causes, Fetched};
ghost use Rattle.probe_access.specs.Blocks.{BlockLoadLeft, BlockLoadedAt, BlockStoreLeft, BlockStoredAt, element_at};
ghost use Rattle.probe_access.specs.Cuts.{IfCut, Leaves};
ghost use Rattle.probe_access.specs.ElementRuns.{LoadRuns, LoadRunsFailed, LoadsFailed, LoadsInside, StoreRuns, StoreRunsFailed, StoresFailed, StoresOn};
ghost use Rattle.debug_model.specs.Kept.{CanCall, Keeps};
ghost use Rattle.probe_run.specs.Told.{Fails, OnChip, told};
ghost use Rattle.probe_access.specs.Faults.{access_why};
ghost use Rattle.probe_access.specs.ReadRuns.{is_wide};
ghost use Rattle.probe_run.specs.Told.{Serving};

use crate::elements::{hand_next, next_element};
use crate::fault::AccessFault;
use crate::load_runs::load_front;
use crate::program::X9;
use crate::runs::store_front;
use crate::scratch::save_scratch;
use crate::transfers::read_register;
use arrayvec::ArrayVec;
use debug_model::Dmi;
use probe_run::Halted;
use rv_model::Size;

/// How many elements a block has at most.
pub const ELEMENTS_MOST: usize = 512;

/// The address of an element of a block.
pub fn element(size: Size, address: u64, number: u16, count: u16) -> u64
    requires within { number < count }
    requires ends { address + count * count_of size ≤ all_addresses }
    ensures { result ≡ element_at size address number }
{
    address + u64::from(number) * u64::from(size.count())
}

/// Loads the elements of a block by x8 and x9 of the selected hart, which it changes.
fn load_elements<D: Dmi>(
    link: &mut D,
    size: Size,
    address: u64,
    count: u16,
    into: &mut ArrayVec<u64, ELEMENTS_MOST>,
) -> Result<(), AccessFault>
    requires callable { CanCall (D.seen link.old) }
    requires some { 1 ≤ count }
    requires room { count ≤ most_elements }
    requires ends { address + count * count_of size ≤ all_addresses }
    requires empty { into.old.items ≡ [] }
    ensures all { OnOk result (length into.new.items ≡ count) }
    ensures loaded { OnOk result (LoadsInside size address count into.new.items (told (D.seen link.old)) (told (D.seen link.new))) }
    ensures failed { IfErr result (Fails (LoadsFailed size address count into.new.items) (D.seen link.old) (D.seen link.new)) }
    ensures rises { Within (82 * count + 16) (D.seen link.old) (D.seen link.new) }
    ensures never { IfErr result (NeverLost (D.seen link.old)) }
    ensures keeps { Keeps access_why (D.seen link.old) (D.seen link.new) result }
{
    load_front(link, size, address, count, into)?;
    let first = into.len() as u16 + 1;
    'elements: for number in first..count {
        let at = element(size, address, number, count);
        let handed = hand_next(link)?;
        into.push(handed.value);
        if handed.refused {
            return Err(AccessFault::Memory(at));
        }
    }
    let last = read_register(link, X9)?;
    into.push(last);
    Ok(())
}

/// Stores a value to the elements of a block by x8 and x9 of the selected hart, which it changes.
fn store_elements<D: Dmi>(
    link: &mut D,
    size: Size,
    address: u64,
    count: u16,
    value: u64,
) -> Result<(), AccessFault>
    requires callable { CanCall (D.seen link.old) }
    requires some { 1 ≤ count }
    requires room { count ≤ most_elements }
    requires ends { address + count * count_of size ≤ all_addresses }
    ensures stored { OnOk result (StoresOn size address value count (told (D.seen link.old)) count (told (D.seen link.new))) }
    ensures failed { IfErr result (Fails (StoresFailed size address value count) (D.seen link.old) (D.seen link.new)) }
    ensures rises { Within (63 * count + 256) (D.seen link.old) (D.seen link.new) }
    ensures never { IfErr result (NeverLost (D.seen link.old)) }
    ensures keeps { Keeps access_why (D.seen link.old) (D.seen link.new) result }
{
    let done = store_front(link, size, address, count, value)?;
    'elements: for number in done..count {
        let at = element(size, address, number, count);
        next_element(link, at)?;
    }
    Ok(())
}

/// Loads the elements of a block by the selected hart, whose x8 and x9 are put back.
fn loads_around<D: Dmi>(
    link: &mut D,
    size: Size,
    address: u64,
    count: u16,
    into: &mut ArrayVec<u64, ELEMENTS_MOST>,
) -> Result<(), AccessFault>
    requires callable { CanCall (D.seen link.old) }
    requires some { 1 ≤ count }
    requires room { count ≤ most_elements }
    requires ends { address + count * count_of size ≤ all_addresses }
    requires empty { into.old.items ≡ [] }
    ensures all { OnOk result (length into.new.items ≡ count) }
    ensures loaded { OnOk result (LoadRuns size address count (told (D.seen link.old)) into.new.items (told (D.seen link.new))) }
    ensures failed { IfErr result (Fails (LoadRunsFailed size address count into.new.items) (D.seen link.old) (D.seen link.new)) }
    ensures rises { Within (load_rises count) (D.seen link.old) (D.seen link.new) }
    ensures never { IfErr result (NeverLost (D.seen link.old)) }
    ensures keeps { Keeps access_why (D.seen link.old) (D.seen link.new) result }
{
    let scratch = save_scratch(link)?;
    match load_elements(link, size, address, count, into) {
        Ok(()) => {
            scratch.put_back(link)?;
            Ok(())
        }
        Err(fault) => Err(scratch.give_up(link, fault)),
    }
}

/// Loads so many elements of 1, 2, 4 or 8 bytes, upwards from an address, by the halted hart, which is selected: one access for each, in order,
/// up to and with the first that lies outside memory. Behind `Memory` of an element `into` holds those in front of it.
pub fn load_block<D: Dmi>(
    link: &mut D,
    halted: &Halted,
    size: Size,
    address: u64,
    count: u16,
    into: &mut ArrayVec<u64, ELEMENTS_MOST>,
) -> Result<(), AccessFault>
    requires callable { CanCall (D.seen link.old) }
    requires serving { Serving halted.now.number (D.seen link.old).far }
    requires aligned { is_aligned address size ≡ true }
    requires some { 1 ≤ count }
    requires room { count ≤ most_elements }
    requires ends { address + count * count_of size ≤ all_addresses }
    requires empty { into.old.items ≡ [] }
    ensures all { OnOk result (length into.new.items ≡ count) }
    ensures loaded { OnOk result (OnChip (BlockLoadedAt size address into.new.items) (D.seen link.old) (D.seen link.new)) }
    ensures runs { OnOk result (LoadRuns size address count (told (D.seen link.old)) into.new.items (told (D.seen link.new))) }
    ensures failed { IfErr result (Fails (LoadRunsFailed size address count into.new.items) (D.seen link.old) (D.seen link.new)) }
    ensures fetched { OnOk result (Fetched (is_wide size) into.new.items (told (D.seen link.old)) (told (D.seen link.new))) }
    ensures fetched_before { IfErr result (IfMemory (Fetched (is_wide size) into.new.items (told (D.seen link.old)) (told (D.seen link.new)))) }
    ensures left { IfErr result (BlockLoadLeft size address count into.new.items (D.seen link.old).far (D.seen link.new).far) }
    ensures causes { IfErr result (Fails Causes (D.seen link.old) (D.seen link.new)) }
    ensures cut { IfErr result (IfCut (Leaves (BlockLoadCut size address count into.new.items halted.now.number) (D.seen link.old).far (D.seen link.new).far)) }
    ensures serving { OnOk result (Serving halted.now.number (D.seen link.new).far) }
    ensures serving_still { IfErr result (IfMemory (Serving halted.now.number (D.seen link.new).far)) }
    ensures rises { Within (load_rises count) (D.seen link.old) (D.seen link.new) }
    ensures never { IfErr result (NeverLost (D.seen link.old)) }
    ensures keeps { Keeps access_why (D.seen link.old) (D.seen link.new) result }
{
    let _halted = halted;
    loads_around(link, size, address, count, into)?;
    Ok(())
}

/// Stores a value to the elements of a block by the selected hart, whose x8 and x9 are put back.
fn stores_around<D: Dmi>(
    link: &mut D,
    size: Size,
    address: u64,
    count: u16,
    value: u64,
) -> Result<(), AccessFault>
    requires callable { CanCall (D.seen link.old) }
    requires some { 1 ≤ count }
    requires room { count ≤ most_elements }
    requires ends { address + count * count_of size ≤ all_addresses }
    ensures stored { OnOk result (StoreRuns size address value (told (D.seen link.old)) count (told (D.seen link.new))) }
    ensures failed { IfErr result (Fails (StoreRunsFailed size address value count) (D.seen link.old) (D.seen link.new)) }
    ensures rises { Within (store_rises count) (D.seen link.old) (D.seen link.new) }
    ensures never { IfErr result (NeverLost (D.seen link.old)) }
    ensures keeps { Keeps access_why (D.seen link.old) (D.seen link.new) result }
{
    let scratch = save_scratch(link)?;
    match store_elements(link, size, address, count, value) {
        Ok(()) => {
            scratch.put_back(link)?;
            Ok(())
        }
        Err(fault) => Err(scratch.give_up(link, fault)),
    }
}

/// Stores the lowest 1, 2, 4 or 8 bytes of a value so many times, upwards from an address, by the halted hart, which is selected: one access for
/// each, in order, up to and with the first that lies outside memory. Behind `Memory` of an element those in front of it are stored.
pub fn store_block<D: Dmi>(
    link: &mut D,
    halted: &Halted,
    size: Size,
    address: u64,
    count: u16,
    value: u64,
) -> Result<(), AccessFault>
    requires callable { CanCall (D.seen link.old) }
    requires serving { Serving halted.now.number (D.seen link.old).far }
    requires aligned { is_aligned address size ≡ true }
    requires some { 1 ≤ count }
    requires room { count ≤ most_elements }
    requires ends { address + count * count_of size ≤ all_addresses }
    ensures stored { OnOk result (OnChip (BlockStoredAt size address value count) (D.seen link.old) (D.seen link.new)) }
    ensures runs { OnOk result (StoreRuns size address value (told (D.seen link.old)) count (told (D.seen link.new))) }
    ensures failed { IfErr result (Fails (StoreRunsFailed size address value count) (D.seen link.old) (D.seen link.new)) }
    ensures left { IfErr result (BlockStoreLeft size address count value (D.seen link.old).far (D.seen link.new).far) }
    ensures causes { IfErr result (Fails Causes (D.seen link.old) (D.seen link.new)) }
    ensures cut { IfErr result (IfCut (Leaves (BlockStoreCut size address value count halted.now.number) (D.seen link.old).far (D.seen link.new).far)) }
    ensures serving { OnOk result (Serving halted.now.number (D.seen link.new).far) }
    ensures serving_still { IfErr result (IfMemory (Serving halted.now.number (D.seen link.new).far)) }
    ensures rises { Within (store_rises count) (D.seen link.old) (D.seen link.new) }
    ensures never { IfErr result (NeverLost (D.seen link.old)) }
    ensures keeps { Keeps access_why (D.seen link.old) (D.seen link.new) result }
{
    let _halted = halted;
    stores_around(link, size, address, count, value)?;
    Ok(())
}
