ghost use Rattle.std.specs.Prelude.{◌≡◌, ◌≤◌, true, IfOk, IfErr, OnOk};
ghost use Rattle.rv_model.specs.Memory.{is_aligned};
ghost use Rattle.probe_access.specs.Accesses.{AccessLeft, IfMemory, LoadRefused, LoadedAt, StoreRefused, StoredAt};
ghost use Rattle.probe_access.specs.BusRuns.{cut_to};
ghost use Rattle.probe_access.specs.Cuts.{AccessLeftOff, IfCut, Leaves, LoadLeaves, Scratched, StoreLeaves};
ghost use Rattle.probe_access.specs.MemoryRuns.{Around, AroundFailed, LoadRun, LoadRunFailed, StoreFailedInside, StoredInside, TakeFailed, Taken};
ghost use Rattle.debug_model.specs.Rises.{Within};
ghost use Rattle.probe_access.specs.Never.{NeverLost};
ghost use Rattle.debug_model.specs.Kept.{CanCall, Keeps};
ghost use Rattle.probe_run.specs.Told.{Fails, OnChip, told};
ghost use Rattle.probe_access.specs.Faults.{access_why};
ghost use Rattle.probe_run.specs.Told.{Serving};

use crate::fault::AccessFault;
use crate::inside::store_inside;
use crate::program::{X8, load_of, perform};
use crate::scratch::save_scratch;
use crate::transfers::{read_register, swap_at_once, write_register};
use debug_model::Dmi;
use probe_run::Halted;
use rv_model::Size;

/// Takes what was loaded from x8 of the selected hart, and puts x8 back: in one call, and by calls of their own where that shows an error.
#[tactic(auto, using(debug_model::proofs::RiseLemmas::within_then, debug_model::proofs::RiseLemmas::within_more))]
fn take_loaded<D: Dmi>(link: &mut D, x8: u64) -> Result<u64, AccessFault>
    requires callable { CanCall (D.seen link.old) }
    ensures taken { IfOk result (λ value. Taken x8 value (told (D.seen link.old)) (told (D.seen link.new))) }
    ensures failed { IfErr result (Fails (TakeFailed x8) (D.seen link.old) (D.seen link.new)) }
    ensures rises { Within 35 (D.seen link.old) (D.seen link.new) }
    ensures never { IfErr result (NeverLost (D.seen link.old)) }
    ensures keeps { Keeps access_why (D.seen link.old) (D.seen link.new) result }
{
    match swap_at_once(link, X8, x8)? {
        Some(value) => Ok(value),
        None => {
            let value = read_register(link, X8)?;
            write_register(link, X8, x8)?;
            Ok(value)
        }
    }
}

/// Loads from memory by x8 of the selected hart, which has the address and then what was loaded, and is put back.
#[tactic(auto, using(debug_model::proofs::RiseLemmas::within_then, debug_model::proofs::RiseLemmas::within_more))]
pub(crate) fn load_around<D: Dmi>(
    link: &mut D,
    size: Size,
    address: u64,
) -> Result<u64, AccessFault>
    requires callable { CanCall (D.seen link.old) }
    ensures loaded { IfOk result (λ value. LoadRun size address value (told (D.seen link.old)) (told (D.seen link.new))) }
    ensures failed { IfErr result (Fails (LoadRunFailed size address) (D.seen link.old) (D.seen link.new)) }
    ensures rises { Within 61 (D.seen link.old) (D.seen link.new) }
    ensures never { IfErr result (NeverLost (D.seen link.old)) }
    ensures keeps { Keeps access_why (D.seen link.old) (D.seen link.new) result }
{
    let x8 = read_register(link, X8)?;
    match perform(link, load_of(size), address) {
        Ok(()) => {
            let value = take_loaded(link, x8)?;
            Ok(value)
        }
        Err(fault) => match fault {
            AccessFault::Memory(_) => {
                write_register(link, X8, x8)?;
                Err(fault)
            }
            _ => Err(fault),
        },
    }
}

/// Stores to memory by the selected hart, whose x8 and x9 are put back.
#[tactic(auto, using(debug_model::proofs::RiseLemmas::within_then, debug_model::proofs::RiseLemmas::within_more))]
pub(crate) fn store_around<D: Dmi>(
    link: &mut D,
    size: Size,
    address: u64,
    value: u64,
) -> Result<(), AccessFault>
    requires callable { CanCall (D.seen link.old) }
    ensures stored { OnOk result (Around (StoredInside size address value) (told (D.seen link.old)) (told (D.seen link.new))) }
    ensures failed { IfErr result
        (Fails (AroundFailed (StoredInside size address value) (StoreFailedInside size address value)) (D.seen link.old) (D.seen link.new)) }
    ensures rises { Within 66 (D.seen link.old) (D.seen link.new) }
    ensures never { IfErr result (NeverLost (D.seen link.old)) }
    ensures keeps { Keeps access_why (D.seen link.old) (D.seen link.new) result }
{
    let scratch = save_scratch(link)?;
    match store_inside(link, size, address, value) {
        Ok(()) => {
            scratch.put_back(link)?;
            Ok(())
        }
        Err(fault) => Err(scratch.give_up(link, fault)),
    }
}

/// The lowest bits of a value, as many as this size has.
pub fn cut_to(size: Size, value: u64) -> u64
    ensures { result ≡ cut_to size value }
{
    match size {
        Size::B1 => value % 0x100,
        Size::B2 => value % 0x1_0000,
        Size::B4 => value % 0x1_0000_0000,
        Size::B8 => value,
    }
}

/// Whether an address is a multiple of a size.
pub fn is_aligned(size: Size, address: u64) -> bool
    ensures { result ≡ is_aligned address size }
{
    address % u64::from(size.count()) == 0
}

/// Loads 1, 2, 4 or 8 bytes of memory by the halted hart, which is selected: one access by its program buffer, the upper bits 0.
/// `Memory` where a byte lies outside memory. x8 is put back (RISC-V Debug Specification 1.0, "Program Buffer").
pub fn load<D: Dmi>(
    link: &mut D,
    halted: &Halted,
    size: Size,
    address: u64,
) -> Result<u64, AccessFault>
    requires callable { CanCall (D.seen link.old) }
    requires serving { Serving halted.now.number (D.seen link.old).far }
    requires aligned { is_aligned address size ≡ true }
    ensures loaded { IfOk result (λ value. OnChip (LoadedAt size address value) (D.seen link.old) (D.seen link.new)) }
    ensures around { IfOk result (λ value. LoadRun size address value (told (D.seen link.old)) (told (D.seen link.new))) }
    ensures left { IfErr result (AccessLeft (LoadRefused size address) address (D.seen link.old).far (D.seen link.new).far) }
    ensures failed { IfErr result (Fails (LoadRunFailed size address) (D.seen link.old) (D.seen link.new)) }
    ensures cut { IfErr result (IfCut (Leaves (AccessLeftOff Scratched LoadLeaves halted.now.number) (D.seen link.old).far (D.seen link.new).far)) }
    ensures serving { OnOk result (Serving halted.now.number (D.seen link.new).far) }
    ensures serving_still { IfErr result (IfMemory (Serving halted.now.number (D.seen link.new).far)) }
    ensures rises { Within 61 (D.seen link.old) (D.seen link.new) }
    ensures never { IfErr result (NeverLost (D.seen link.old)) }
    ensures keeps { Keeps access_why (D.seen link.old) (D.seen link.new) result }
{
    let _halted = halted;
    let value = load_around(link, size, address)?;
    Ok(value)
}

/// Stores the lowest 1, 2, 4 or 8 bytes of a value by the halted hart, which is selected: one access by its program buffer.
/// `Memory` where a byte lies outside memory. x8 and x9 are put back (RISC-V Debug Specification 1.0, "Program Buffer").
pub fn store<D: Dmi>(
    link: &mut D,
    halted: &Halted,
    size: Size,
    address: u64,
    value: u64,
) -> Result<(), AccessFault>
    requires callable { CanCall (D.seen link.old) }
    requires serving { Serving halted.now.number (D.seen link.old).far }
    requires aligned { is_aligned address size ≡ true }
    ensures stored { OnOk result (OnChip (StoredAt size address value) (D.seen link.old) (D.seen link.new)) }
    ensures around { OnOk result (Around (StoredInside size address value) (told (D.seen link.old)) (told (D.seen link.new))) }
    ensures left { IfErr result (AccessLeft (StoreRefused size address) address (D.seen link.old).far (D.seen link.new).far) }
    ensures failed { IfErr result
        (Fails (AroundFailed (StoredInside size address value) (StoreFailedInside size address value)) (D.seen link.old) (D.seen link.new)) }
    ensures cut { IfErr result
        (IfCut (Leaves (AccessLeftOff Scratched (StoreLeaves size address value) halted.now.number) (D.seen link.old).far (D.seen link.new).far)) }
    ensures serving { OnOk result (Serving halted.now.number (D.seen link.new).far) }
    ensures serving_still { IfErr result (IfMemory (Serving halted.now.number (D.seen link.new).far)) }
    ensures rises { Within 66 (D.seen link.old) (D.seen link.new) }
    ensures never { IfErr result (NeverLost (D.seen link.old)) }
    ensures keeps { Keeps access_why (D.seen link.old) (D.seen link.new) result }
{
    let _halted = halted;
    store_around(link, size, address, value)?;
    Ok(())
}
