//! A run of loads by the system bus.

ghost use Rattle.std.specs.Prelude.{◌≡◌, ◌≢◌, ◌⊎◌, ◌≤◌, ◌<◌, ◌+◌, ◌*◌, [], true, false, length, IfErr, IfOk, OnOk};
ghost use Rattle.rv_model.specs.Memory.{is_aligned};
ghost use Rattle.rv_model.specs.Size.{count_of};
ghost use Rattle.debug_model.specs.Rises.{Within};
ghost use Rattle.probe_access.specs.Never.{NeverLost};
ghost use Rattle.debug_model.specs.Command.{all_addresses, most_elements};
ghost use Rattle.debug_model.specs.Kept.{CanCall, Keeps, Stands};
ghost use Rattle.debug_model.specs.Told.{IsReady};
ghost use Rattle.probe_access.specs.Accesses.{IfMemory};
ghost use Rattle.probe_access.specs.BusBlockRuns.{BusCauses, RunRefused};
ghost use Rattle.probe_access.specs.Blocks.{element_at};
ghost use Rattle.probe_access.specs.BusBlocks.{BusBlockLoadCut, BusBlockLoadLeft, BusBlockLoadedAt};
ghost use Rattle.probe_access.specs.BusStreams.{HandOutFell, HandedOut, PolledOn, RunFailed, RunFell, RunLoads, RunRead, element_words};
ghost use Rattle.probe_access.specs.BusRuns.{BusPollFailed, bus_collided, bus_error, outside_error};
ghost use Rattle.probe_access.specs.Cuts.{IfCut, Leaves};
ghost use Rattle.debug_model.specs.Addresses.{sbcs_address};
ghost use Rattle.probe_access.specs.Spent.{DidAtMost, IfUnbroken};
ghost use Rattle.probe_access.specs.Faults.{access_why};
ghost use Rattle.probe_run.specs.Told.{Fails, OnChip, told};

use crate::blocks::ELEMENTS_MOST;
use crate::bus_parts::{OUTSIDE, poll_bus};
use crate::bus_run_ends::{end_run, start_run};
use crate::bus_streams::{Held, find, hand_out, read_elements};
use crate::fault::AccessFault;
use crate::odd::OddStatus;
use arrayvec::ArrayVec;
use debug_model::{Dmi, Sbcs};
use rv_model::Size;

/// The address of an element of a block.
pub fn element(size: Size, address: u64, number: u16, count: u16) -> u64
    requires within { number < count }
    requires ends { address + count * count_of size ≤ all_addresses }
    ensures { result ≡ element_at size address number }
{
    address + u64::from(number) * u64::from(size.count())
}

/// The last of `sbcs` behind a run: as it was shown already where that showed no access under way, or else polled for.
#[tactic(auto, using(debug_model::proofs::RiseLemmas::within_none))]
fn await_end<D: Dmi>(link: &mut D, shown: u32) -> Result<u32, AccessFault>
    requires stands { Stands (D.seen link.old) }
    ensures polled { IfOk result (λ last. PolledOn shown last (told (D.seen link.old)) (told (D.seen link.new))) }
    ensures failed { IfErr result (Fails BusPollFailed (D.seen link.old) (D.seen link.new)) }
    ensures rises { Within 1 (D.seen link.old) (D.seen link.new) }
    ensures never { IfErr result (NeverLost (D.seen link.old)) }
    ensures keeps { Keeps access_why (D.seen link.old) (D.seen link.new) result }
{
    let bus = Sbcs::from_word(shown);
    if !bus.sbbusy {
        return Ok(shown);
    }
    poll_bus(link)
}

/// Asks for so many elements and reads their words, the last behind the end of `sbreadondata`; and answers `sbcs` as it was at the end of the last access.
fn run<D: Dmi>(
    link: &mut D,
    size: Size,
    address: u64,
    count: u16,
    into: &mut ArrayVec<u64, ELEMENTS_MOST>,
) -> Result<u32, AccessFault>
    requires callable { CanCall (D.seen link.old) }
    requires some { 1 ≤ count }
    requires room { count ≤ most_elements }
    requires empty { into.old.items ≡ [] }
    ensures read { IfOk result (λ last. RunRead size address count last into.new.items (told (D.seen link.old)) (told (D.seen link.new))) }
    ensures failed { IfErr result (Fails (RunFailed size address count) (D.seen link.old) (D.seen link.new)) }
    ensures rises { Within (2 * count + 6) (D.seen link.old) (D.seen link.new) }
    ensures never { IfErr result (NeverLost (D.seen link.old)) }
    ensures keeps { Keeps access_why (D.seen link.old) (D.seen link.new) result }
{
    start_run(link, size, address)?;
    read_elements(link, size, count - 1, into)?;
    let shown = end_run(link, size, into)?;
    let last = await_end(link, shown)?;
    Ok(last)
}

/// Whether `sbcs` shows no error.
pub fn is_fine(last: u32) -> bool
    ensures fine { result ≡ true → (bus_error last ≡ 0) × (bus_collided last ≡ false) }
    ensures not_fine { result ≡ false → (bus_error last ≢ 0) ⊎ (bus_collided last ≡ true) }
{
    let bus = Sbcs::from_word(last);
    if bus.sberror != 0 {
        return false;
    }
    !bus.sbbusyerror
}

/// Whether `sbcs` shows another error than that of an access outside memory.
pub fn is_other(last: u32) -> bool
    ensures other { result ≡ true → (bus_error last ≢ 0) × (bus_error last ≢ outside_error) }
    ensures none_other { result ≡ false → (bus_error last ≡ 0) ⊎ (bus_error last ≡ outside_error) }
{
    let bus = Sbcs::from_word(last);
    if bus.sberror == 0 {
        return false;
    }
    bus.sberror != OUTSIDE
}

/// Hands out what was loaded of a run that ended with an error. `Memory` where memory refused the element behind those.
fn hand_over(
    size: Size,
    address: u64,
    count: u16,
    last: u32,
    held: &Held,
    into: &mut ArrayVec<u64, ELEMENTS_MOST>,
) -> Result<(), AccessFault>
    requires all { length into.old.items ≡ count }
    requires room { count ≤ most_elements }
    requires ends { address + count * count_of size ≤ all_addresses }
    ensures handed { OnOk result ((bus_error last ≢ outside_error) × HandedOut size address held.now.address held.now.value into.old.items into.new.items) }
    ensures fell { IfErr result (HandOutFell size address count last held.now.address held.now.value into.old.items into.new.items) }
{
    let bus = Sbcs::from_word(last);
    if !hand_out(size, address, held, into) {
        return Err(AccessFault::Odd(OddStatus::Sbcs(last)));
    }
    if bus.sberror != OUTSIDE {
        return Ok(());
    }
    let done = into.len() as u16;
    if done == count {
        return Err(AccessFault::Odd(OddStatus::Sbcs(last)));
    }
    Err(AccessFault::Memory(element(size, address, done, count)))
}

/// Loads elements in a run, up to the first that was read too early. `Memory` where memory refused one. Behind another fault `into` may hold anything.
fn try_run<D: Dmi>(
    link: &mut D,
    size: Size,
    address: u64,
    count: u16,
    into: &mut ArrayVec<u64, ELEMENTS_MOST>,
) -> Result<(), AccessFault>
    requires callable { CanCall (D.seen link.old) }
    requires some { 1 ≤ count }
    requires room { count ≤ most_elements }
    requires ends { address + count * count_of size ≤ all_addresses }
    requires empty { into.old.items ≡ [] }
    ensures loads { OnOk result (RunLoads size address count into.new.items (told (D.seen link.old)) (told (D.seen link.new))) }
    ensures fell { IfErr result (Fails (RunFell size address count into.new.items) (D.seen link.old) (D.seen link.new)) }
    ensures rises { Within (2 * count + 11) (D.seen link.old) (D.seen link.new) }
    ensures never { IfErr result (NeverLost (D.seen link.old)) }
    ensures keeps { Keeps access_why (D.seen link.old) (D.seen link.new) result }
{
    let last = run(link, size, address, count, into)?;
    if is_fine(last) {
        return Ok(());
    }
    if is_other(last) {
        return Err(AccessFault::Odd(OddStatus::Sbcs(last)));
    }
    let held = find(link)?;
    hand_over(size, address, count, last, &held, into)?;
    Ok(())
}

/// Keeps what was handed out where memory refused the next element alone.
fn empty_unless_memory(fault: &AccessFault, into: &mut ArrayVec<u64, ELEMENTS_MOST>)
    ensures kept { IfMemory (into.new.items ≡ into.old.items) fault.now }
    ensures emptied { IfCut (into.new.items ≡ []) fault.now }
{
    match fault {
        AccessFault::Memory(_) => {}
        AccessFault::Dmi(_)
        | AccessFault::Register(_)
        | AccessFault::StillBusy
        | AccessFault::Run(_)
        | AccessFault::Odd(_) => into.clear(),
    }
}

/// Loads elements in a run: all, or those up to the first that was read too early. `Memory` where memory refused one. Behind another fault `into` is empty.
pub fn load_run<D: Dmi>(
    link: &mut D,
    size: Size,
    address: u64,
    count: u16,
    into: &mut ArrayVec<u64, ELEMENTS_MOST>,
) -> Result<(), AccessFault>
    requires callable { CanCall (D.seen link.old) }
    requires ready { IsReady (D.seen link.old).far }
    requires aligned { is_aligned address size ≡ true }
    requires some { 1 ≤ count }
    requires room { count ≤ most_elements }
    requires ends { address + count * count_of size ≤ all_addresses }
    requires empty { into.old.items ≡ [] }
    ensures most { OnOk result (length into.new.items ≤ count) }
    ensures loaded { OnOk result (OnChip (BusBlockLoadedAt size address into.new.items) (D.seen link.old) (D.seen link.new)) }
    ensures loads { OnOk result (RunLoads size address count into.new.items (told (D.seen link.old)) (told (D.seen link.new))) }
    ensures refused { IfErr result (IfMemory (RunRefused size address into.new.items (told (D.seen link.old)) (told (D.seen link.new)))) }
    ensures few { OnOk result (DidAtMost sbcs_address (element_words size * count + 9) (told (D.seen link.old)) (told (D.seen link.new))) }
    ensures few_failed { IfErr result (IfUnbroken (DidAtMost sbcs_address (element_words size * count + 9) (told (D.seen link.old)) (told (D.seen link.new)))) }
    ensures left { IfErr result (BusBlockLoadLeft size address count into.new.items (D.seen link.old).far (D.seen link.new).far) }
    ensures causes { IfErr result (Fails BusCauses (D.seen link.old) (D.seen link.new)) }
    ensures cut { IfErr result (IfCut (Leaves (BusBlockLoadCut size address count into.new.items) (D.seen link.old).far (D.seen link.new).far)) }
    ensures ready { OnOk result (IsReady (D.seen link.new).far) }
    ensures ready_again { IfErr result (IfMemory (IsReady (D.seen link.new).far)) }
    ensures rises { Within (2 * count + 11) (D.seen link.old) (D.seen link.new) }
    ensures never { IfErr result (NeverLost (D.seen link.old)) }
    ensures keeps { Keeps access_why (D.seen link.old) (D.seen link.new) result }
{
    match try_run(link, size, address, count, into) {
        Ok(()) => Ok(()),
        Err(fault) => {
            empty_unless_memory(&fault, into);
            Err(fault)
        }
    }
}
