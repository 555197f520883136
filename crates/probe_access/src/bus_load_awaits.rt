//! Loads by the system bus one after another, each awaited before its words are read, so that none is read too early. An element takes the operations
//! that read it, and the polls in front of them.

ghost use Rattle.std.specs.Prelude.{◌≡◌, ◌≤◌, ◌<◌, ◌+◌, ◌*◌, length, IfErr, OnOk};
ghost use Rattle.rv_model.specs.Size.{count_of};
ghost use Rattle.debug_model.specs.Rises.{Within};
ghost use Rattle.probe_access.specs.Never.{NeverLost};
ghost use Rattle.debug_model.specs.Command.{all_addresses, most_elements};
ghost use Rattle.debug_model.specs.Kept.{CanCall, Keeps};
ghost use Rattle.probe_access.specs.BusAwaits.{AllAwaited, AwaitedLoadsFailed, LoadLastFailed, LoadNextFailed, LoadedLast, LoadedNext};
ghost use Rattle.probe_access.specs.Faults.{access_why};
ghost use Rattle.probe_run.specs.Told.{Fails, told};

use crate::blocks::ELEMENTS_MOST;
use crate::bus_parts::{finish, set_up};
use crate::bus_runs::element;
use crate::bus_streams::{read_call, running_of};
use crate::fault::AccessFault;
use arrayvec::ArrayVec;
use debug_model::{Dmi, Sbcs};
use rv_model::Size;

/// Awaits an element and reads its words, which starts the next access. `Memory` of this address where memory refused it.
fn load_next<D: Dmi>(
    link: &mut D,
    size: Size,
    at: u64,
    into: &mut ArrayVec<u64, ELEMENTS_MOST>,
) -> Result<(), AccessFault>
    requires callable { CanCall (D.seen link.old) }
    requires room { length into.old.items < most_elements }
    ensures loaded { OnOk result (LoadedNext size into.old.items into.new.items (told (D.seen link.old)) (told (D.seen link.new))) }
    ensures failed { IfErr result (Fails (LoadNextFailed at) (D.seen link.old) (D.seen link.new)) }
    ensures unchanged { IfErr result (λ fault. into.new.items ≡ into.old.items) }
    ensures rises { Within 4 (D.seen link.old) (D.seen link.new) }
    ensures never { IfErr result (NeverLost (D.seen link.old)) }
    ensures keeps { Keeps access_why (D.seen link.old) (D.seen link.new) result }
{
    finish(link, at)?;
    read_call(link, size, 1, into)?;
    Ok(())
}

/// Awaits the last element and reads its words, behind the end of `sbreadondata`. `Memory` of this address where memory refused it.
fn load_last<D: Dmi>(
    link: &mut D,
    size: Size,
    at: u64,
    into: &mut ArrayVec<u64, ELEMENTS_MOST>,
) -> Result<(), AccessFault>
    requires callable { CanCall (D.seen link.old) }
    requires room { length into.old.items < most_elements }
    ensures loaded { OnOk result (LoadedLast size into.old.items into.new.items (told (D.seen link.old)) (told (D.seen link.new))) }
    ensures failed { IfErr result (Fails (LoadLastFailed size at) (D.seen link.old) (D.seen link.new)) }
    ensures unchanged { IfErr result (λ fault. into.new.items ≡ into.old.items) }
    ensures rises { Within 5 (D.seen link.old) (D.seen link.new) }
    ensures never { IfErr result (NeverLost (D.seen link.old)) }
    ensures keeps { Keeps access_why (D.seen link.old) (D.seen link.new) result }
{
    finish(link, at)?;
    link.write(Sbcs::ADDRESS, running_of(false, size))?;
    read_call(link, size, 1, into)?;
    Ok(())
}

/// Loads the elements behind those in `into`, each awaited before its words are read. `Memory` where memory refused one; behind any fault `into` holds
/// those that were read.
pub fn load_awaited<D: Dmi>(
    link: &mut D,
    size: Size,
    address: u64,
    count: u16,
    into: &mut ArrayVec<u64, ELEMENTS_MOST>,
) -> Result<(), AccessFault>
    requires callable { CanCall (D.seen link.old) }
    requires some { length into.old.items < count }
    requires room { count ≤ most_elements }
    requires ends { address + count * count_of size ≤ all_addresses }
    ensures loaded { OnOk result (AllAwaited size address count into.old.items into.new.items (told (D.seen link.old)) (told (D.seen link.new))) }
    ensures failed { IfErr result (Fails (AwaitedLoadsFailed size address count into.old.items into.new.items) (D.seen link.old) (D.seen link.new)) }
    ensures rises { Within (4 * count + 4) (D.seen link.old) (D.seen link.new) }
    ensures never { IfErr result (NeverLost (D.seen link.old)) }
    ensures keeps { Keeps access_why (D.seen link.old) (D.seen link.new) result }
{
    let done = into.len() as u16;
    set_up(
        link,
        running_of(true, size),
        element(size, address, done, count),
    )?;
    'elements: for number in done..count - 1 {
        let at = element(size, address, number, count);
        load_next(link, size, at, into)?;
    }
    load_last(link, size, element(size, address, count - 1, count), into)?;
    Ok(())
}
