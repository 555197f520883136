//! Stores by the system bus one after another, each awaited before the next is asked for, so that none is asked for too early. Each takes the words
//! of its value and the polls behind them.

ghost use Rattle.std.specs.Prelude.{◌≤◌, ◌<◌, ◌+◌, ◌-◌, ◌*◌, length, IfErr, OnOk};
ghost use Rattle.rv_model.specs.Size.{count_of};
ghost use Rattle.debug_model.specs.Rises.{Within};
ghost use Rattle.probe_access.specs.Never.{NeverLost};
ghost use Rattle.debug_model.specs.Command.{all_addresses, most_elements};
ghost use Rattle.debug_model.specs.Kept.{CanCall, Keeps};
ghost use Rattle.probe_access.specs.BusAwaits.{AwaitedStoresFailed, StoreNextFailed, StoredNext, StoresAwaited};
ghost use Rattle.probe_access.specs.BusStoreStreams.{element_puts, words_from};
ghost use Rattle.probe_access.specs.Faults.{access_why};
ghost use Rattle.probe_run.specs.Told.{Fails, told};

use crate::bus_parts::finish;
use crate::bus_runs::element;
use crate::bus_store_runs::start_stores;
use crate::bus_store_words::{upper_before, write_element};
use crate::fault::AccessFault;
use debug_model::Dmi;
use rv_model::Size;

/// Writes the words of the next element, which stores it, and awaits that. `Memory` of this address where memory refused it.
fn store_next<D: Dmi>(link: &mut D, upper: u32, value: u64, at: u64) -> Result<(), AccessFault>
    requires callable { CanCall (D.seen link.old) }
    ensures stored { OnOk result (StoredNext upper value (told (D.seen link.old)) (told (D.seen link.new))) }
    ensures failed { IfErr result (Fails (StoreNextFailed upper value at) (D.seen link.old) (D.seen link.new)) }
    ensures rises { Within (length (element_puts upper value) + 2) (D.seen link.old) (D.seen link.new) }
    ensures never { IfErr result (NeverLost (D.seen link.old)) }
    ensures keeps { Keeps access_why (D.seen link.old) (D.seen link.new) result }
{
    write_element(link, upper, value)?;
    finish(link, at)?;
    Ok(())
}

/// Stores the values behind the first `done`, each awaited before the next. `Memory` where memory refused one.
pub fn store_awaited<D: Dmi>(
    link: &mut D,
    size: Size,
    address: u64,
    done: u16,
    values: &[u64],
) -> Result<(), AccessFault>
    requires callable { CanCall (D.seen link.old) }
    requires some { done < length values.now }
    requires room { length values.now ≤ most_elements }
    requires ends { address + length values.now * count_of size ≤ all_addresses }
    ensures stored { OnOk result
        (StoresAwaited size address values.now done (told (D.seen link.old)) (length values.now) (told (D.seen link.new))) }
    ensures failed { IfErr result (Fails (AwaitedStoresFailed size address values.now done (length values.now)) (D.seen link.old) (D.seen link.new)) }
    ensures rises { Within (words_from values.now done (length values.now - done) + 2 * length values.now + 4) (D.seen link.old) (D.seen link.new) }
    ensures never { IfErr result (NeverLost (D.seen link.old)) }
    ensures keeps { Keeps access_why (D.seen link.old) (D.seen link.new) result }
{
    let count = values.len() as u16;
    let first = element(size, address, done, count);
    start_stores(link, size, first, upper_before(values, done))?;
    'elements: for number in done..count {
        let at = element(size, address, number, count);
        let upper = upper_before(values, number);
        store_next(link, upper, values[number as usize], at)?;
    }
    Ok(())
}
