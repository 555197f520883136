//! A run of stores by the system bus, in which each write of the data starts one and the address rises behind it.

ghost use Rattle.std.specs.Prelude.{◌≡◌, ◌≢◌, ◌≤◌, ◌+◌, ◌*◌, length, true, false, IfErr, IfNone, IfOk, IfSome, OnOk, Some};
ghost use Rattle.rv_model.specs.Size.{count_of};
ghost use Rattle.debug_model.specs.Rises.{FailsByWire, Within};
ghost use Rattle.probe_access.specs.Never.{NeverLost};
ghost use Rattle.debug_model.specs.Command.{all_addresses, most_elements};
ghost use Rattle.debug_model.specs.Kept.{CanCall, Keeps};
ghost use Rattle.probe_access.specs.BusRuns.{Starting, bus_error, outside_error};
ghost use Rattle.probe_access.specs.BusStoreStreams.{CountFell, RunStores, StoredBefore, StoresFailed, StoresFell, StoresPolled};
ghost use Rattle.probe_access.specs.BusStoreStreams.{data_words, stores_started, storing};
ghost use Rattle.probe_access.specs.BusStreams.{Misplaced};
ghost use Rattle.probe_access.specs.Faults.{BrokeIn, access_why};
ghost use Rattle.probe_run.specs.Acts.{Did};
ghost use Rattle.probe_run.specs.Told.{Breaks, Fails, told};

use crate::bus_parts::{OUTSIDE, access_of, poll_bus, set_up};
use crate::bus_runs::{element, is_fine, is_other};
use crate::bus_store_words::{upper_before, write_elements};
use crate::bus_streams::find;
use crate::fault::AccessFault;
use crate::odd::OddStatus;
use debug_model::{Dmi, DmiFault, Sbcs, Sbdata1};
use rv_model::Size;

/// Each bit of `sberror`: a write of them clears it.
const EVERY_ERROR: u8 = 7;

/// The word of `sbcs` for a run of stores: a write of `sbdata0` starts each, one size further on, and the errors of earlier accesses are cleared.
fn storing_of(size: Size) -> u32
    ensures { result ≡ storing size }
{
    let bus = Sbcs {
        sbreadonaddr: false,
        sbaccess: access_of(size),
        sbversion: 0,
        sbbusyerror: true,
        sbbusy: false,
        sbautoincrement: true,
        sbreadondata: false,
        sberror: EVERY_ERROR,
        sbasize: 0,
        sizes: 0,
    };
    bus.word()
}

/// Writes what a run begins with: `sbcs`, the address, and an upper half of the data.
pub fn start_stores<D: Dmi>(
    link: &mut D,
    size: Size,
    address: u64,
    upper: u32,
) -> Result<(), DmiFault>
    requires callable { CanCall (D.seen link.old) }
    ensures did { OnOk result (Did (told (D.seen link.old)) (stores_started size address upper) (told (D.seen link.new))) }
    ensures broke { IfErr result (Breaks (BrokeIn (Starting (stores_started size address upper))) (D.seen link.old) (D.seen link.new)) }
    ensures rises { Within 4 (D.seen link.old) (D.seen link.new) }
    ensures never { IfErr result (FailsByWire (D.seen link.old)) }
    ensures keeps { Keeps Some (D.seen link.old) (D.seen link.new) result }
{
    set_up(link, storing_of(size), address)?;
    link.write(Sbdata1::ADDRESS, upper)?;
    Ok(())
}

/// Asks for the stores of a list of values, with no poll between them, and answers `sbcs` as it was at the end of the last.
fn run<D: Dmi>(link: &mut D, size: Size, address: u64, values: &[u64]) -> Result<u32, AccessFault>
    requires callable { CanCall (D.seen link.old) }
    requires some { 1 ≤ length values.now }
    requires room { length values.now ≤ most_elements }
    ensures polled { IfOk result (λ last. StoresPolled size address values.now (length values.now) last (told (D.seen link.old)) (told (D.seen link.new))) }
    ensures failed { IfErr result (Fails (StoresFailed size address values.now (length values.now)) (D.seen link.old) (D.seen link.new)) }
    ensures rises { Within (data_words values.now + 5) (D.seen link.old) (D.seen link.new) }
    ensures never { IfErr result (NeverLost (D.seen link.old)) }
    ensures keeps { Keeps access_why (D.seen link.old) (D.seen link.new) result }
{
    start_stores(link, size, address, upper_before(values, 0))?;
    write_elements(link, values)?;
    let last = poll_bus(link)?;
    Ok(last)
}

/// How many of the elements lie in front of a place, where it is the address behind one of them or that of the first.
fn stored_before(size: Size, address: u64, count: u16, place: u64) -> Option<u16>
    requires room { count ≤ most_elements }
    requires ends { address + count * count_of size ≤ all_addresses }
    ensures there { IfSome result (λ done. StoredBefore size address place count done) }
    ensures nowhere { IfNone result (Misplaced size address place count) }
{
    let bytes = place.wrapping_sub(address);
    let each = u64::from(size.count());
    if bytes % each != 0 || bytes / each > u64::from(count) {
        return None;
    }
    Some((bytes / each) as u16)
}

/// How many were stored of a run that ended with an error, by the address that was found. `Memory` where memory refused the element behind those.
fn count_stored(
    size: Size,
    address: u64,
    count: u16,
    last: u32,
    place: u64,
) -> Result<u16, AccessFault>
    requires room { count ≤ most_elements }
    requires ends { address + count * count_of size ≤ all_addresses }
    ensures counted { IfOk result (λ done. (bus_error last ≢ outside_error) × StoredBefore size address place count done) }
    ensures fell { IfErr result (CountFell size address count last place) }
{
    let bus = Sbcs::from_word(last);
    let Some(done) = stored_before(size, address, count, place) else {
        return Err(AccessFault::Odd(OddStatus::Sbcs(last)));
    };
    if bus.sberror != OUTSIDE {
        return Ok(done);
    }
    if done == count {
        return Err(AccessFault::Odd(OddStatus::Sbcs(last)));
    }
    Err(AccessFault::Memory(element(size, address, done, count)))
}

/// Stores a list of values in a run, up to the first that was asked for too early, and answers how many. `Memory` where memory refused one.
pub fn store_run<D: Dmi>(
    link: &mut D,
    size: Size,
    address: u64,
    values: &[u64],
) -> Result<u16, AccessFault>
    requires callable { CanCall (D.seen link.old) }
    requires some { 1 ≤ length values.now }
    requires room { length values.now ≤ most_elements }
    requires ends { address + length values.now * count_of size ≤ all_addresses }
    ensures stores { IfOk result
        (λ done. RunStores size address values.now (length values.now) done (told (D.seen link.old)) (told (D.seen link.new))) }
    ensures fell { IfErr result (Fails (StoresFell size address values.now (length values.now)) (D.seen link.old) (D.seen link.new)) }
    ensures rises { Within (data_words values.now + 10) (D.seen link.old) (D.seen link.new) }
    ensures never { IfErr result (NeverLost (D.seen link.old)) }
    ensures keeps { Keeps access_why (D.seen link.old) (D.seen link.new) result }
{
    let count = values.len() as u16;
    let last = run(link, size, address, values)?;
    if is_fine(last) {
        return Ok(count);
    }
    if is_other(last) {
        return Err(AccessFault::Odd(OddStatus::Sbcs(last)));
    }
    let held = find(link)?;
    let done = count_stored(size, address, count, last, held.address)?;
    Ok(done)
}
