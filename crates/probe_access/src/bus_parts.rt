//! The parts of an access by the system bus: its start, its end, and what was read.

ghost use Rattle.std.specs.Prelude.{◌≡◌, ◌≤◌, ◌<◌, ◌^◌, ◌∷◌, [], true, false, IfOk, IfErr, OnOk, Some};
ghost use Rattle.probe_run.specs.Acts.{Did};
ghost use Rattle.probe_access.specs.BusRuns.{BusEndFailed, BusEnded, BusFetched, BusFetching, BusPollFailed, BusPolled, Starting, access_number, addressed};
ghost use Rattle.probe_access.specs.BusRuns.{read_started, setting, write_started};
ghost use Rattle.probe_access.specs.Faults.{BrokeIn};
ghost use Rattle.debug_model.specs.Rises.{FailsByWire, Within};
ghost use Rattle.probe_access.specs.Never.{NeverLost};
ghost use Rattle.debug_model.specs.Kept.{CanCall, Keeps};
ghost use Rattle.probe_run.specs.Told.{Breaks, Fails, told};
ghost use Rattle.probe_access.specs.Faults.{access_why};

use crate::commands::POLLS_MOST;
use crate::doubles::{high_word, join, low_word};
use crate::fault::AccessFault;
use crate::memory::cut_to;
use crate::odd::OddStatus;
use debug_model::{Dmi, DmiFault, Sbaddress0, Sbaddress1, Sbcs, Sbdata0, Sbdata1};
use rv_model::Size;

/// The word of `sbcs` that clears every error.
pub const CLEARS_SBERROR: u32 = 0x0040_7000;

/// `sberror` of an access outside memory.
pub const OUTSIDE: u8 = 2;

/// `sbaccess` for accesses of this size.
pub fn access_of(size: Size) -> u8
    ensures { result ≡ access_number size }
{
    match size {
        Size::B1 => 0,
        Size::B2 => 1,
        Size::B4 => 2,
        Size::B8 => 3,
    }
}

/// The word of `sbcs` for accesses of this size: reads that the address starts, or writes that the data starts.
fn setting_of(on_address: bool, size: Size) -> u32
    ensures { result ≡ setting on_address size }
{
    let bus = Sbcs {
        sbreadonaddr: on_address,
        sbaccess: access_of(size),
        sbversion: 0,
        sbbusyerror: false,
        sbbusy: false,
        sbautoincrement: false,
        sbreadondata: false,
        sberror: 0,
        sbasize: 0,
        sizes: 0,
    };
    bus.word()
}

/// Writes a word of `sbcs` and the address.
#[tactic(auto, using(debug_model::proofs::RiseLemmas::within_then, debug_model::proofs::RiseLemmas::within_more))]
pub fn set_up<D: Dmi>(link: &mut D, setting: u32, address: u64) -> Result<(), DmiFault>
    requires callable { CanCall (D.seen link.old) }
    ensures did { OnOk result (Did (told (D.seen link.old)) (addressed setting address) (told (D.seen link.new))) }
    ensures broke { IfErr result (Breaks (BrokeIn (Starting (addressed setting address))) (D.seen link.old) (D.seen link.new)) }
    ensures rises { Within 3 (D.seen link.old) (D.seen link.new) }
    ensures never { IfErr result (FailsByWire (D.seen link.old)) }
    ensures keeps { Keeps Some (D.seen link.old) (D.seen link.new) result }
{
    link.write(Sbcs::ADDRESS, setting)?;
    link.write(Sbaddress1::ADDRESS, high_word(address))?;
    link.write(Sbaddress0::ADDRESS, low_word(address))?;
    Ok(())
}

/// Starts a read: the address is written, and `sbcs` so that its lower half starts it.
pub fn start_read<D: Dmi>(link: &mut D, size: Size, address: u64) -> Result<(), DmiFault>
    requires callable { CanCall (D.seen link.old) }
    ensures did { OnOk result (Did (told (D.seen link.old)) (read_started size address) (told (D.seen link.new))) }
    ensures broke { IfErr result (Breaks (BrokeIn (Starting (read_started size address))) (D.seen link.old) (D.seen link.new)) }
    ensures rises { Within 3 (D.seen link.old) (D.seen link.new) }
    ensures never { IfErr result (FailsByWire (D.seen link.old)) }
    ensures keeps { Keeps Some (D.seen link.old) (D.seen link.new) result }
{
    set_up(link, setting_of(true, size), address)?;
    Ok(())
}

/// Starts a write: the address is written, and the value, whose lower half starts it.
#[tactic(auto, using(debug_model::proofs::RiseLemmas::within_then, debug_model::proofs::RiseLemmas::within_more))]
pub fn start_write<D: Dmi>(
    link: &mut D,
    size: Size,
    address: u64,
    value: u64,
) -> Result<(), DmiFault>
    requires callable { CanCall (D.seen link.old) }
    ensures did { OnOk result (Did (told (D.seen link.old)) (write_started size address value) (told (D.seen link.new))) }
    ensures broke { IfErr result (Breaks (BrokeIn (Starting (write_started size address value))) (D.seen link.old) (D.seen link.new)) }
    ensures rises { Within 5 (D.seen link.old) (D.seen link.new) }
    ensures never { IfErr result (FailsByWire (D.seen link.old)) }
    ensures keeps { Keeps Some (D.seen link.old) (D.seen link.new) result }
{
    set_up(link, setting_of(false, size), address)?;
    link.write(Sbdata1::ADDRESS, high_word(value))?;
    link.write(Sbdata0::ADDRESS, low_word(value))?;
    Ok(())
}

/// Polls `sbcs` until it shows no access under way, at most 64 times, and answers it as it was then.
pub fn poll_bus<D: Dmi>(link: &mut D) -> Result<u32, AccessFault>
    requires callable { CanCall (D.seen link.old) }
    ensures polled { IfOk result (λ last. BusPolled last (told (D.seen link.old)) (told (D.seen link.new))) }
    ensures failed { IfErr result (Fails BusPollFailed (D.seen link.old) (D.seen link.new)) }
    ensures rises { Within 1 (D.seen link.old) (D.seen link.new) }
    ensures never { IfErr result (NeverLost (D.seen link.old)) }
    ensures keeps { Keeps access_why (D.seen link.old) (D.seen link.new) result }
{
    'polls: for _polls in 0..POLLS_MOST {
        let word = link.read(Sbcs::ADDRESS)?;
        let bus = Sbcs::from_word(word);
        if !bus.sbbusy {
            return Ok(word);
        }
    }
    Err(AccessFault::StillBusy)
}

/// Polls for the end of the access of this address. `Memory` where it lies outside memory: the error is cleared.
#[tactic(auto, using(debug_model::proofs::RiseLemmas::within_then, debug_model::proofs::RiseLemmas::within_more))]
pub fn finish<D: Dmi>(link: &mut D, address: u64) -> Result<(), AccessFault>
    requires callable { CanCall (D.seen link.old) }
    ensures ended { OnOk result (BusEnded (told (D.seen link.old)) (told (D.seen link.new))) }
    ensures failed { IfErr result (Fails (BusEndFailed address) (D.seen link.old) (D.seen link.new)) }
    ensures rises { Within 2 (D.seen link.old) (D.seen link.new) }
    ensures never { IfErr result (NeverLost (D.seen link.old)) }
    ensures keeps { Keeps access_why (D.seen link.old) (D.seen link.new) result }
{
    let last = poll_bus(link)?;
    let bus = Sbcs::from_word(last);
    if bus.sberror == OUTSIDE {
        link.write(Sbcs::ADDRESS, CLEARS_SBERROR)?;
        return Err(AccessFault::Memory(address));
    }
    if bus.sberror == 0 && !bus.sbbusyerror {
        return Ok(());
    }
    Err(AccessFault::Odd(OddStatus::Sbcs(last)))
}

/// Reads what the access has read.
#[tactic(auto, using(debug_model::proofs::RiseLemmas::within_then, debug_model::proofs::RiseLemmas::within_more))]
pub fn fetch<D: Dmi>(link: &mut D, size: Size) -> Result<u64, DmiFault>
    requires callable { CanCall (D.seen link.old) }
    ensures fetched { IfOk result (λ value. BusFetched size value (told (D.seen link.old)) (told (D.seen link.new))) }
    ensures broke { IfErr result (Breaks (BrokeIn BusFetching) (D.seen link.old) (D.seen link.new)) }
    ensures rises { Within 2 (D.seen link.old) (D.seen link.new) }
    ensures never { IfErr result (FailsByWire (D.seen link.old)) }
    ensures keeps { Keeps Some (D.seen link.old) (D.seen link.new) result }
{
    let low = link.read(Sbdata0::ADDRESS)?;
    let high = link.read(Sbdata1::ADDRESS)?;
    Ok(cut_to(size, join(low, high)))
}
