//! The start and the end of a run of loads by the system bus, each in one call: so it takes fewer scans, and the link's pace is kept throughout.

ghost use Rattle.std.specs.Prelude.{◌<◌, length, IfErr, IfOk, OnOk, Some};
ghost use Rattle.rv_model.specs.declared.size.Size.TheVariants.{B8};
ghost use Rattle.debug_model.specs.Rises.{FailsByWire, Within};
ghost use Rattle.debug_model.specs.Command.{most_elements};
ghost use Rattle.debug_model.specs.Kept.{CanCall, Keeps};
ghost use Rattle.probe_access.specs.BusRuns.{Starting};
ghost use Rattle.probe_access.specs.BusStreams.{EndRead, Ending, IsNarrow, run_started};
ghost use Rattle.probe_access.specs.Faults.{Among, BrokeIn};
ghost use Rattle.probe_run.specs.Acts.{Did};
ghost use Rattle.probe_run.specs.Told.{Breaks, told};

use crate::blocks::ELEMENTS_MOST;
use crate::bus_streams::running_of;
use crate::doubles::{high_word, join, low_word};
use crate::memory::cut_to;
use arrayvec::ArrayVec;
use debug_model::{Dmi, DmiFault, DmiOp, Sbaddress0, Sbaddress1, Sbcs, Sbdata0, Sbdata1};
use rv_model::Size;

/// Starts a run in one call: the first element's address is written, and `sbcs` so that its lower half starts the first access.
#[tactic(auto, using(debug_model::proofs::RiseLemmas::within_then, debug_model::proofs::RiseLemmas::within_more))]
pub fn start_run<D: Dmi>(link: &mut D, size: Size, address: u64) -> Result<(), DmiFault>
    requires callable { CanCall (D.seen link.old) }
    ensures did { OnOk result (Did (told (D.seen link.old)) (run_started size address) (told (D.seen link.new))) }
    ensures broke { IfErr result (Breaks (BrokeIn (Among (Starting (run_started size address)))) (D.seen link.old) (D.seen link.new)) }
    ensures rises { Within 3 (D.seen link.old) (D.seen link.new) }
    ensures never { IfErr result (FailsByWire (D.seen link.old)) }
    ensures keeps { Keeps Some (D.seen link.old) (D.seen link.new) result }
{
    let operations = [
        DmiOp::Write(Sbcs::ADDRESS, running_of(true, size)),
        DmiOp::Write(Sbaddress1::ADDRESS, high_word(address)),
        DmiOp::Write(Sbaddress0::ADDRESS, low_word(address)),
    ];
    let mut words = ArrayVec::new();
    link.many(&operations, &mut words)?;
    Ok(())
}

/// Ends a run of elements of at most 4 bytes in one call: `sbreadondata` ends, the last element is read, and `sbcs` behind it, which is answered.
#[tactic(auto, using(debug_model::proofs::RiseLemmas::within_then, debug_model::proofs::RiseLemmas::within_more))]
fn end_narrow<D: Dmi>(
    link: &mut D,
    size: Size,
    into: &mut ArrayVec<u64, ELEMENTS_MOST>,
) -> Result<u32, DmiFault>
    requires callable { CanCall (D.seen link.old) }
    requires narrow { IsNarrow size }
    requires room { length into.old.items < most_elements }
    ensures read { IfOk result (λ shown. EndRead size into.old.items into.new.items shown (told (D.seen link.old)) (told (D.seen link.new))) }
    ensures broke { IfErr result (Breaks (BrokeIn (Among (Ending size))) (D.seen link.old) (D.seen link.new)) }
    ensures rises { Within 3 (D.seen link.old) (D.seen link.new) }
    ensures never { IfErr result (FailsByWire (D.seen link.old)) }
    ensures keeps { Keeps Some (D.seen link.old) (D.seen link.new) result }
{
    let operations = [
        DmiOp::Write(Sbcs::ADDRESS, running_of(false, size)),
        DmiOp::Read(Sbdata0::ADDRESS),
        DmiOp::Read(Sbcs::ADDRESS),
    ];
    let mut words = ArrayVec::new();
    link.many(&operations, &mut words)?;
    into.push(cut_to(size, u64::from(words[1])));
    Ok(words[2])
}

/// Ends a run of elements of 8 bytes in one call, as of others.
#[tactic(auto, using(debug_model::proofs::RiseLemmas::within_then, debug_model::proofs::RiseLemmas::within_more))]
fn end_double<D: Dmi>(
    link: &mut D,
    into: &mut ArrayVec<u64, ELEMENTS_MOST>,
) -> Result<u32, DmiFault>
    requires callable { CanCall (D.seen link.old) }
    requires room { length into.old.items < most_elements }
    ensures read { IfOk result (λ shown. EndRead B8 into.old.items into.new.items shown (told (D.seen link.old)) (told (D.seen link.new))) }
    ensures broke { IfErr result (Breaks (BrokeIn (Among (Ending B8))) (D.seen link.old) (D.seen link.new)) }
    ensures rises { Within 4 (D.seen link.old) (D.seen link.new) }
    ensures never { IfErr result (FailsByWire (D.seen link.old)) }
    ensures keeps { Keeps Some (D.seen link.old) (D.seen link.new) result }
{
    let operations = [
        DmiOp::Write(Sbcs::ADDRESS, running_of(false, Size::B8)),
        DmiOp::Read(Sbdata1::ADDRESS),
        DmiOp::Read(Sbdata0::ADDRESS),
        DmiOp::Read(Sbcs::ADDRESS),
    ];
    let mut words = ArrayVec::new();
    link.many(&operations, &mut words)?;
    into.push(join(words[2], words[1]));
    Ok(words[3])
}

/// Ends a run in one call: `sbreadondata` ends, the last element is read, and `sbcs` behind it, which is answered.
#[tactic(auto, using(debug_model::proofs::RiseLemmas::within_then, debug_model::proofs::RiseLemmas::within_more))]
pub fn end_run<D: Dmi>(
    link: &mut D,
    size: Size,
    into: &mut ArrayVec<u64, ELEMENTS_MOST>,
) -> Result<u32, DmiFault>
    requires callable { CanCall (D.seen link.old) }
    requires room { length into.old.items < most_elements }
    ensures read { IfOk result (λ shown. EndRead size into.old.items into.new.items shown (told (D.seen link.old)) (told (D.seen link.new))) }
    ensures broke { IfErr result (Breaks (BrokeIn (Among (Ending size))) (D.seen link.old) (D.seen link.new)) }
    ensures rises { Within 4 (D.seen link.old) (D.seen link.new) }
    ensures never { IfErr result (FailsByWire (D.seen link.old)) }
    ensures keeps { Keeps Some (D.seen link.old) (D.seen link.new) result }
{
    match size {
        Size::B1 => end_narrow(link, Size::B1, into),
        Size::B2 => end_narrow(link, Size::B2, into),
        Size::B4 => end_narrow(link, Size::B4, into),
        Size::B8 => end_double(link, into),
    }
}
