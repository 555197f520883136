//! A break on a chip of either release: what `tdata1` holds of it where it is armed, where it has stopped the hart, and where the hart was stepped over
//! it (RISC-V External Debug Support 0.13.2, "Match Control"; RISC-V Debug Specification 1.0, "Match Control Type 6").

use crate::fault::Fault;
use crate::quiet_wire::QuietWire;
use crate::standing::{PROGRAM, go, halted_hart};
use chip_core::Bench;
use debug_model::{Schedule, SlotUse, WatchKind};
use hart_debug::Start;
use probe_access::reg;
use probe_dmi::Link;
use probe_run::connect;
use probe_scan::Scanner;
use probe_trig::{SlotView, arm, disarm, slots, step_over};
use rv_model::{SlotSet, Version};
use std::alloc::Global;
use std::test::Fail;
use sys_events::SeedSchedule;

/// The number of `tdata1`; a hart that nobody selected a slot of shows slot 0.
const TDATA1: u16 = 0x7a1;

/// The second word of the program.
const SECOND: u64 = 0x8000_0004;

/// A break is run into and stepped over; slot 0 is armed for one watch after another. What its `tdata1` holds behind each.
fn words_over<Q: Schedule>(bench: &mut Bench<Q>) -> Result<([u64; 6], SlotView), Fault> {
    let mut link = Link::new(Scanner::new(QuietWire::new(bench)));
    let target = connect(&mut link)?;
    let halted = halted_hart(&mut link, &target, 0)?;
    let _slot = arm(&mut link, &halted, SlotUse::Break(SECOND))?;
    let armed = reg(&mut link, &halted, TDATA1)?;
    let again = go(&mut link, &target, halted)?;
    let stopped = reg(&mut link, &again, TDATA1)?;
    let view = slots(&mut link, &again)?;
    let over = step_over(&mut link, again)?;
    let stepped = reg(&mut link, &over, TDATA1)?;
    disarm(&mut link, &over, 0)?;
    let _slot = arm(&mut link, &over, SlotUse::Watch(WatchKind::Load, SECOND))?;
    let load = reg(&mut link, &over, TDATA1)?;
    disarm(&mut link, &over, 0)?;
    let _slot = arm(&mut link, &over, SlotUse::Watch(WatchKind::Store, SECOND))?;
    let store = reg(&mut link, &over, TDATA1)?;
    disarm(&mut link, &over, 0)?;
    let _slot = arm(&mut link, &over, SlotUse::Watch(WatchKind::Access, SECOND))?;
    let access = reg(&mut link, &over, TDATA1)?;
    Ok(([armed, stopped, stepped, load, store, access], view))
}

/// A halted chip of a release that holds the program.
fn loaded_as(alloc: Global, version: Version) -> Result<Bench<SeedSchedule>, Fail> {
    let mut bench = Bench::blank();
    bench.load_version(
        alloc,
        PROGRAM,
        1,
        65_536,
        Start::Halted,
        SeedSchedule::new(7, 1, 1),
        version,
    )?;
    Ok(bench)
}

#[test]
fn slots_are_armed_by_what_tinfo_offers(rt: HostRuntime) -> Result<(), Fail> {
    let free = SlotUse::Free;
    let view = SlotView {
        used: [SlotUse::Break(SECOND), free, free, free],
        hits: SlotSet(1),
    };
    for (version, words) in [
        (
            Version::V013,
            [
                0x2800_0000_0000_1044,
                0x2800_0000_0010_1044,
                0x2800_0000_0000_1044,
                0x2800_0000_0000_1041,
                0x2800_0000_0000_1042,
                0x2800_0000_0000_1043,
            ],
        ),
        (
            Version::V10,
            [
                0x6800_0000_0000_1044,
                0x6800_0000_0040_1044,
                0x6800_0000_0000_1044,
                0x6800_0000_0000_1041,
                0x6800_0000_0000_1042,
                0x6800_0000_0000_1043,
            ],
        ),
    ] {
        let mut bench = loaded_as(rt.alloc(), version)?;
        assert_eq!(rt; words_over(&mut bench), Ok((words, view)));
    }
    Ok(())
}
