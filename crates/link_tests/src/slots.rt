//! Slots of loaded chips: the lowest free one is armed, one that someone else programmed is passed by, and another hart's slots stay
//! (RISC-V Debug Specification 1.0, "Sdtrig (ISA Extension)").

ghost use Rattle.std.specs.Prelude.{IfSome, IsSome};
ghost use Rattle.debug_model.specs.Kept.{CanCall};
ghost use Rattle.debug_model.specs.Loaded.{AsLoaded};
ghost use Rattle.debug_model.specs.Told.{IsAsLoaded};

use crate::fault::Fault;
use crate::standing::{PROGRAM, halted_hart, loaded};
use chip_core::{Bench, BenchWire};
use debug_model::{Dmi, Schedule, SlotUse, WatchKind};
use probe_access::set_reg;
use probe_dmi::Link;
use probe_run::connect;
use probe_scan::Scanner;
use probe_trig::{SlotView, TrigFault, arm, disarm, slots};
use rv_model::SlotSet;
use std::test::Fail;

/// The bytes of a piece.
const PIECE: usize = 256;

/// The numbers of `tselect` and `tdata1`.
const TSELECT: u16 = 0x7a0;

const TDATA1: u16 = 0x7a1;

/// An address trigger in Machine Mode that executes at `tdata2` or above, which no script arms.
const AT_LEAST: u64 = 0x6800_0000_0000_1144;

/// Slots of hart 1 beside one that nobody here programs, and those of hart 0; five are armed on hart 1, and one of them is freed twice.
fn fill_up<D: Dmi>(link: &mut D) -> Result<([Result<u8, TrigFault>; 4], SlotView, SlotView), Fault>
    requires callable { CanCall (D.seen link.old) }
    requires loaded { IsAsLoaded (D.seen link.old).far }
{
    let target = connect(link)?;
    let one = halted_hart(link, &target, 1)?;
    set_reg(link, &one, TSELECT, 1)?;
    set_reg(link, &one, TDATA1, AT_LEAST)?;
    let first = arm(link, &one, SlotUse::Watch(WatchKind::Load, 0x8000_0100))?;
    let second = arm(link, &one, SlotUse::Watch(WatchKind::Store, 0x8000_0101))?;
    let third = arm(link, &one, SlotUse::Watch(WatchKind::Access, u64::MAX))?;
    let full = arm(link, &one, SlotUse::Count(16_383));
    if let Err(TrigFault::NoFreeSlot) = full {
        let view = slots(link, &one)?;
        let zero = halted_hart(link, &target, 0)?;
        let other = slots(link, &zero)?;
        return Ok(([Ok(first), Ok(second), Ok(third), full], view, other));
    }
    Err(Fault::SeenOtherwise)
}

/// Five are armed, and slot 2 is freed twice.
fn free_twice<D: Dmi>(link: &mut D) -> Result<([u8; 4], SlotView), Fault>
    requires callable { CanCall (D.seen link.old) }
    requires loaded { IsAsLoaded (D.seen link.old).far }
{
    let target = connect(link)?;
    let halted = halted_hart(link, &target, 0)?;
    let what = SlotUse::Break(0x8000_0100);
    let a = arm(link, &halted, what)?;
    let b = arm(link, &halted, what)?;
    let c = arm(link, &halted, what)?;
    let d = arm(link, &halted, what)?;
    let Err(TrigFault::NoFreeSlot) = arm(link, &halted, what) else {
        return Err(Fault::SeenOtherwise);
    };
    disarm(link, &halted, 2)?;
    let Err(TrigFault::NotInUse) = disarm(link, &halted, 2) else {
        return Err(Fault::SeenOtherwise);
    };
    let view = slots(link, &halted)?;
    Ok(([a, b, c, d], view))
}

fn fill_up_over<Q: Schedule>(
    bench: &mut Bench<Q>,
) -> Result<([Result<u8, TrigFault>; 4], SlotView, SlotView), Fault>
    requires loaded { IsSome bench.old }
    requires fresh { IfSome bench.old AsLoaded }
{
    let mut link = Link::new(Scanner::new(BenchWire::new(bench, PIECE)));
    fill_up(&mut link)
}

fn free_twice_over<Q: Schedule>(bench: &mut Bench<Q>) -> Result<([u8; 4], SlotView), Fault>
    requires loaded { IsSome bench.old }
    requires fresh { IfSome bench.old AsLoaded }
{
    let mut link = Link::new(Scanner::new(BenchWire::new(bench, PIECE)));
    free_twice(&mut link)
}

#[test]
fn slots_are_armed_from_the_lowest_on(rt: HostRuntime) -> Result<(), Fail> {
    let free = SlotUse::Free;
    let none = SlotSet(0);
    let mut bench = loaded(rt.alloc(), PROGRAM, 2, 1)?;
    let used = [
        SlotUse::Watch(WatchKind::Load, 0x8000_0100),
        SlotUse::Other(AT_LEAST),
        SlotUse::Watch(WatchKind::Store, 0x8000_0101),
        SlotUse::Watch(WatchKind::Access, u64::MAX),
    ];
    assert_eq!(rt;
        fill_up_over(&mut bench),
        Ok((
            [Ok(0), Ok(2), Ok(3), Err(TrigFault::NoFreeSlot)],
            SlotView { used, hits: none },
            SlotView {
                used: [free; 4],
                hits: none
            }
        ))
    );
    let mut bench = loaded(rt.alloc(), PROGRAM, 1, 1)?;
    let armed = SlotUse::Break(0x8000_0100);
    assert_eq!(rt;
        free_twice_over(&mut bench),
        Ok((
            [0, 1, 2, 3],
            SlotView {
                used: [armed, armed, free, armed],
                hits: none
            }
        ))
    );
    Ok(())
}
