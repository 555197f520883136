//! Breaks and counts of loaded chips: where they stop the hart, and stepping over them. Where it stops and why is RISC-V Debug Specification 1.0,
//! "Debug Control and Status" and "Sdtrig (ISA Extension)".

ghost use Rattle.std.specs.Prelude.{◌≤◌, IfSome, IsSome};
ghost use Rattle.debug_model.specs.Kept.{CanCall};
ghost use Rattle.debug_model.specs.Loaded.{AsLoaded};
ghost use Rattle.debug_model.specs.Told.{IsAsLoaded};

use crate::fault::Fault;
use crate::standing::{At, PROGRAM, go, halted_hart, loaded, see, standing};
use chip_core::{Bench, BenchWire};
use debug_model::{Dmi, Schedule, SlotUse};
use probe_access::{reg, set_reg};
use probe_dmi::Link;
use probe_run::connect;
use probe_scan::Scanner;
use probe_trig::{Gone, arm, forget_hits, let_go, step_over};
use std::alloc::Global;
use std::process::Abort;
use std::test::Fail;

/// The instruction `ebreak`, 0x00100073.
const EBREAK: &[u8] = &[0x73, 0x00, 0x10, 0x00];

/// The bytes of a piece.
const PIECE: usize = 256;

/// The number of `dcsr`, and `ebreakm` there.
const DCSR: u16 = 0x7b0;

const EBREAKM: u64 = 1 << 15;

/// One break: the slot that is armed, where the hart stops, and where it stands behind the step.
fn one_break<D: Dmi>(link: &mut D) -> Result<(u8, At, At), Fault>
    requires callable { CanCall (D.seen link.old) }
    requires loaded { IsAsLoaded (D.seen link.old).far }
{
    let target = connect(link)?;
    let halted = halted_hart(link, &target, 0)?;
    let slot = arm(link, &halted, SlotUse::Break(0x8000_0008))?;
    let halted = go(link, &target, halted)?;
    let stopped = see(link, &halted)?;
    let halted = step_over(link, halted)?;
    let stepped = see(link, &halted)?;
    Ok((slot, stopped, stepped))
}

/// Two breaks, the second at the instruction behind the first: the hart is let go, stepped over the first, and let go again and again.
fn two_breaks<D: Dmi>(link: &mut D) -> Result<[At; 5], Fault>
    requires callable { CanCall (D.seen link.old) }
    requires loaded { IsAsLoaded (D.seen link.old).far }
{
    let target = connect(link)?;
    let halted = halted_hart(link, &target, 0)?;
    let _first = arm(link, &halted, SlotUse::Break(0x8000_0004))?;
    let _second = arm(link, &halted, SlotUse::Break(0x8000_0008))?;
    let halted = go(link, &target, halted)?;
    let stopped = see(link, &halted)?;
    let halted = step_over(link, halted)?;
    let stepped = see(link, &halted)?;
    let halted = go(link, &target, halted)?;
    let again = see(link, &halted)?;
    let halted = go(link, &target, halted)?;
    let around = see(link, &halted)?;
    forget_hits(link, &halted)?;
    let forgotten = see(link, &halted)?;
    Ok([stopped, stepped, again, around, forgotten])
}

/// A break at an ebreak that halts: neither a step nor a resume gets past it, and the hit stays.
fn break_at_ebreak<D: Dmi>(link: &mut D) -> Result<[At; 3], Fault>
    requires callable { CanCall (D.seen link.old) }
    requires loaded { IsAsLoaded (D.seen link.old).far }
{
    let target = connect(link)?;
    let halted = halted_hart(link, &target, 0)?;
    let dcsr = reg(link, &halted, DCSR)?;
    set_reg(link, &halted, DCSR, dcsr | EBREAKM)?;
    let _slot = arm(link, &halted, SlotUse::Break(0x8000_0000))?;
    let halted = go(link, &target, halted)?;
    let stopped = see(link, &halted)?;
    let halted = step_over(link, halted)?;
    let stepped = see(link, &halted)?;
    let Gone::Stopped(halted) = let_go(link, halted)? else {
        return Err(Fault::SeenOtherwise);
    };
    let kept = see(link, &halted)?;
    Ok([stopped, stepped, kept])
}

/// A count of one turn, which runs out in the step, and stops the hart as soon as it is let go.
fn count_runs_out<D: Dmi>(link: &mut D) -> Result<[At; 3], Fault>
    requires callable { CanCall (D.seen link.old) }
    requires loaded { IsAsLoaded (D.seen link.old).far }
{
    let target = connect(link)?;
    let halted = halted_hart(link, &target, 0)?;
    let _slot = arm(link, &halted, SlotUse::Count(1))?;
    let armed = see(link, &halted)?;
    let halted = step_over(link, halted)?;
    let stepped = see(link, &halted)?;
    let halted = go(link, &target, halted)?;
    let stopped = see(link, &halted)?;
    Ok([armed, stepped, stopped])
}

fn one_break_over<Q: Schedule>(bench: &mut Bench<Q>) -> Result<(u8, At, At), Fault>
    requires loaded { IsSome bench.old }
    requires fresh { IfSome bench.old AsLoaded }
{
    let mut link = Link::new(Scanner::new(BenchWire::new(bench, PIECE)));
    one_break(&mut link)
}

fn two_breaks_over<Q: Schedule>(bench: &mut Bench<Q>) -> Result<[At; 5], Fault>
    requires loaded { IsSome bench.old }
    requires fresh { IfSome bench.old AsLoaded }
{
    let mut link = Link::new(Scanner::new(BenchWire::new(bench, PIECE)));
    two_breaks(&mut link)
}

fn break_at_ebreak_over<Q: Schedule>(bench: &mut Bench<Q>) -> Result<[At; 3], Fault>
    requires loaded { IsSome bench.old }
    requires fresh { IfSome bench.old AsLoaded }
{
    let mut link = Link::new(Scanner::new(BenchWire::new(bench, PIECE)));
    break_at_ebreak(&mut link)
}

fn count_runs_out_over<Q: Schedule>(bench: &mut Bench<Q>) -> Result<[At; 3], Fault>
    requires loaded { IsSome bench.old }
    requires fresh { IfSome bench.old AsLoaded }
{
    let mut link = Link::new(Scanner::new(BenchWire::new(bench, PIECE)));
    count_runs_out(&mut link)
}

fn check_program(rt: &impl Abort, alloc: Global, harts: u8, busy: u8) -> Result<(), Fail>
    requires harts { (1 ≤ harts) × (harts ≤ 4) }
    requires busy { (1 ≤ busy) × (busy ≤ 32) }
{
    let free = SlotUse::Free;
    let mut bench = loaded(alloc, PROGRAM, harts, busy)?;
    let one = [SlotUse::Break(0x8000_0008), free, free, free];
    assert_eq!(rt;
        one_break_over(&mut bench),
        Ok((
            0,
            standing(0x8000_0008, 2, one, 1),
            standing(0x8000_0004, 4, one, 0)
        ))
    );
    let mut bench = loaded(alloc, PROGRAM, harts, busy)?;
    let two = [
        SlotUse::Break(0x8000_0004),
        SlotUse::Break(0x8000_0008),
        free,
        free,
    ];
    assert_eq!(rt;
        two_breaks_over(&mut bench),
        Ok([
            standing(0x8000_0004, 2, two, 1),
            standing(0x8000_0008, 4, two, 0),
            standing(0x8000_0008, 2, two, 2),
            standing(0x8000_0004, 2, two, 1),
            standing(0x8000_0004, 2, two, 0),
        ])
    );
    let mut bench = loaded(alloc, PROGRAM, harts, busy)?;
    assert_eq!(rt;
        count_runs_out_over(&mut bench),
        Ok([
            standing(0x8000_0000, 5, [SlotUse::Count(1), free, free, free], 0),
            standing(0x8000_0004, 4, [SlotUse::Count(0), free, free, free], 0),
            standing(0x8000_0004, 2, [SlotUse::Count(0), free, free, free], 1),
        ])
    );
    Ok(())
}

#[test]
fn slots_stop_the_hart_and_are_stepped_over(rt: HostRuntime) -> Result<(), Fail> {
    for harts in 1..=4 {
        check_program(&rt, rt.alloc(), harts, 1)?;
    }
    check_program(&rt, rt.alloc(), 2, 5)?;
    check_program(&rt, rt.alloc(), 1, 32)?;
    let mut bench = loaded(rt.alloc(), EBREAK, 1, 1)?;
    let free = SlotUse::Free;
    let one = [SlotUse::Break(0x8000_0000), free, free, free];
    assert_eq!(rt;
        break_at_ebreak_over(&mut bench),
        Ok([
            standing(0x8000_0000, 2, one, 1),
            standing(0x8000_0000, 1, one, 1),
            standing(0x8000_0000, 1, one, 1),
        ])
    );
    Ok(())
}
