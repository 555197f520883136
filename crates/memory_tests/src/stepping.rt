//! Single steps of loaded chips. Each does one instruction, and behind it the step flag and stepie are off, and ebreakm as it was.

ghost use Rattle.std.specs.Prelude.{IfOk, IfSome, IsSome};
ghost use Rattle.chip_core.specs.Loads.{IsFirst};
ghost use Rattle.debug_model.specs.Kept.{CanCall};
ghost use Rattle.debug_model.specs.Loaded.{AsLoaded};
ghost use Rattle.debug_model.specs.Told.{IsAsLoaded};

use chip_core::{Bench, BenchWire};
use debug_model::{Dmi, Event, Round, Schedule};
use hart_debug::Start;
use link_tests::Fault;
use probe_access::{AccessFault, Stop, reg, set_reg, step, stop};
use probe_dmi::Link;
use probe_run::{RunFault, Seen, connect};
use probe_scan::Scanner;
use std::alloc::Global;
use std::test::Fail;
use sys_events::{ListSchedule, SeedSchedule};

/// x5 = 5; then x5 = x5 + 1 again and again.
const PROGRAM: &[u8] = &[
    0x93, 0x02, 0x50, 0x00, 0x93, 0x82, 0x12, 0x00, 0x6f, 0xf0, 0xdf, 0xff,
];

/// The bytes of the smallest RAM.
const RAM_LEAST: u64 = 65_536;

/// The bytes of a piece.
const PIECE: usize = 256;

/// Register numbers of the standard: x5 and dcsr.
const X5: u16 = 0x1005;

const DCSR: u16 = 0x7b0;

/// Where the hart stands behind two steps.
#[derive(Clone, Copy, Debug, PartialEq, Eq)]
struct Stepped {
    first: Stop,
    second: Stop,
    x5: u64,
    dcsr: u64,
}

/// Opens the chip, writes this to `dcsr` of hart 0, which is halted, and makes two steps with it.
fn step_twice<D: Dmi>(link: &mut D, written: u64) -> Result<Stepped, Fault>
    requires callable { CanCall (D.seen link.old) }
    requires loaded { IsAsLoaded (D.seen link.old).far }
{
    let target = connect(link)?;
    let Seen::Halted(halted) = target.look(link, 0)? else {
        return Err(Fault::SeenOtherwise);
    };
    set_reg(link, &halted, DCSR, written)?;
    let once = step(link, halted)?;
    let first = stop(link, &once)?;
    let twice = step(link, once)?;
    let second = stop(link, &twice)?;
    let x5 = reg(link, &twice, X5)?;
    let dcsr = reg(link, &twice, DCSR)?;
    Ok(Stepped {
        first,
        second,
        x5,
        dcsr,
    })
}

fn step_over<Q: Schedule>(bench: &mut Bench<Q>, written: u64) -> Result<Stepped, Fault>
    requires loaded { IsSome bench.old }
    requires fresh { IfSome bench.old AsLoaded }
{
    let mut link = Link::new(Scanner::new(BenchWire::new(bench, PIECE)));
    step_twice(&mut link, written)
}

#[test]
fn a_step_does_one_instruction(rt: HostRuntime) -> Result<(), Fail> {
    // none of its fields, ebreakm, and that with stepie and step
    let cases = [
        (1, 0, 0x4000_0103),
        (32, 0, 0x4000_0103),
        (1, 0x8000, 0x4000_8103),
        (32, 0x8804, 0x4000_8103),
    ];
    for (busy, written, dcsr) in cases {
        let mut bench = Bench::blank();
        let schedule = SeedSchedule::new(7, busy, 2);
        bench.load(rt.alloc(), PROGRAM, 2, RAM_LEAST, Start::Halted, schedule)?;
        let wanted = Stepped {
            first: Stop {
                pc: 0x8000_0004,
                cause: 4,
            },
            second: Stop {
                pc: 0x8000_0008,
                cause: 4,
            },
            x5: 6,
            dcsr,
        };
        assert_eq!(rt; step_over(&mut bench, written), Ok(wanted));
    }
    Ok(())
}

/// A schedule in which every part of the debug module has its event in each round, and no hart a turn.
fn without_turns(alloc: Global) -> Result<ListSchedule, Fail>
    ensures { IfOk result (λ schedule. IsFirst schedule) }
{
    let mut round = Round::new();
    round.push(Event::DmiDone);
    round.push(Event::CmdStep);
    let mut rounds = Vec::new(alloc);
    rounds.push(round)?;
    Ok(ListSchedule::new(rounds))
}

#[test]
fn a_hart_without_turns_makes_no_step(rt: HostRuntime) -> Result<(), Fail> {
    let alloc = rt.alloc();
    let mut bench = Bench::blank();
    bench.load(
        alloc,
        PROGRAM,
        1,
        RAM_LEAST,
        Start::Halted,
        without_turns(alloc)?,
    )?;
    assert_eq!(rt;
        step_over(&mut bench, 0),
        Err(Fault::Access(AccessFault::Run(RunFault::NoAck(64))))
    );
    Ok(())
}
