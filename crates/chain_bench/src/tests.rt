//! Chains on a bench: what is shifted through all of them, scans of the chip around the others, TRST, and the limit.

ghost use Rattle.std.specs.Prelude.{◌≡◌, ◌≤◌, IfOk, IfSome, IsSome, length};
ghost use Rattle.debug_model.specs.Loaded.{AsLoaded, RightLimit};
ghost use Rattle.debug_model.specs.Wire.{piece_most};
ghost use Rattle.chain_bench.specs.Benched.{tck_of};

use crate::ChainBench;
use crate::sides::Sides;
use crate::taking::take_all;
use arrayvec::ArrayVec;
use chain_scan::{ChainPlan, ChainScanner, SIDES_MOST};
use chip_core::{Answers, Bench};
use debug_model::{Event, POINTS_USUAL, Round, Scan, WireFault};
use hart_debug::Start;
use jt_base::Bits;
use std::alloc::Global;
use std::test::Fail;
use sys_events::ListSchedule;

/// The word `ebreak`.
const IMAGE: &[u8] = &[0x73, 0x00, 0x10, 0x00];

/// The bytes of the smallest RAM.
const RAM_LEAST: u64 = 65_536;

/// Version 1, part 0x0d64, manufacturer 0, and the 1 that IEEE 1149.1 fixes.
const CHIP: u64 = 0x10d6_4001;

/// A device beside the chip: version 1, and 0 for the part number and the manufacturer.
const OTHER: u64 = 0x1000_0001;

/// Five clocks with TMS 1: to Test-Logic-Reset, from anywhere.
const RESET: &[u8] = b"2626262626";

/// From Test-Logic-Reset or Run-Test/Idle over Select-DR and Capture-DR to Shift-DR. The fall behind the last rise comes with the next clock.
const TO_DR: &[u8] = b"04260404";

/// From Test-Logic-Reset or Run-Test/Idle over Select-DR, Select-IR and Capture-IR to Shift-IR.
const TO_IR: &[u8] = b"0426260404";

/// Sixteen clocks in a Shift state with TDI 1.
const ONES: &[u8] = b"15151515151515151515151515151515";

/// From a Shift state over Exit1 and Update to Run-Test/Idle.
const TO_IDLE: &[u8] = b"26260404";

/// A bench with one hart, whose rounds are all this one.
fn bench_of(alloc: Global, events: &[Event], most_points: u64) -> Result<Bench<ListSchedule>, Fail>
    requires { RightLimit most_points }
    ensures loaded { IfOk result IsSome }
    ensures fresh { IfOk result (λ bench. IfSome bench AsLoaded) }
{
    let mut rounds = Vec::new(alloc);
    if let Ok(round) = Round::try_from(events) {
        rounds.push(round)?;
    }
    let mut bench = Bench::blank();
    let schedule = ListSchedule::new(rounds);
    bench.load_with_limit(
        alloc,
        IMAGE,
        1,
        RAM_LEAST,
        Start::Halted,
        schedule,
        most_points,
    )?;
    Ok(bench)
}

/// These lengths in the order of the list.
fn widths(list: &[u8]) -> ArrayVec<u8, SIDES_MOST> {
    let mut all = ArrayVec::new();
    for width in list {
        let _room = all.try_push(*width);
    }
    all
}

/// The number of these answers, the lowest bit first.
fn number(answers: &[u8]) -> u64 {
    let mut number = 0;
    for answer in answers.iter().rev() {
        number = number % (1 << 62) * 2 + u64::from(*answer == b'1');
    }
    number
}

/// So many bits out of a Shift state, the lowest first, with TDI 0.
fn shifted(bench: &mut Bench<ListSchedule>, sides: &mut Sides, bits: u8) -> u64
    requires loaded { IsSome bench.old }
    requires clock { sides.old.tck ≡ tck_of bench.old }
    ensures loaded { IsSome bench.new }
    ensures clock { sides.new.tck ≡ tck_of bench.new }
{
    let mut taken = ArrayVec::<u8, 64>::new();
    for _bit in 0..bits {
        let mut answers = Answers::new();
        take_all(bench, sides, b"0R4", &mut answers);
        let _room = taken.try_extend_from_slice(answers.as_slice());
    }
    number(taken.as_slice())
}

/// These bytes, none of which asks.
fn give(bench: &mut Bench<ListSchedule>, sides: &mut Sides, bytes: &[u8])
    requires most { length bytes.now ≤ piece_most }
    requires loaded { IsSome bench.old }
    requires clock { sides.old.tck ≡ tck_of bench.old }
    ensures loaded { IsSome bench.new }
    ensures clock { sides.new.tck ≡ tck_of bench.new }
{
    let mut answers = Answers::new();
    take_all(bench, sides, bytes, &mut answers);
}

#[test]
fn identifications_stand_one_behind_the_other(rt: HostRuntime) -> Result<(), Fail> {
    // The lengths near and far, and what is shifted out, from TDO towards TDI.
    let cases: [(&[u8], &[u8], [u64; 5]); 4] = [
        (&[2], &[8, 3], [OTHER, CHIP, OTHER, OTHER, 0]),
        (&[], &[5], [CHIP, OTHER, 0, 0, 0]),
        (&[7], &[], [OTHER, CHIP, 0, 0, 0]),
        (&[4, 6, 2], &[], [OTHER, OTHER, OTHER, CHIP, 0]),
    ];
    for (near, far, wanted) in cases {
        let mut bench = bench_of(rt.alloc(), &[Event::Turn(0)], POINTS_USUAL)?;
        let plan = ChainPlan::new(widths(near), widths(far)).ok_or("plan")?;
        let mut sides = Sides::new(&plan);
        give(&mut bench, &mut sides, RESET);
        give(&mut bench, &mut sides, TO_DR);
        for code in wanted {
            assert_eq!(rt; shifted(&mut bench, &mut sides, 32), code);
        }
        // Each rise is one round: of the reset, of the way to Shift-DR, and of the bits.
        assert_eq!(rt; bench.counts().rounds, 5 + 4 + 160);
    }
    Ok(())
}

#[test]
fn trst_reaches_all(rt: HostRuntime) -> Result<(), Fail> {
    let mut bench = bench_of(rt.alloc(), &[Event::Turn(0)], POINTS_USUAL)?;
    let plan = ChainPlan::new(widths(&[2]), widths(&[8])).ok_or("plan")?;
    let mut sides = Sides::new(&plan);
    give(&mut bench, &mut sides, RESET);
    give(&mut bench, &mut sides, TO_IR);
    // 2, 5 and 8 bits of ones: BYPASS everywhere.
    give(&mut bench, &mut sides, ONES);
    give(&mut bench, &mut sides, TO_IDLE);
    give(&mut bench, &mut sides, TO_DR);
    // Three bits of 0, and then what goes in, which is 0 too.
    give(&mut bench, &mut sides, b"15151515");
    assert_eq!(rt; shifted(&mut bench, &mut sides, 8), 0b111);
    // TRST 1 amid a shift, where clocks move nothing, and TRST 0.
    give(&mut bench, &mut sides, b"t");
    assert_eq!(rt; shifted(&mut bench, &mut sides, 8), 0);
    give(&mut bench, &mut sides, b"r");
    give(&mut bench, &mut sides, TO_DR);
    for code in [OTHER, CHIP, OTHER, 0] {
        assert_eq!(rt; shifted(&mut bench, &mut sides, 32), code);
    }
    Ok(())
}

/// The chip's identification through a scanner.
fn identified(bench: &mut Bench<ListSchedule>, plan: ChainPlan) -> Result<u64, WireFault>
    requires loaded { IsSome bench.old }
    requires fresh { IfSome bench.old AsLoaded }
{
    let mut scanner = ChainScanner::new(ChainBench::new(bench, &plan), plan);
    scanner.reset()?;
    Ok(scanner.dr(Bits::from_u64(0, 32))?.value())
}

#[test]
fn a_scanner_reads_the_chip_among_others(rt: HostRuntime) -> Result<(), Fail> {
    let cases: [(&[u8], &[u8]); 6] = [
        (&[], &[2]),
        (&[8], &[]),
        (&[3], &[5]),
        (&[2, 3, 4, 5, 6, 7, 8], &[]),
        (&[], &[8, 7, 6, 5, 4, 3, 2]),
        (&[8, 8, 8], &[8, 8, 8, 8]),
    ];
    for (near, far) in cases {
        let mut bench = bench_of(rt.alloc(), &[Event::Turn(0)], POINTS_USUAL)?;
        let plan = ChainPlan::new(widths(near), widths(far)).ok_or("plan")?;
        assert_eq!(rt; identified(&mut bench, plan)?, CHIP);
    }
    Ok(())
}

#[test]
fn a_chain_stops_at_the_limit_of_its_chip(rt: HostRuntime) -> Result<(), Fail> {
    // Each round has five turns, so the rise behind six rounds finds 30 points, and the one behind that more than 30.
    let mut bench = bench_of(rt.alloc(), &[Event::Turn(0); 5], 30)?;
    let plan = ChainPlan::new(widths(&[2]), widths(&[8])).ok_or("plan")?;
    assert_eq!(rt; identified(&mut bench, plan), Err(WireFault::Ended));
    assert!(rt; bench.at_limit());
    assert_eq!(rt; bench.counts().rounds, 7);
    Ok(())
}
