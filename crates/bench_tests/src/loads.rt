//! What a load refuses, and in which order; what it puts in the place of a chip that was there.

ghost use Rattle.std.specs.Prelude.{IfOk, IfSome};
ghost use Rattle.debug_model.specs.Loaded.{AsLoaded};

use crate::bench::{bench_of, feed, listed};
use chip_core::{Bench, Fed, LoadFault};
use debug_model::{Counts, Event};
use hart_debug::Start;
use rv_model::Size;
use std::alloc::Global;
use std::process::Abort;
use std::test::Fail;
use sys_events::SeedSchedule;

/// A chip as loaded, with the schedule of a seed.
fn seeded(alloc: Global, image: &[u8]) -> Result<Bench<SeedSchedule>, LoadFault>
    ensures { IfOk result (λ b. IfSome b AsLoaded) }
{
    let mut bench = Bench::blank();
    let schedule = SeedSchedule::new(7, 2, 3);
    bench.load(alloc, image, 3, 65_536, Start::Halted, schedule)?;
    Ok(bench)
}

#[test]
fn a_seeded_bench_has_its_image_and_harts(rt: HostRuntime) -> Result<(), Fail> {
    let bench = seeded(rt.alloc(), b"\x13\x00\x00\x00")?;
    assert_eq!(rt; bench.harts().len(), 3);
    for hart in bench.harts() {
        assert!(rt; hart.is_halted());
    }
    assert!(rt; bench.journal().is_empty());
    assert_eq!(rt; bench.counts().rounds, 0);
    Ok(())
}

/// A load of an image of so many bytes gives the fault of this number, and leaves the bench.
fn check_refusal(
    rt: &impl Abort,
    alloc: Global,
    length: usize,
    harts: u64,
    ram: u64,
    number: u8,
) -> Result<(), Fail> {
    let image = vec![in alloc; 0; length]?;
    let mut bench = bench_of(alloc, 2, Start::Running, &[Event::Turn(1)])?;
    if bench.is_loaded() {
        feed(&mut bench, b"04");
    }
    let schedule = listed(alloc, &[])?;
    let result = bench.load(alloc, &image, harts, ram, Start::Running, schedule);
    assert_eq!(rt; result.map_err(|fault| fault.number()), Err(number));
    assert_eq!(rt; bench.harts().len(), 2);
    assert_eq!(rt; bench.journal().len(), 1);
    Ok(())
}

#[test]
fn refusals_come_in_order(rt: HostRuntime) -> Result<(), Fail> {
    let alloc = rt.alloc();
    check_refusal(&rt, alloc, 65_537, 0, 65_537, 3)?;
    check_refusal(&rt, alloc, 0, 5, 65_536, 3)?;
    check_refusal(&rt, alloc, 65_537, 1, 65_537, 2)?;
    check_refusal(&rt, alloc, 65_537, 1, 65_536, 1)?;
    Ok(())
}

#[test]
fn an_image_may_fill_ram_and_starts_anew(rt: HostRuntime) -> Result<(), Fail> {
    let alloc = rt.alloc();
    let image = vec![in alloc; 1; 65_536]?;
    let mut bench = bench_of(alloc, 2, Start::Running, &[Event::Turn(1)])?;
    if bench.is_loaded() {
        let (ended, _) = feed(&mut bench, b"04Q");
        assert_eq!(rt; ended, Fed::Quit(2));
    }
    let schedule = listed(alloc, &[])?;
    let loaded = bench.load(alloc, &image, 4, 65_536, Start::Running, schedule);
    assert_eq!(rt; loaded, Ok(()));
    assert_eq!(rt; bench.harts().len(), 4);
    assert!(rt; bench.journal().is_empty());
    if bench.is_loaded() {
        assert_eq!(rt; bench.ram().load(0x8000_ffff, Size::B1), Ok(1));
        let (fed, _) = feed(&mut bench, b"04");
        assert_eq!(rt; fed, Fed::All);
    }
    Ok(())
}

#[test]
fn a_blank_bench_has_nothing(rt: HostRuntime) {
    let bench = Bench::<SeedSchedule>::blank();
    assert!(rt; !bench.is_loaded());
    assert!(rt; bench.harts().is_empty());
    assert!(rt; bench.journal().is_empty());
    assert_eq!(rt; bench.counts(), Counts::default());
    assert!(rt; !bench.at_limit());
}
