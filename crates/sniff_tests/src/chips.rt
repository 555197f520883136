//! A chip on its bench that is sniffed: the lines name as many operations as the chip has counted, where some were answered busy.

ghost use Rattle.std.specs.Prelude.{◌≡◌, [], IfOk, IsSome, IsSomeAnd, Some};
ghost use Rattle.chip_core.specs.Feeds.{said_of};
ghost use Rattle.chip_core.specs.Loads.{loaded};
ghost use Rattle.debug_model.specs.Loaded.{AsLoaded};
ghost use Rattle.hart_debug.specs.declared.start.Start.TheVariants.{Halted};
ghost use Rattle.sys_events.specs.Seed.{seed_plan};

use crate::streams::{
    AMPLE, RESET, SELECT_DMI, TO_IDLE, TO_SHIFT_DR, TO_SHIFT_IR, join, times, write_bits,
};
use chip_core::{Answers, Bench, LoadFault};
use chip_sniff::sniff_chip;
use hart_debug::Start;
use jt_base::MemorySink;
use std::alloc::{AllocError, Global};
use std::process::Abort;
use std::test::Fail;
use sys_events::SeedSchedule;
use wire_sniff::SniffEnd;

/// The five bits of the instruction 0x10, the lowest first, unasked.
const SELECT_DTMCS: &[u8] = b"0404040437";

/// How often an operation is followed at once by another.
const PAIRS: u32 = 6;

/// A chip with one hart that is halted, whose operations take up to 32 rounds.
fn chip_of(alloc: Global, seed: u64) -> Result<Bench<SeedSchedule>, LoadFault>
    ensures chip { IfOk result (λ bench. bench ≡ Some (loaded [] 1 65536 Halted (seed_plan seed 32 1))) }
    ensures as_loaded { IfOk result (λ bench. IsSomeAnd bench AsLoaded) }
{
    let mut bench = Bench::blank();
    let schedule = SeedSchedule::new(seed, 32, 1);
    bench.load(alloc, &[], 1, 65_536, Start::Halted, schedule)?;
    Ok(bench)
}

/// What the chip answers to these bytes.
fn answers_of(
    alloc: Global,
    bench: &mut Bench<SeedSchedule>,
    bytes: &[u8],
) -> Result<Vec<u8>, AllocError>
    requires { IsSome bench.old }
    ensures { IfOk result (λ answers. answers.items ≡ said_of bench.old bytes.now) }
{
    let mut all = Vec::new(alloc);
    for byte in bytes {
        let mut answers = Answers::new();
        bench.feed(&[*byte], &mut answers);
        all.extend_from_slice(&answers)?;
    }
    Ok(all)
}

/// The 41 asked bits of a read of dmstatus, at 0x11.
fn read_bits(alloc: Global) -> Result<Vec<u8>, AllocError> {
    let zeros = times(alloc, b"0R4", 33)?;
    join(
        alloc,
        &[b"1R5", &zeros, b"1R5", b"0R40R40R4", b"1R5", b"0R42R6"],
    )
}

/// A write and, before that is performed, a read; time for it; and a write of dmireset to dtmcs, which ends the status busy.
fn pair_bits(alloc: Global) -> Result<Vec<u8>, AllocError> {
    let (write, read) = (write_bits(alloc)?, read_bits(alloc)?);
    let idle = times(alloc, b"04", 40)?;
    let low = times(alloc, b"04", 16)?;
    let high = times(alloc, b"04", 14)?;
    join(
        alloc,
        &[
            TO_SHIFT_DR,
            &write,
            TO_IDLE,
            TO_SHIFT_DR,
            &read,
            TO_IDLE,
            &idle,
            TO_SHIFT_IR,
            SELECT_DTMCS,
            TO_IDLE,
            TO_SHIFT_DR,
            &low,
            b"15",
            &high,
            b"26",
            TO_IDLE,
            TO_SHIFT_IR,
            SELECT_DMI,
            TO_IDLE,
        ],
    )
}

/// How many of these lines begin so.
fn count_of(lines: &[u8], front: &[u8]) -> u64 {
    lines
        .split(|byte| *byte == b'\n')
        .filter(|line| line.starts_with(front))
        .count() as u64
}

/// How many scans of dmi were answered busy at the chip of this seed, where the lines name as many operations as it has performed.
fn check(rt: &impl Abort, alloc: Global, seed: u64, stream: &[u8]) -> Result<u64, Fail> {
    let mut first = chip_of(alloc, seed)?;
    let answers = answers_of(alloc, &mut first, stream)?;
    let mut bench = chip_of(alloc, seed)?;
    let mut out = MemorySink::new(alloc, AMPLE, Vec::new(alloc))?;
    let end = sniff_chip(&mut bench, stream, &answers, &mut out);
    assert_eq!(rt; end, SniffEnd::Clean);
    let (reads, writes) = (
        count_of(out.bytes(), b"dmi read 0x11"),
        count_of(out.bytes(), b"dmi write 0x10"),
    );
    let counts = bench.counts();
    assert!(rt; writes >= u64::from(PAIRS));
    assert!(rt; reads <= u64::from(PAIRS));
    assert_eq!(rt;
        (reads.saturating_add(writes), 0),
        (counts.dmi_done, counts.dmi_failed)
    );
    let busy = count_of(out.bytes(), b"dmi busy");
    assert_eq!(rt; busy, counts.dmi_busy);
    Ok(busy)
}

#[test]
fn the_lines_name_the_operations_that_were_performed(rt: HostRuntime) -> Result<(), Fail> {
    let alloc = rt.alloc();
    let pair = pair_bits(alloc)?;
    let pairs = times(alloc, &pair, PAIRS)?;
    let stream = join(alloc, &[RESET, TO_SHIFT_IR, SELECT_DMI, TO_IDLE, &pairs])?;
    let mut busy = 0u64;
    for seed in 0..8 {
        busy = busy.saturating_add(check(&rt, alloc, seed, &stream)?);
    }
    assert!(rt; busy > 0);
    Ok(())
}
