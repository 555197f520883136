//! Benches as the tests use them.

ghost use Rattle.std.specs.Prelude.{◌≤◌, IfOk, IsSome, length};
ghost use Rattle.debug_model.specs.Wire.{piece_most};

use arrayvec::ArrayVec;
use chip_core::{Answers, Bench, Fed, LoadFault};
use debug_model::{Event, Round};
use hart_debug::Start;
use std::alloc::Global;
use sys_events::ListSchedule;

pub type Listed = Bench<ListSchedule>;

/// A bench with so many harts, memory of zeros, and this round again and again.
pub fn bench_of(
    alloc: Global,
    harts: u64,
    start: Start,
    round: &[Event],
) -> Result<Listed, LoadFault>
    ensures { IfOk result (λ b. IsSome b) }
{
    let mut bench = Bench::blank();
    bench.load(alloc, &[], harts, 65_536, start, listed(alloc, round)?)?;
    Ok(bench)
}

/// A schedule of this round alone: of its first eight events.
pub fn listed(alloc: Global, round: &[Event]) -> Result<ListSchedule, LoadFault> {
    let mut events = Round::new();
    for event in round {
        if !events.is_full() {
            events.push(*event);
        }
    }
    let mut rounds = Vec::new(alloc);
    if rounds.push(events).is_err() {
        return Err(LoadFault::NoMemory);
    }
    Ok(ListSchedule::new(rounds))
}

/// What a feed of these bytes answers, and the answers of the chip.
pub fn feed(bench: &mut Listed, bytes: &[u8]) -> (Fed, Answers)
    requires loaded { IsSome bench.old }
    requires few { length bytes.now ≤ piece_most }
    ensures { IsSome bench.new }
{
    let mut answers = ArrayVec::new();
    let fed = bench.feed(bytes, &mut answers);
    (fed, answers)
}
