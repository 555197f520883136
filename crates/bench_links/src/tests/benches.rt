//! Benches and bytes as the tests use them.

ghost use Rattle.std.specs.Prelude.{◌≡◌, IfOk, IfSome, IsSome, None};
ghost use Rattle.debug_model.specs.Loaded.{AsLoaded, RightLimit};

use chip_core::Bench;
use debug_model::{Event, POINTS_USUAL, Round};
use hart_debug::Start;
use std::alloc::Global;
use std::test::Fail;
use sys_events::ListSchedule;

/// The word `ebreak`.
const IMAGE: &[u8] = &[0x73, 0x00, 0x10, 0x00];

/// The bytes of the smallest RAM.
const RAM_LEAST: u64 = 65_536;

/// Five clocks to Test-Logic-Reset, and then to Shift-DR, where each rise asks for a bit of the device identification: nine rises.
pub const TO_SHIFT: &[u8; 18] = b"262626262604260404";

/// 31 clocks in Shift-DR, each of which asks for a bit.
pub const SHIFTS: &[u8; 93] =
    b"0R40R40R40R40R40R40R40R40R40R40R40R40R40R40R40R40R40R40R40R40R40R40R40R40R40R40R40R40R40R40R4";

/// The last clock in Shift-DR, and then to Run-Test/Idle.
pub const TO_IDLE: &[u8; 7] = b"2R62604";

/// The bits of 0x10d64001, the lowest first: version 1, part 0x0d64, manufacturer 0.
pub const IDCODE: &[u8; 32] = b"10000000000000100110101100001000";

/// A bench with an image and one hart, whose rounds are all this one.
pub fn bench_of(alloc: Global, events: &[Event]) -> Result<Bench<ListSchedule>, Fail>
    ensures loaded { IfOk result IsSome }
    ensures fresh { IfOk result (λ bench. IfSome bench AsLoaded) }
    ensures live { IfOk result (λ bench. IfSome bench (λ l. l.ended ≡ None)) }
{
    bench_with_limit(alloc, events, POINTS_USUAL)
}

/// The same with this limit of points.
pub fn bench_with_limit(
    alloc: Global,
    events: &[Event],
    most_points: u64,
) -> Result<Bench<ListSchedule>, Fail>
    requires { RightLimit most_points }
    ensures loaded { IfOk result IsSome }
    ensures fresh { IfOk result (λ bench. IfSome bench AsLoaded) }
    ensures live { IfOk result (λ bench. IfSome bench (λ l. l.ended ≡ None)) }
{
    let mut rounds = Vec::new(alloc);
    if let Ok(round) = Round::try_from(events) {
        rounds.push(round)?;
    }
    let mut bench = Bench::blank();
    let schedule = ListSchedule::new(rounds);
    bench.load_with_limit(
        alloc,
        IMAGE,
        1,
        RAM_LEAST,
        Start::Halted,
        schedule,
        most_points,
    )?;
    Ok(bench)
}
