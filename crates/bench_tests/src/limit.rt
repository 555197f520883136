//! The limit of points, which a rise meets.

ghost use Rattle.std.specs.Prelude.{IfOk, IsSome};
ghost use Rattle.debug_model.specs.Loaded.{RightLimit};

use crate::bench::{Listed, bench_of, feed, listed};
use chip_core::{Bench, Fed, LoadFault};
use debug_model::Event;
use hart_debug::Start;
use std::alloc::Global;
use std::process::Abort;
use std::test::Fail;

/// A round of five turns.
const CROWDED: &[Event] = &[Event::Turn(0); 5];

/// 128 clocks of TCK.
fn clocks() -> [u8; 256] {
    let mut bytes = [b'0'; 256];
    for rise in 0..128 {
        bytes[2 * rise + 1] = b'4';
    }
    bytes
}

/// How many pieces of 128 rises are taken whole, and what the next one answers. At most 30,000 pieces are fed.
fn feed_to_an_end(bench: &mut Listed) -> (u32, Fed) {
    let bytes = clocks();
    for count in 0..30_000 {
        if !bench.is_loaded() {
            return (count, Fed::All);
        }
        let (fed, _) = feed(bench, &bytes);
        if fed != Fed::All {
            return (count, fed);
        }
    }
    (30_000, Fed::All)
}

/// A chip whose hart stands halted takes so many pieces whole, and ends at this place of the next one, behind so many rises in all and five turns in each.
fn check_limit(rt: &impl Abort, bench: Listed, pieces: u32, place: usize, rises: u64) {
    let mut bench = bench;
    assert_eq!(rt;
        feed_to_an_end(&mut bench),
        (pieces, Fed::EventLimit(place))
    );
    assert!(rt; bench.at_limit());
    assert_eq!(rt; bench.counts().rounds, rises);
    let journal = bench.journal();
    assert_eq!(rt;
        (journal.len(), journal.turns()),
        (rises.wrapping_mul(5), rises.wrapping_mul(5))
    );
    if bench.is_loaded() {
        let (again, _) = feed(&mut bench, b"R0");
        assert_eq!(rt; again, Fed::EventLimit(0));
    }
}

// 16,777,200 points are 3,355,440 rounds of five turns. The rise behind them still takes its round, and the next one
// none: so 3,355,441 rises are taken, which is 26,214 pieces of 128 and 49 more.
#[test]
fn the_usual_limit_is_met_at_its_rise(rt: HostRuntime) -> Result<(), Fail> {
    let bench = bench_of(rt.alloc(), 1, Start::Halted, CROWDED)?;
    check_limit(&rt, bench, 26_214, 99, 3_355_441);
    Ok(())
}

/// A bench whose chip has this limit.
fn limited(alloc: Global, most_points: u64) -> Result<Listed, LoadFault>
    requires { RightLimit most_points }
    ensures { IfOk result (λ b. IsSome b) }
{
    let mut bench = Bench::blank();
    let schedule = listed(alloc, CROWDED)?;
    bench.load_with_limit(alloc, &[], 1, 65_536, Start::Halted, schedule, most_points)?;
    Ok(bench)
}

// The first rise finds no point, the second one five, and the fourth one fifteen.
#[test]
fn a_limit_that_is_given_is_met_at_its_rise(rt: HostRuntime) -> Result<(), Fail> {
    let alloc = rt.alloc();
    check_limit(&rt, limited(alloc, 1)?, 0, 3, 1);
    check_limit(&rt, limited(alloc, 14)?, 0, 7, 3);
    check_limit(&rt, limited(alloc, 15)?, 0, 9, 4);
    Ok(())
}
