//! How sessions end over a chip whose schedule a test lists: the statuses that no seed's schedule gives, and what is left then.

ghost use Rattle.std.specs.Prelude.{IfOk, IfSome, IsSome};
ghost use Rattle.debug_model.specs.Loaded.{AsLoaded, RightLimit};

mod unwritten;

use chip_core::Bench;
use debug_model::{Event, POINTS_USUAL, Round, Schedule, Script};
use hart_debug::Start;
use jt_base::{MemorySink, Sink};
use jtag_run::{Status, both_with};
use script_lang::parse;
use std::alloc::Global;
use std::test::Fail;
use sys_events::ListSchedule;

/// x5 = 5; then x5 = x5 + 1 again and again.
const PROGRAM: &[u8] = &[
    0x93, 0x02, 0x50, 0x00, 0x93, 0x82, 0x12, 0x00, 0x6f, 0xf0, 0xdf, 0xff,
];

/// The bytes of the smallest RAM.
const RAM_LEAST: u64 = 65_536;

/// Room for all rows of a dump.
const AMPLE: usize = 524_288;

/// The bytes of a piece.
const PIECE: usize = 256;

/// A chip as it is loaded: where its harts start, how many they are, its limit of points, and what happens in each round.
#[derive(Clone, Copy)]
struct Chip {
    start: Start,
    harts: u64,
    most_points: u64,
    events: Option<&'static [Event]>,
}

/// A chip with this program's harts, whose rounds are all the same one, or where there are no events have none.
fn chip_with(alloc: Global, chip: Chip) -> Result<Bench<ListSchedule>, Fail>
    requires { RightLimit chip.most_points }
    ensures loaded { IfOk result IsSome }
    ensures fresh { IfOk result (λ bench. IfSome bench AsLoaded) }
{
    let mut rounds = Vec::new(alloc);
    if let Some(events) = chip.events {
        if let Ok(round) = Round::try_from(events) {
            rounds.push(round)?;
        }
    }
    let mut bench = Bench::blank();
    bench.load_with_limit(
        alloc,
        PROGRAM,
        chip.harts,
        RAM_LEAST,
        chip.start,
        ListSchedule::new(rounds),
        chip.most_points,
    )?;
    Ok(bench)
}

/// One session on the chip of a bench, of which nothing is known here but that it ends.
fn run_fresh<Q: Schedule, K: Sink>(script: &Script, bench: &mut Bench<Q>, out: &mut K) -> Status
    requires loaded { IsSome bench.old }
    requires fresh { IfSome bench.old AsLoaded }
{
    both_with(script, bench, PIECE, out)
}

/// A round in which one hart has its turn.
const ONE_HART: &[Event] = &[
    Event::Turn(0),
    Event::DmiDone,
    Event::CmdStep,
    Event::BusDone,
];

/// A round in which an operation fails.
const FAILING: &[Event] = &[Event::Turn(0), Event::DmiFail];

/// A round in which no operation is done.
const SILENT: &[Event] = &[Event::Turn(0), Event::Turn(1)];

/// A round in which a command never gets on.
const STUCK: &[Event] = &[Event::Turn(0), Event::DmiDone, Event::BusDone];

/// A round of five turns, so that the limit of points is met early.
const CROWDED: &[Event] = &[
    Event::Turn(0),
    Event::Turn(0),
    Event::Turn(0),
    Event::Turn(0),
    Event::Turn(0),
    Event::DmiDone,
    Event::CmdStep,
    Event::BusDone,
];

/// A halted chip with one hart.
const HALTED: Chip = Chip {
    start: Start::Halted,
    harts: 1,
    most_points: POINTS_USUAL,
    events: Some(ONE_HART),
};

/// What a session came to.
#[derive(Drop)]
struct Outcome {
    status: u8,
    out: MemorySink,
    bench: Bench<ListSchedule>,
}

/// A session with this script.
fn ended_over(alloc: Global, chip: Chip, script: &str) -> Result<Outcome, Fail>
    requires { RightLimit chip.most_points }
{
    let mut bench = chip_with(alloc, chip)?;
    let script = parse(alloc, script.as_bytes())?;
    let mut out = MemorySink::new(alloc, AMPLE, Vec::new(alloc))?;
    let status = run_fresh(&script, &mut bench, &mut out).code();
    Ok(Outcome { status, out, bench })
}

// The second hart of two has no turn, so it never halts.
#[test]
fn sessions_that_are_lost_say_why(rt: HostRuntime) -> Result<(), Fail> {
    let cases: [(&[Event], &str, &str); 4] = [
        (
            ONE_HART,
            "hart 1\nhalt\n",
            "hart 1\nlost: no halt after 64 looks\n",
        ),
        (
            ONE_HART,
            "hart 1\nhalt\nidcode\n",
            "hart 1\nlost: no halt after 64 looks\n",
        ),
        (FAILING, "idcode\n", "lost: dmi failed\n"),
        (SILENT, "idcode\n", "lost: still busy\n"),
    ];
    for (events, script, printed) in cases {
        let chip = Chip {
            start: Start::Running,
            harts: 2,
            events: Some(events),
            ..HALTED
        };
        let lost = ended_over(rt.alloc(), chip, script)?;
        assert_eq!(rt; lost.status, 9);
        assert_eq!(rt; lost.out.bytes(), printed.as_bytes());
        assert!(rt; !lost.bench.at_limit());
    }
    Ok(())
}

// The first operation of the opening is dropped, and nothing is tried behind it.
#[test]
fn one_dropped_operation_loses_the_session(rt: HostRuntime) -> Result<(), Fail> {
    let chip = Chip {
        events: Some(FAILING),
        ..HALTED
    };
    let lost = ended_over(rt.alloc(), chip, "")?;
    assert_eq!(rt; lost.status, 9);
    assert_eq!(rt; lost.out.bytes(), b"lost: dmi failed\n".as_slice());
    let counts = lost.bench.counts();
    assert_eq!(rt;
        (counts.dmi_failed, counts.dmi_done, counts.dmi_busy),
        (1, 0, 0)
    );
    Ok(())
}

// Without a round nothing ever happens inside the chip, which answers busy as often as it is asked.
#[test]
fn a_chip_that_stands_still_is_asked_64_times(rt: HostRuntime) -> Result<(), Fail> {
    let chip = Chip {
        events: None,
        ..HALTED
    };
    let lost = ended_over(rt.alloc(), chip, "")?;
    assert_eq!(rt; lost.status, 9);
    assert_eq!(rt; lost.out.bytes(), b"lost: still busy\n".as_slice());
    let counts = lost.bench.counts();
    assert_eq!(rt;
        (counts.dmi_busy, counts.dmi_done, counts.dmi_failed),
        (64, 0, 0)
    );
    assert!(rt; lost.bench.journal().is_empty());
    Ok(())
}

// What comes before the polls is a Look and the command's own words, a dozen at most.
#[test]
fn a_command_that_never_ends_is_polled_64_times(rt: HostRuntime) -> Result<(), Fail> {
    let chip = Chip {
        events: Some(STUCK),
        ..HALTED
    };
    let opened = ended_over(rt.alloc(), chip, "")?;
    assert_eq!(rt; opened.status, 0);
    let lost = ended_over(rt.alloc(), chip, "count 5\nresume\nwait\nreg x5\n")?;
    assert_eq!(rt; lost.status, 9);
    assert_eq!(rt; lost.out.bytes(), b"lost: still busy\n".as_slice());
    let behind_the_opening = lost
        .bench
        .counts()
        .dmi_done
        .wrapping_sub(opened.bench.counts().dmi_done);
    assert!(rt; 64 < behind_the_opening && behind_the_opening <= 76);
    Ok(())
}

// A round adds five turns, and a Look where one is taken in it.
#[test]
fn a_thousand_long_waits_meet_the_usual_limit(rt: HostRuntime) -> Result<(), Fail> {
    let mut script = String::new(rt.alloc());
    'waits: for _ in 0..1000u16 {
        script.push_str("wait 1000\n")?;
    }
    let chip = Chip {
        start: Start::Running,
        events: Some(CROWDED),
        ..HALTED
    };
    let limited = ended_over(rt.alloc(), chip, &script)?;
    assert_eq!(rt; limited.status, 10);
    assert!(rt; limited.out.bytes().starts_with(b"running\nrunning\n"));
    assert!(rt; limited.out.bytes().ends_with(b"running\nevent limit\n"));
    assert!(rt; limited.bench.at_limit());
    let points = limited.bench.journal().len();
    assert!(rt; 16_777_200 < points && points <= 16_777_216);
    Ok(())
}

#[test]
fn a_session_that_meets_its_own_limit_says_so(rt: HostRuntime) -> Result<(), Fail> {
    let mut script = String::new(rt.alloc());
    'dumps: for _ in 0..64u8 {
        script.push_str("dump 0x80000000 16\n")?;
    }
    let chip = Chip {
        harts: 2,
        most_points: 500_000,
        events: Some(CROWDED),
        ..HALTED
    };
    let limited = ended_over(rt.alloc(), chip, &script)?;
    assert_eq!(rt; limited.status, 10);
    assert!(rt;
        limited
            .out
            .bytes()
            .starts_with(b"0x0000000080000000 93025000938212006ff0dfff00000000\n")
    );
    assert!(rt; limited.out.bytes().ends_with(b"00\nevent limit\n"));
    assert!(rt; limited.bench.at_limit());
    Ok(())
}
