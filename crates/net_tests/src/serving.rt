//! Chips that are served over nets. The stream is IEEE 1149.1's path to the device identification register, and the answers are its bits, the lowest first.

ghost use Rattle.std.specs.Prelude.{◌≡◌, ◌<◌, IsSome, None};
ghost use Rattle.debug_model.specs.Loaded.{RightLimit};

use chip_core::Bench;
use chip_server::{Served, serve};
use debug_model::{End, Event, Net, NetFault, POINTS_USUAL, Round, Schedule, WireFault};
use hart_debug::Start;
use jtag_net::{MemoryNet, TcpNet};
use std::alloc::{AllocError, Global};
use std::process::Abort;
use std::test::Fail;
use sys_events::ListSchedule;

/// A reset of the TAP, a scan of its 32 bits, and two clocks back: 118 bytes, with 43 rises of TCK.
fn stream(alloc: Global) -> Result<Vec<u8>, AllocError> {
    let mut bytes = b"262626262604260404".to_vec(alloc)?;
    for _ in 0..31 {
        bytes.extend_from_slice(b"0R4")?;
    }
    bytes.extend_from_slice(b"2R62604")?;
    Ok(bytes)
}

/// Its first bytes, and then these.
fn front(alloc: Global, count: usize, then: &[u8]) -> Result<Vec<u8>, AllocError> {
    let mut bytes = stream(alloc)?;
    bytes.truncate(count);
    bytes.extend_from_slice(then)?;
    Ok(bytes)
}

/// The bits of 0x10d64001.
const IDCODE_BITS: &[u8] = b"10000000000000100110101100001000";

/// Room for all answers.
const AMPLE: usize = 4096;

/// The number of a call that no test makes.
const NO_FAILURE: u32 = 1000;

/// The bytes of the smallest RAM.
const RAM_LEAST: u64 = 65_536;

/// A bench with one hart over memory of zeros, this round again and again, and this limit of points.
fn bench_of(
    alloc: Global,
    start: Start,
    round: &[Event],
    most_points: u64,
) -> Result<Bench<ListSchedule>, Fail>
    requires { RightLimit most_points }
{
    let mut rounds = Vec::new(alloc);
    rounds.push(Round::try_from(round)?)?;
    let mut bench = Bench::blank();
    let schedule = ListSchedule::new(rounds);
    bench.load_with_limit(alloc, &[], 1, RAM_LEAST, start, schedule, most_points)?;
    Ok(bench)
}

/// A bench whose hart runs.
fn running(alloc: Global) -> Result<Bench<ListSchedule>, Fail> {
    bench_of(alloc, Start::Running, &[Event::Turn(0)], POINTS_USUAL)
}

/// What comes to a chip, how it is given, the room for the answers, and the call that is to fail: the first is the opening.
#[derive(Clone, Copy)]
struct Given<'a> {
    input: &'a [u8],
    piece: usize,
    room: usize,
    fail_at: u32,
}

/// How the serving is to end, and the answers that are to be put.
#[derive(Clone, Copy)]
struct Wanted<'a> {
    served: Served,
    answers: &'a [u8],
}

/// Opens the net, and serves the chip over it.
fn serve_first<N: Net, Q: Schedule>(
    alloc: Global,
    net: &mut N,
    bench: &mut Bench<Q>,
) -> Result<Served, NetFault>
    requires unopened { (N.state net.old).ties.opening ≡ None }
    requires loaded { IsSome bench.old }
{
    net.accept(alloc, "here")?;
    Ok(serve(net, bench))
}

/// Serves the chip of a bench, which is loaded.
fn check(
    rt: &impl Abort,
    alloc: Global,
    bench: &mut Bench<ListSchedule>,
    given: Given,
    wanted: Wanted,
) -> Result<(), Fail>
    requires { 0 < given.piece }
{
    let mut listed = Vec::new(alloc);
    listed.push(given.fail_at)?;
    let input = given.input.to_vec(alloc)?;
    let mut net = MemoryNet::new(alloc, input, given.piece, given.room, listed)?;
    assert!(rt; bench.is_loaded());
    let served = serve_first(alloc, &mut net, bench)?;
    assert_eq!(rt;
        served,
        wanted.served,
        "pieces of {}, call {}",
        given.piece, given.fail_at
    );
    assert_eq!(rt;
        net.sent(),
        wanted.answers,
        "pieces of {}, call {}",
        given.piece,
        given.fail_at
    );
    Ok(())
}

/// The stream's first bytes, and then these, in pieces of each size.
fn check_pieces(
    rt: &impl Abort,
    alloc: Global,
    count: usize,
    then: &[u8],
    wanted: Wanted,
) -> Result<(), Fail> {
    let input = front(alloc, count, then)?;
    for piece in [1, 2, 3, 256] {
        let given = Given {
            input: &input,
            piece,
            room: AMPLE,
            fail_at: NO_FAILURE,
        };
        check(rt, alloc, &mut running(alloc)?, given, wanted)?;
    }
    Ok(())
}

#[test]
fn streams_are_served_in_any_pieces(rt: HostRuntime) -> Result<(), Fail> {
    let cases: [(usize, &[u8], Served, &[u8]); 5] = [
        (0, b"", Served::PeerEnded, b""),
        (118, b"", Served::PeerEnded, IDCODE_BITS),
        (50, b"", Served::PeerEnded, b"10000000000"),
        (118, b"Q0R4", Served::Quit, IDCODE_BITS),
        (
            100,
            b"x0R4",
            Served::Bad(100, b'x'),
            b"100000000000001001101011000",
        ),
    ];
    for (count, then, served, answers) in cases {
        check_pieces(&rt, rt.alloc(), count, then, Wanted { served, answers })?;
    }
    Ok(())
}

/// The most bytes of a piece of half the stream.
const HALF: usize = 59;

// The calls are: the opening, a take, a put, a take, a put, and the take that finds the end. The first piece has 14 questions.
#[test]
fn a_net_that_fails_is_told(rt: HostRuntime) -> Result<(), Fail> {
    let alloc = rt.alloc();
    let input = stream(alloc)?;
    let first: &[u8] = b"10000000000000";
    let takes = Served::NetFailed(WireFault::RecvFailed);
    let puts = Served::NetFailed(WireFault::SendFailed);
    let cases: [(usize, u32, Served, &[u8]); 8] = [
        (AMPLE, 1, takes, b""),
        (AMPLE, 2, puts, b""),
        (AMPLE, 3, takes, first),
        (AMPLE, 4, puts, first),
        (AMPLE, 5, takes, IDCODE_BITS),
        (AMPLE, 6, Served::PeerEnded, IDCODE_BITS),
        (5, NO_FAILURE, puts, b"10000"),
        (14, NO_FAILURE, puts, first),
    ];
    for (room, fail_at, served, answers) in cases {
        let given = Given {
            input: &input,
            piece: HALF,
            room,
            fail_at,
        };
        let wanted = Wanted { served, answers };
        check(&rt, alloc, &mut running(alloc)?, given, wanted)?;
    }
    Ok(())
}

// 120 points are 24 rounds of five turns. The rise behind them still takes its round, and the next one none. Of these 25 rises 9 lead to the
// register, and 16 shift it. Behind them one more bit is answered, and none where the chip is served again.
#[test]
fn the_limit_ends_the_serving(rt: HostRuntime) -> Result<(), Fail> {
    let alloc = rt.alloc();
    let mut bench = bench_of(alloc, Start::Halted, &[Event::Turn(0); 5], 120)?;
    let input = stream(alloc)?;
    let given = Given {
        input: &input,
        piece: HALF,
        room: AMPLE,
        fail_at: NO_FAILURE,
    };
    let cases: [&[u8]; 2] = [b"10000000000000100", b""];
    for answers in cases {
        let served = Served::Limit;
        check(&rt, alloc, &mut bench, given, Wanted { served, answers })?;
        assert!(rt; bench.at_limit());
    }
    Ok(())
}

// The queues of the system hold what crosses between the two ends of one thread, and give a short piece whole.
#[test]
fn a_connection_to_itself_is_served(rt: HostRuntime) -> Result<(), Fail> {
    let alloc = rt.alloc();
    let mut bench = running(alloc)?;
    let mut net = TcpNet::new(&rt);
    net.join(alloc)?;
    net.put(End::Far, &stream(alloc)?)?;
    net.put(End::Far, b"Q")?;
    assert!(rt; bench.is_loaded());
    assert_eq!(rt; serve(&mut net, &mut bench), Served::Quit);
    let mut answers = [0; 32];
    let count = net.take(End::Far, &mut answers)?;
    assert_eq!(rt; (count, answers.as_slice()), (32, IDCODE_BITS));
    assert_eq!(rt; (net.faults(), net.ends()), (0, 0));
    Ok(())
}
