//! Chains that are served over nets: a device with an instruction register of 4 bits at TDO, the chip with its 5 bits, and one with 6 bits at TDI.
//!
//! Each answer is worked out from IEEE 1149.1: registers shift as one, the lowest bit of the one at TDO first, and BYPASS is one bit that captures 0. What a
//! device beside the chip shows behind a reset, 0x10000001, is this project's own choice.

ghost use Rattle.std.specs.Prelude.{◌≡◌, ◌<◌, IfOk, IfSome, IsSome, None};
ghost use Rattle.debug_model.specs.Loaded.{AsLoaded, RightLimit};

use arrayvec::ArrayVec;
use chain_bench::serve_in_chain;
use chain_scan::{ChainPlan, SIDES_MOST};
use chip_core::Bench;
use chip_server::Served;
use debug_model::{Event, Net, NetFault, POINTS_USUAL, Round, Schedule, WireFault};
use hart_debug::Start;
use jtag_net::MemoryNet;
use std::alloc::{AllocError, Global};
use std::process::Abort;
use std::test::Fail;
use sys_events::ListSchedule;

/// The bytes of the smallest RAM.
const RAM_LEAST: u64 = 65_536;

/// Room for all answers.
const AMPLE: usize = 4096;

/// The number of a call that no test makes.
const NO_FAILURE: u32 = 1000;

/// Five clocks with TMS 1: to Test-Logic-Reset, from anywhere.
const RESET: &[u8] = b"2626262626";

/// From Test-Logic-Reset or Run-Test/Idle over Select-DR and Capture-DR to Shift-DR.
const TO_DR: &[u8] = b"04260404";

/// From Test-Logic-Reset or Run-Test/Idle over Select-DR, Select-IR and Capture-IR to Shift-IR.
const TO_IR: &[u8] = b"0426260404";

/// From Exit1 over Update to Run-Test/Idle, behind the last bit of a scan.
const TO_IDLE: &[u8] = b"2604";

/// The bits of 0x10d64001, the chip's identification.
const CHIP: &[u8] = b"10000000000000100110101100001000";

/// The bits of 0x10000001.
const OTHER: &[u8] = b"10000000000000000000000000001000";

/// What goes in so that the devices select BYPASS, which is all ones, and the chip IDCODE, which is 1: the bits that come to rest at TDO first.
const CODES: &[u8] = b"111110000111111";

/// What the instruction registers of 4, 5 and 6 bits capture: 1 in each.
const CAPTURED: &[u8] = b"100010000100000";

/// A bench with one hart over memory of zeros, this round again and again, and this limit of points.
fn bench_of(alloc: Global, round: &[Event], most_points: u64) -> Result<Bench<ListSchedule>, Fail>
    requires { RightLimit most_points }
    ensures loaded { IfOk result IsSome }
    ensures fresh { IfOk result (λ bench. IfSome bench AsLoaded) }
{
    let mut rounds = Vec::new(alloc);
    rounds.push(Round::try_from(round)?)?;
    let mut bench = Bench::blank();
    let schedule = ListSchedule::new(rounds);
    bench.load_with_limit(
        alloc,
        &[],
        1,
        RAM_LEAST,
        Start::Running,
        schedule,
        most_points,
    )?;
    Ok(bench)
}

/// A device with this instruction register.
fn one(width: u8) -> ArrayVec<u8, SIDES_MOST> {
    let mut widths = ArrayVec::new();
    let _room = widths.try_push(width);
    widths
}

/// Appends a scan of these bits, each asked before it is shifted, from a Shift state to its Exit1.
fn scan(bytes: &mut Vec<u8>, bits: &[u8]) -> Result<(), AllocError> {
    for (place, bit) in bits.iter().enumerate() {
        let is_last = place + 1 == bits.len();
        match (is_last, *bit == b'1') {
            (false, false) => bytes.extend_from_slice(b"0R4")?,
            (false, true) => bytes.extend_from_slice(b"1R5")?,
            (true, false) => bytes.extend_from_slice(b"2R6")?,
            (true, true) => bytes.extend_from_slice(b"3R7")?,
        }
    }
    Ok(())
}

/// Appends a reset, and a scan that selects IDCODE in the chip and BYPASS in the others.
fn select(bytes: &mut Vec<u8>) -> Result<(), AllocError> {
    bytes.extend_from_slice(RESET)?;
    bytes.extend_from_slice(TO_IR)?;
    scan(bytes, CODES)?;
    bytes.extend_from_slice(TO_IDLE)
}

/// A reset, and a scan of all identifications with zeros.
fn identifications(alloc: Global) -> Result<Vec<u8>, AllocError> {
    let mut bytes = RESET.to_vec(alloc)?;
    bytes.extend_from_slice(TO_DR)?;
    scan(&mut bytes, &[b'0'; 96])?;
    bytes.extend_from_slice(TO_IDLE)?;
    Ok(bytes)
}

/// What that answers, behind these answers.
fn then_three(mut answers: Vec<u8>) -> Result<Vec<u8>, AllocError> {
    answers.extend_from_slice(OTHER)?;
    answers.extend_from_slice(CHIP)?;
    answers.extend_from_slice(OTHER)?;
    Ok(answers)
}

/// What comes to a chain, the most bytes of a piece, the room for the answers, and the call that is to fail: the first is the opening.
#[derive(Clone, Copy)]
struct Given<'a> {
    input: &'a [u8],
    piece: usize,
    room: usize,
    fail_at: u32,
}

/// How the serving is to end, and the answers that are to be put.
#[derive(Clone, Copy)]
struct Wanted<'a> {
    served: Served,
    answers: &'a [u8],
}

/// Opens the net, and serves the chip as one of the chain over it.
fn serve_first<N: Net, Q: Schedule>(
    alloc: Global,
    net: &mut N,
    bench: &mut Bench<Q>,
    plan: &ChainPlan,
) -> Result<Served, NetFault>
    requires unopened { (N.state net.old).ties.opening ≡ None }
    requires loaded { IsSome bench.old }
    requires fresh { IfSome bench.old AsLoaded }
{
    net.accept(alloc, "here")?;
    Ok(serve_in_chain(net, bench, plan))
}

/// Serves the chain of a bench that was just loaded.
fn check(
    rt: &impl Abort,
    alloc: Global,
    bench: &mut Bench<ListSchedule>,
    given: Given,
    wanted: Wanted,
) -> Result<(), Fail>
    requires piece { 0 < given.piece }
    requires loaded { IsSome bench.old }
    requires fresh { IfSome bench.old AsLoaded }
{
    let mut listed = Vec::new(alloc);
    listed.push(given.fail_at)?;
    let input = given.input.to_vec(alloc)?;
    let mut net = MemoryNet::new(alloc, input, given.piece, given.room, listed)?;
    let plan = ChainPlan::new(one(4), one(6)).ok_or("plan")?;
    let served = serve_first(alloc, &mut net, bench, &plan)?;
    assert_eq!(rt; served, wanted.served, "pieces of {}", given.piece);
    assert_eq!(rt; net.sent(), wanted.answers, "pieces of {}", given.piece);
    Ok(())
}

/// In pieces of each size, over a net that does not fail.
fn check_pieces(rt: &impl Abort, alloc: Global, input: &[u8], wanted: Wanted) -> Result<(), Fail> {
    for piece in [1, 2, 3, 256] {
        let given = Given {
            input,
            piece,
            room: AMPLE,
            fail_at: NO_FAILURE,
        };
        let mut bench = bench_of(alloc, &[Event::Turn(0)], POINTS_USUAL)?;
        check(rt, alloc, &mut bench, given, wanted)?;
    }
    Ok(())
}

#[test]
fn identifications_come_from_tdo_to_tdi(rt: HostRuntime) -> Result<(), Fail> {
    let alloc = rt.alloc();
    let input = identifications(alloc)?;
    let answers = then_three(Vec::new(alloc))?;
    let wanted = Wanted {
        served: Served::PeerEnded,
        answers: &answers,
    };
    check_pieces(&rt, alloc, &input, wanted)
}

// Each device in BYPASS adds one bit, a 0, and behind them comes what went in.
#[test]
fn bypass_adds_a_bit_for_each_device(rt: HostRuntime) -> Result<(), Fail> {
    let alloc = rt.alloc();
    let mut input = Vec::new(alloc);
    select(&mut input)?;
    input.extend_from_slice(TO_DR)?;
    scan(&mut input, &[b'0'; 35])?;
    let mut answers = CAPTURED.to_vec(alloc)?;
    answers.extend_from_slice(b"0")?;
    answers.extend_from_slice(CHIP)?;
    answers.extend_from_slice(b"00")?;
    let wanted = Wanted {
        served: Served::PeerEnded,
        answers: &answers,
    };
    check_pieces(&rt, alloc, &input, wanted)
}

// `t` and `r` are TRST 1 and 0, amid a shift: it reaches all devices, so each shows its identification again.
#[test]
fn trst_reaches_each_device(rt: HostRuntime) -> Result<(), Fail> {
    let alloc = rt.alloc();
    let mut input = Vec::new(alloc);
    select(&mut input)?;
    input.extend_from_slice(TO_DR)?;
    input.extend_from_slice(b"0R4tRr")?;
    input.extend_from_slice(TO_DR)?;
    scan(&mut input, &[b'0'; 96])?;
    let mut front = CAPTURED.to_vec(alloc)?;
    front.extend_from_slice(b"00")?;
    let answers = then_three(front)?;
    let wanted = Wanted {
        served: Served::PeerEnded,
        answers: &answers,
    };
    check_pieces(&rt, alloc, &input, wanted)
}

// A scan of all identifications has 310 bytes: 18 to Shift-DR, three for each of 96 bits, and four back.
#[test]
fn nothing_is_taken_behind_an_end(rt: HostRuntime) -> Result<(), Fail> {
    let alloc = rt.alloc();
    let cases: [(&[u8], Served, &[u8]); 3] = [
        (b"Q0R4", Served::Quit, b""),
        (b"x0R4", Served::Bad(310, b'x'), b""),
        (b"B0Rb", Served::PeerEnded, b"0"),
    ];
    for (end, served, asked) in cases {
        let mut input = identifications(alloc)?;
        input.extend_from_slice(end)?;
        let mut answers = then_three(Vec::new(alloc))?;
        answers.extend_from_slice(asked)?;
        let wanted = Wanted {
            served,
            answers: &answers,
        };
        check_pieces(&rt, alloc, &input, wanted)?;
    }
    Ok(())
}

// The calls are: the opening, a take of 256 bytes, a put, a take of the 54 others, a put, and the take that finds the end. The first piece has 18 bytes to
// Shift-DR, 79 bits, and one byte of the next.
#[test]
fn a_net_that_fails_is_told(rt: HostRuntime) -> Result<(), Fail> {
    let alloc = rt.alloc();
    let input = identifications(alloc)?;
    let answers = then_three(Vec::new(alloc))?;
    let takes = Served::NetFailed(WireFault::RecvFailed);
    let puts = Served::NetFailed(WireFault::SendFailed);
    let cases: [(usize, u32, Served, usize); 5] = [
        (AMPLE, 1, takes, 0),
        (AMPLE, 2, puts, 0),
        (AMPLE, 3, takes, 79),
        (AMPLE, 5, takes, 96),
        (79, NO_FAILURE, puts, 79),
    ];
    for (room, fail_at, served, count) in cases {
        let given = Given {
            input: &input,
            piece: 256,
            room,
            fail_at,
        };
        let wanted = Wanted {
            served,
            answers: answers.get(..count).ok_or("answers")?,
        };
        let mut bench = bench_of(alloc, &[Event::Turn(0)], POINTS_USUAL)?;
        check(&rt, alloc, &mut bench, given, wanted)?;
    }
    Ok(())
}

// 120 points are 24 rounds of five turns. The rise behind them still takes its round, and the next one none: of these 25 rises 9 lead to the registers, and 16
// shift them. One more bit is answered.
#[test]
fn the_limit_ends_the_serving(rt: HostRuntime) -> Result<(), Fail> {
    let alloc = rt.alloc();
    let input = identifications(alloc)?;
    let answers = then_three(Vec::new(alloc))?;
    let given = Given {
        input: &input,
        piece: 256,
        room: AMPLE,
        fail_at: NO_FAILURE,
    };
    let wanted = Wanted {
        served: Served::Limit,
        answers: answers.get(..17).ok_or("answers")?,
    };
    let mut bench = bench_of(alloc, &[Event::Turn(0); 5], 120)?;
    check(&rt, alloc, &mut bench, given, wanted)?;
    assert!(rt; bench.at_limit());
    assert_eq!(rt; bench.counts().rounds, 25);
    Ok(())
}
