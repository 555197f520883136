//! Loops over nets that carry what is put, and over one that fails.

ghost use Rattle.std.specs.Prelude.{◌≡◌, ◌≤◌, ◌<◌, None, IfOk, IsTrue, length};
ghost use Rattle.debug_model.specs.Told.{IsOpen};
ghost use Rattle.debug_model.specs.Wire.{are_open, piece_most};
ghost use Rattle.chip_core.specs.Feeds.{far_of};

use super::benches::{IDCODE, SHIFTS, TO_IDLE, TO_SHIFT, bench_of};
use crate::LoopWire;
use debug_model::{Event, Net, NetFault, Wire, WireFault};
use jtag_net::{MemoryNet, TcpNet};
use std::rt::HostRuntime;
use std::test::Fail;
use sys_events::ListSchedule;

/// Receives as many answers as `into` holds, where the wire has them; else a bad answer.
#[tactic(auto, using(crate::proofs::Asked::same_open))]
pub fn read<N: Net>(wire: &mut LoopWire<N, ListSchedule>, into: &mut [u8]) -> Result<(), WireFault>
    requires open { IsOpen (far_of wire.old.bench.now wire.old.unread.items) }
    ensures open { IsOpen (far_of wire.new.bench.now wire.new.unread.items) }
    ensures same_net { wire.new.net.ghost_name ≡ wire.old.net.ghost_name }
    ensures same_bench { wire.new.bench.ghost_name ≡ wire.old.bench.ghost_name }
{
    if wire.unread.len() < into.len() {
        return Err(WireFault::BadAnswer(1));
    }
    wire.recv(into)
}

/// Sends these bytes, where the wire has no answer unread, and receives as many answers as `into` holds; else a bad answer.
#[tactic(auto, using(crate::proofs::Asked::front_open, crate::proofs::Asked::fed_open_still))]
pub fn ask<N: Net>(
    wire: &mut LoopWire<N, ListSchedule>,
    bytes: &[u8],
    into: &mut [u8],
) -> Result<(), WireFault>
    requires most { length bytes.now ≤ piece_most }
    requires signs { IsTrue (are_open bytes.now) }
    requires open { IsOpen (far_of wire.old.bench.now wire.old.unread.items) }
    ensures open { IsOpen (far_of wire.new.bench.now wire.new.unread.items) }
    ensures same_net { wire.new.net.ghost_name ≡ wire.old.net.ghost_name }
    ensures same_bench { wire.new.bench.ghost_name ≡ wire.old.bench.ghost_name }
{
    if !wire.unread.is_empty() {
        return Err(WireFault::BadAnswer(0));
    }
    wire.send(bytes)?;
    read(wire, into)
}

/// To Shift-DR, and 31 bits of the device identification.
#[tactic(auto, unfolding(debug_model::specs::Wire::are_open))]
fn shift<N: Net>(wire: &mut LoopWire<N, ListSchedule>, into: &mut [u8]) -> Result<(), WireFault>
    requires open { IsOpen (far_of wire.old.bench.now wire.old.unread.items) }
    ensures open { IsOpen (far_of wire.new.bench.now wire.new.unread.items) }
    ensures same_net { wire.new.net.ghost_name ≡ wire.old.net.ghost_name }
    ensures same_bench { wire.new.bench.ghost_name ≡ wire.old.bench.ghost_name }
{
    ask(wire, TO_SHIFT, &mut [])?;
    ask(wire, SHIFTS, into)
}

/// The device identification, what the wire counts, and the rounds that the chip took.
#[tactic(auto, unfolding(debug_model::specs::Wire::are_open), using(crate::proofs::Asked::live_open))]
fn identify<N: Net>(rt: &HostRuntime, net: &mut N) -> Result<([u8; 32], u64, u64), Fail>
    requires { (N.state net.old).ties.opening ≡ None }
{
    net.join(rt.alloc())?;
    let mut bench = bench_of(rt.alloc(), &[Event::Turn(0)])?;
    let mut wire = LoopWire::new(net, &mut bench);
    let mut answers = [0; 32];
    shift(&mut wire, &mut answers[..31])?;
    ask(&mut wire, TO_IDLE, &mut answers[31..])?;
    let faults = wire.faults();
    Ok((answers, faults, bench.counts().rounds))
}

/// A net of memory, which gives pieces of at most this size and fails at the listed calls.
pub fn memory(rt: &HostRuntime, piece: usize, fail_at: &[u32]) -> Result<MemoryNet, Fail>
    requires { 0 < piece }
    ensures { IfOk result (λ n. n.opening ≡ None) }
{
    let alloc = rt.alloc();
    let fail_at = fail_at.to_vec(alloc)?;
    Ok(MemoryNet::new(alloc, Vec::new(alloc), piece, 256, fail_at)?)
}

#[test]
fn idcode_comes_through_a_loop(rt: HostRuntime) -> Result<(), Fail> {
    let wanted = (*IDCODE, 0, 43);
    for piece in [1, 3, 256] {
        let mut net = memory(&rt, piece, &[])?;
        assert_eq!(rt; identify(&rt, &mut net)?, wanted, "pieces of {piece}");
    }
    let mut net = TcpNet::new(&rt);
    assert_eq!(rt; identify(&rt, &mut net)?, wanted);
    Ok(())
}

/// What 31 bits of the device identification came to, and two calls behind that; what the wire counts behind each, and the rounds that the chip took.
#[derive(Debug, PartialEq, Drop)]
pub struct Outcome {
    pub first: Result<(), WireFault>,
    pub later: [Result<(), WireFault>; 2],
    pub counts: [u64; 3],
    pub rounds: u64,
}

/// A send, or a receive of nothing where an answer is unread.
#[tactic(auto, unfolding(debug_model::specs::Wire::are_open))]
fn go_on<N: Net>(wire: &mut LoopWire<N, ListSchedule>) -> Result<(), WireFault>
    requires open { IsOpen (far_of wire.old.bench.now wire.old.unread.items) }
    ensures open { IsOpen (far_of wire.new.bench.now wire.new.unread.items) }
    ensures same_net { wire.new.net.ghost_name ≡ wire.old.net.ghost_name }
    ensures same_bench { wire.new.bench.ghost_name ≡ wire.old.bench.ghost_name }
{
    if wire.unread.is_empty() {
        ask(wire, TO_SHIFT, &mut [])
    } else {
        read(wire, &mut [])
    }
}

/// A loop over this net.
#[tactic(auto, using(crate::proofs::Asked::live_open))]
pub fn outcome_over<N: Net>(rt: &HostRuntime, net: &mut N) -> Result<Outcome, Fail>
    requires { (N.state net.old).ties.opening ≡ None }
{
    net.join(rt.alloc())?;
    let mut bench = bench_of(rt.alloc(), &[Event::Turn(0)])?;
    let mut wire = LoopWire::new(net, &mut bench);
    let mut answers = [0; 31];
    let first = shift(&mut wire, &mut answers);
    let count = wire.faults();
    let second = go_on(&mut wire);
    let second_count = wire.faults();
    let third = go_on(&mut wire);
    let third_count = wire.faults();
    Ok(Outcome {
        first,
        later: [second, third],
        counts: [count, second_count, third_count],
        rounds: bench.counts().rounds,
    })
}

/// What a loop came to that failed in this way at first, after so many rounds, and in that way from then on.
pub fn lost(first: WireFault, later: WireFault, rounds: u64) -> Outcome {
    Outcome {
        first: Err(first),
        later: [Err(later), Err(later)],
        counts: [1, 2, 3],
        rounds,
    }
}

#[test]
fn loop_over_a_net_that_fails_fails_on(rt: HostRuntime) -> Result<(), Fail> {
    let mut deaf = memory(&rt, 256, &[0])?;
    assert_eq!(rt; deaf.join(rt.alloc()), Err(NetFault::Failed));
    // the call that fails, how, how the later ones do, and the rounds before: a send puts, takes and puts, and a receive takes
    let (sends, takes) = (WireFault::SendFailed, WireFault::RecvFailed);
    let cases = [
        (1, sends, sends, 0),
        (2, sends, sends, 0),
        (3, sends, sends, 9),
        (4, sends, sends, 9),
        (5, sends, sends, 9),
        (6, sends, takes, 40),
        (7, takes, takes, 40),
    ];
    for (call, first, later, rounds) in cases {
        let mut net = memory(&rt, 256, &[call])?;
        let wanted = lost(first, later, rounds);
        assert_eq!(rt; outcome_over(&rt, &mut net)?, wanted, "call {call}");
        assert_eq!(rt; (net.faults(), net.ends()), (1, 0), "call {call}");
    }
    Ok(())
}
