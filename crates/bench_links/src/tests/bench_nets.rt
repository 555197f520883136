//! A net that ends at a bench.

ghost use Rattle.std.specs.Prelude.{◌≡◌, ◌≤◌, ◌<◌, IsTrue, length};
ghost use Rattle.debug_model.specs.Told.{IsOpen};
ghost use Rattle.debug_model.specs.Wire.{are_open, piece_most};
ghost use Rattle.chip_core.specs.Feeds.{far_of};

use super::benches::{IDCODE, SHIFTS, TO_IDLE, TO_SHIFT, bench_of};
use crate::{BenchNet, FAILING_MOST};
use arrayvec::ArrayVec;
use debug_model::{End, Event, Net, NetFault};
use std::rt::HostRuntime;
use std::test::Fail;
use sys_events::ListSchedule;

/// Puts these bytes at an open net that keeps no answer, and takes what it answers; without either there was no memory.
#[tactic(auto, using(crate::proofs::Asked::put_open))]
pub fn ask_net(
    net: &mut BenchNet<ListSchedule>,
    bytes: &[u8],
    into: &mut [u8],
) -> Result<usize, NetFault>
    requires most { length bytes.now ≤ piece_most }
    requires signs { IsTrue (are_open bytes.now) }
    requires open { IsOpen (far_of net.old.bench.now net.old.unread.items) }
    ensures open { IsOpen (far_of net.new.bench.now net.new.unread.items) }
    ensures same_reference { net.new.bench.ghost_name ≡ net.old.bench.ghost_name }
{
    if !net.is_open || !net.unread.is_empty() {
        return Err(NetFault::NoMemory);
    }
    net.put(End::Near, bytes)?;
    if net.unread.is_empty() || into.is_empty() {
        return Ok(0);
    }
    net.take(End::Near, into)
}

/// The 32 answers of the stream through three puts, each with its take.
#[tactic(auto, unfolding(debug_model::specs::Wire::are_open))]
fn identify(net: &mut BenchNet<ListSchedule>) -> Result<[u8; 32], NetFault>
    requires open { IsOpen (far_of net.old.bench.now net.old.unread.items) }
    ensures same_reference { net.new.bench.ghost_name ≡ net.old.bench.ghost_name }
{
    let mut answers = [0; 32];
    ask_net(net, TO_SHIFT, &mut [])?;
    ask_net(net, SHIFTS, &mut answers[..31])?;
    ask_net(net, TO_IDLE, &mut answers[31..])?;
    Ok(answers)
}

/// Calls that are to fail: the first eight of these.
pub fn listed(calls: &[u32]) -> ArrayVec<u32, FAILING_MOST> {
    let mut fail_at = ArrayVec::new();
    for call in calls {
        if !fail_at.is_full() {
            fail_at.push(*call);
        }
    }
    fail_at
}

/// What the device identification came to, the count of faults, and the rounds that the chip took.
type Outcome = (Result<[u8; 32], NetFault>, u64, u64);

#[tactic(auto, using(crate::proofs::Asked::live_open, crate::proofs::Asked::same_open))]
fn outcome_of(rt: &HostRuntime, piece: usize, calls: &[u32]) -> Result<Outcome, Fail>
    requires { (1 ≤ piece) × (piece ≤ piece_most) }
{
    let mut bench = bench_of(rt.alloc(), &[Event::Turn(0)])?;
    let mut net = BenchNet::new(&mut bench, piece, listed(calls));
    let outcome = match net.connect(rt.alloc(), "the bench") {
        Ok(()) => identify(&mut net),
        Err(fault) => Err(fault),
    };
    let faults = net.faults();
    Ok((outcome, faults, bench.counts().rounds))
}

#[test]
fn idcode_comes_through_a_net(rt: HostRuntime) -> Result<(), Fail> {
    for piece in [1, 3, 256] {
        let wanted = (Ok(*IDCODE), 0, 43);
        assert_eq!(rt; outcome_of(&rt, piece, &[])?, wanted, "pieces of {piece}");
    }
    // the call that fails, and the rounds before it: connect, put, put, take, put, take
    let cases = [(0, 0), (1, 0), (2, 9), (3, 40), (4, 40), (5, 43)];
    for (call, rounds) in cases {
        let wanted = (Err(NetFault::Failed), 1, rounds);
        assert_eq!(rt; outcome_of(&rt, 256, &[9, call])?, wanted, "call {call}");
    }
    Ok(())
}

#[test]
fn net_of_a_bench_only_connects(rt: HostRuntime) -> Result<(), Fail> {
    let refused = Err(NetFault::Failed);
    let mut bench = bench_of(rt.alloc(), &[Event::Turn(0)])?;
    let mut net = BenchNet::new(&mut bench, 1, listed(&[]));
    assert_eq!(rt;
        (net.accept(rt.alloc(), "the bench"), net.faults()),
        (refused, 1)
    );
    let mut bench = bench_of(rt.alloc(), &[Event::Turn(0)])?;
    let mut net = BenchNet::new(&mut bench, 1, listed(&[]));
    assert_eq!(rt; (net.join(rt.alloc()), net.faults()), (refused, 1));
    Ok(())
}
