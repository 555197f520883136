//! The limit of points, which a put meets, and a loop behind it.

ghost use Rattle.std.specs.Prelude.{◌≡◌};
ghost use Rattle.debug_model.specs.Told.{IsOpen};
ghost use Rattle.debug_model.specs.Wire.{are_open};
ghost use Rattle.chip_core.specs.Feeds.{far_of};

use super::bench_nets::{ask_net, listed};
use super::benches::{TO_SHIFT, bench_with_limit};
use super::loops::{ask, memory, read};
use crate::{BenchNet, LoopWire};
use debug_model::{Event, Net, NetFault, Wire, WireFault};
use std::rt::HostRuntime;
use std::test::Fail;
use sys_events::ListSchedule;

/// 128 clocks of TCK.
const CLOCKS: &[u8; 256] =
    b"04040404040404040404040404040404040404040404040404040404040404040404040404040404040404040404040404040404040404040404040404040404\
    04040404040404040404040404040404040404040404040404040404040404040404040404040404040404040404040404040404040404040404040404040404";

/// A round of five turns.
const CROWDED: &[Event] = &[Event::Turn(0); 5];

/// How many puts of 128 clocks are taken before one fails. At most 10 are made.
#[tactic(auto, unfolding(debug_model::specs::Wire::are_open))]
fn puts_to_the_limit(net: &mut BenchNet<ListSchedule>) -> u32
    requires open { IsOpen (far_of net.old.bench.now net.old.unread.items) }
    ensures open { IsOpen (far_of net.new.bench.now net.new.unread.items) }
    ensures same_reference { net.new.bench.ghost_name ≡ net.old.bench.ghost_name }
{
    'puts: for count in 0..10 {
        if ask_net(net, CLOCKS, &mut []).is_err() {
            return count;
        }
    }
    10
}

// 1,500 points are 300 rounds of five turns. The rise behind them still takes its round, and the next one none: so 301 rises are taken, which is
// two puts of 128 and 45 more.
#[test]
#[tactic(auto, unfolding(debug_model::specs::Wire::are_open), using(crate::proofs::Asked::live_open, crate::proofs::Asked::same_open))]
fn links_stop_at_the_limit(rt: HostRuntime) -> Result<(), Fail> {
    let alloc = rt.alloc();
    let mut bench = bench_with_limit(alloc, CROWDED, 1_500)?;
    let mut net = BenchNet::new(&mut bench, 256, listed(&[]));
    net.connect(alloc, "the bench")?;
    let puts = puts_to_the_limit(&mut net);
    let again = ask_net(&mut net, TO_SHIFT, &mut []);
    assert_eq!(rt; (puts, again, net.faults()), (2, Err(NetFault::Failed), 2));
    assert!(rt; bench.at_limit());
    assert_eq!(rt; bench.counts().rounds, 301);
    let mut joined = memory(&rt, 256, &[])?;
    joined.join(alloc)?;
    let mut wire = LoopWire::new(&mut joined, &mut bench);
    let outcomes = (ask(&mut wire, TO_SHIFT, &mut []), read(&mut wire, &mut []));
    let ended = Err(WireFault::Ended);
    assert_eq!(rt; (outcomes, wire.faults()), ((ended, ended), 0));
    Ok(())
}
