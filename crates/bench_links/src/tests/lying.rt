//! A net that tells nothing and lies: of the first bytes that come out of one end.

ghost use Rattle.std.specs.Prelude.{◌≡◌, ◌≢◌, ◌+◌, ◌<◌, ◌≤◌, [], None, IfErr, IfOk, OnErr, OnOk, length};
ghost use Rattle.jt_base.specs.Faults.{Rises, counted};
ghost use Rattle.debug_model.specs.Net.{CallCause, faults_after, given_most};
ghost use Rattle.jtag_net.specs.Connection.{nobody, untold};

use super::loops::{lost, outcome_over};
use arrayvec::ArrayVec;
use debug_model::{Call, End, GIVEN_MOST, Net, NetFault, WireFault};
use jt_base::count_fault;
use std::alloc::Global;
use std::rt::HostRuntime;
use std::test::Fail;

#[derive(Clone, Copy, Debug, PartialEq, Eq)]
enum Lie {
    Flip,
    Drop,
    Repeat,
}

/// What is unread at an end.
type Queue = ArrayVec<u8, 256>;

#[derive(Drop)]
struct LyingNet {
    lie: Lie,
    at: End,
    has_lied: bool,
    opening: Option<Call>,
    is_open: bool,
    near: Queue,
    far: Queue,
    near_given: u64,
    far_given: u64,
    failed: u64,
    ended: u64,
}

impl LyingNet {
    fn new(lie: Lie, at: End) -> Self
        ensures { result.opening ≡ None }
    {
        LyingNet {
            lie,
            at,
            has_lied: false,
            opening: None,
            is_open: false,
            near: ArrayVec::new(),
            far: ArrayVec::new(),
            near_given: 0,
            far_given: 0,
            failed: 0,
            ended: 0,
        }
    }
}

/// Appends what there is room for.
fn queue(to: &mut Queue, bytes: &[u8]) {
    for byte in bytes {
        if !to.is_full() {
            to.push(*byte);
        }
    }
}

/// Appends these bytes, with a lie at their front where there is one.
fn pass(to: &mut Queue, lie: Option<Lie>, bytes: &[u8]) {
    let [first, rest @ ..] = bytes else {
        return;
    };
    match lie {
        None => queue(to, &[*first]),
        Some(Lie::Flip) => queue(to, &[*first ^ 1]),
        Some(Lie::Drop) => {}
        Some(Lie::Repeat) => queue(to, &[*first, *first]),
    }
    queue(to, rest);
}

/// Gives the first bytes of a queue.
fn give(
    from: &mut Queue,
    given: &mut u64,
    failed: &mut u64,
    ended: &mut u64,
    into: &mut [u8],
) -> Result<usize, NetFault>
    ensures most { IfOk result (λ n. n ≤ length into.new) }
    ensures given { IfOk result (λ n. given.new ≡ given.old + n) }
    ensures spent { OnOk result (given.old < given_most) }
    ensures bound { IfOk result (λ n. given.old + n ≤ given_most) }
    ensures kept { OnErr result (given.new ≡ given.old) }
    ensures cause { IfErr result (CallCause failed.old failed.new) }
    ensures later { failed.old ≤ failed.new }
    ensures counts { failed.new ≡ faults_after result failed.old }
    ensures one_end { IfOk result (λ n. n ≡ 0 → ended.new ≡ counted ended.old) }
    ensures ended { IfOk result (λ n. n ≡ 0 → Rises ended.old ended.new) }
    ensures goes_on { IfOk result (λ n. n ≢ 0 → ended.new ≡ ended.old) }
    ensures ends { OnErr result (ended.new ≡ ended.old) }
    ensures ends_later { ended.old ≤ ended.new }
{
    if *given >= GIVEN_MOST {
        count_fault(failed);
        return Err(NetFault::Failed);
    }
    let most = from.len().min((GIVEN_MOST - *given) as usize);
    let count = into.len().min(most);
    into[..count].copy_from_slice(&from.as_slice()[..count]);
    from.drain(..count);
    *given += count as u64;
    if count == 0 {
        count_fault(ended);
    }
    Ok(count)
}

impl Net for LyingNet {
    ghost state = { λ n. untold (record {
      opening = n.opening;
      near_open = n.is_open;
      far_open = n.is_open;
      near_given = n.near_given;
      far_given = n.far_given;
      faults = n.failed;
      ends = n.ended;
    }) };

    ghost peer = { λ _. nobody };

    ghost fault_count = { λ n. n.failed };

    ghost end_count = { λ n. n.ended };

    ghost lenders = { λ _. [] };

    fn connect(&mut self, _alloc: Global, _at: &str) -> Result<(), NetFault> {
        self.opening = Some(Call::Connect);
        count_fault(&mut self.failed);
        Err(NetFault::Failed)
    }

    fn accept(&mut self, _alloc: Global, _at: &str) -> Result<(), NetFault> {
        self.opening = Some(Call::Accept);
        count_fault(&mut self.failed);
        Err(NetFault::Failed)
    }

    fn join(&mut self, _alloc: Global) -> Result<(), NetFault> {
        self.opening = Some(Call::Join);
        self.is_open = true;
        Ok(())
    }

    fn put(&mut self, end: End, bytes: &[u8]) -> Result<(), NetFault> {
        let lies = !self.has_lied && end != self.at && !bytes.is_empty();
        let lie = if lies { Some(self.lie) } else { None };
        self.has_lied = self.has_lied || lies;
        match end {
            End::Near => pass(&mut self.far, lie, bytes),
            End::Far => pass(&mut self.near, lie, bytes),
        }
        Ok(())
    }

    fn take(&mut self, end: End, into: &mut [u8]) -> Result<usize, NetFault> {
        match end {
            End::Near => give(
                &mut self.near,
                &mut self.near_given,
                &mut self.failed,
                &mut self.ended,
                into,
            ),
            End::Far => give(
                &mut self.far,
                &mut self.far_given,
                &mut self.failed,
                &mut self.ended,
                into,
            ),
        }
    }

    fn faults(&self) -> u64 {
        self.failed
    }

    fn ends(&self) -> u64 {
        self.ended
    }
}

#[test]
fn loop_sees_each_lie(rt: HostRuntime) -> Result<(), Fail> {
    let (sends, takes) = (WireFault::SendFailed, WireFault::RecvFailed);
    let ended = WireFault::Ended;
    let cases = [
        (Lie::Flip, End::Far, lost(sends, sends, 0)),
        (Lie::Drop, End::Far, lost(ended, sends, 0)),
        (Lie::Repeat, End::Far, lost(sends, sends, 0)),
        (Lie::Flip, End::Near, lost(takes, takes, 40)),
        (Lie::Drop, End::Near, lost(ended, takes, 40)),
        (Lie::Repeat, End::Near, lost(takes, takes, 40)),
    ];
    for (lie, at, wanted) in cases {
        let mut net = LyingNet::new(lie, at);
        assert_eq!(rt; outcome_over(&rt, &mut net)?, wanted, "{lie:?} {at:?}");
    }
    Ok(())
}
