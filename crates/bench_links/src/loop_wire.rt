//! The bit-bang stream to a chip on a bench, through both ends of a net.
ghost use Rattle.std.specs.Prelude.{◌≡◌, ◌≤◌, [], Err, None, true, false, length, IfErr, IfSome, IsSome, IsTrue, OnErr, OnOk, is_some, option_map};
ghost use Rattle.std.proofs.Props.{props};
ghost use Rattle.jt_base.specs.Faults.{counted};
ghost use Rattle.debug_model.specs.Net.{IsJoined, after_take};
ghost use Rattle.debug_model.specs.Told.{IsLive, IsOpen, IsRead};
ghost use Rattle.debug_model.specs.Wire.{IsPiece, ReadsFront, ReadsSome, RecvCause, SendCause, SentFront, TakesComing, TakesSome, are_open, piece_most, sent};
ghost use Rattle.debug_model.specs.declared.net.End.TheVariants as end;
ghost use Rattle.chip_core.specs.Feeds.{far_of, feed_of, limit_met, nothing_coming, said_of};
ghost use Rattle.jtag_net.specs.Wired.{net_gives};
ghost use Rattle.bench_links.specs.Looped.{CrossedFront, FedFront, InStep, IsBlamed, LoopCause, TookSome, counts, exchanged, is_looped, loop_ties, looped};

use crate::crossing::{Lost, exchange, take_answers};
use chip_core::{Answers, Bench};
use debug_model::{Net, PIECE_MOST, Schedule, Wire, WireFault, fill_unanswered};
use jt_base::count_fault;

/// The faults and the ends that a net had counted.
#[derive(Clone, Copy)]
struct Began {
    faults: u64,
    ends: u64,
}

/// A wire through both ends of a joined net to the chip on a bench at its far end, in one thread; the caller keeps both.
///
/// What is put at one end is taken at the other and compared. A difference is counted beside the net's faults and ends, at most the greatest `u64`. A wire that
/// failed in the middle of a call fails at every later one, as a difference. Where the bench has met its event limit, in the call or before, the answer is
/// `Ended`. It tells its chip.
#[derive(Drop)]
pub struct LoopWire<'a, N: Net, Q: Schedule> {
    net: &'a mut N,
    bench: &'a mut Bench<Q>,
    pub(crate) unread: Answers,
    sound: bool,
    differences: u64,
    began: Began,
    ghost joined: { IsTrue (is_looped (N.state net.now)) },
    ghost loaded: { IsSome bench.now },
    ghost in_step: { sound ≡ true → InStep unread.items (N.state net.now).pipe } by { Prim.hlevel props },
    ghost later: { (began.faults ≤ N.fault_count net.now) × (began.ends ≤ N.end_count net.now) },
    ghost blamed: { IsBlamed (N.state net.now).ties.tells_pipe sound (limit_met bench.now) differences began.faults (N.fault_count net.now) began.ends
        (N.end_count net.now) } by { Prim.hlevel props },
}

impl<'a, N: Net, Q: Schedule> LoopWire<'a, N, Q> {
    /// A wire through this net, which was just joined, to this bench, which is loaded.
    pub fn new(net: &'a mut N, bench: &'a mut Bench<Q>) -> Self
        requires joined { IsJoined (N.state net.old) }
        requires loaded { IsSome bench.old }
        ensures same_net { result.net.ghost_name ≡ net.entry.ghost_name }
        ensures same_bench { result.bench.ghost_name ≡ bench.entry.ghost_name }
        ensures net { result.net.now ≡ net.old }
        ensures bench { result.bench.now ≡ bench.old }
        ensures unread { result.unread.items ≡ [] }
        ensures sound { result.sound ≡ true }
        ensures differences { result.differences ≡ 0 }
        ensures faults { result.began.faults ≡ N.fault_count net.old }
        ensures ends { result.began.ends ≡ N.end_count net.old }
    {
        let began = Began {
            faults: net.faults(),
            ends: net.ends(),
        };
        LoopWire {
            net,
            bench,
            unread: Answers::new(),
            sound: true,
            differences: 0,
            began,
        }
    }

    /// That over a told pipe no bytes differed before the net counted a fault or an end, as the type of a wire promises.
    pub fn know_blame(&self)
        ensures { IsBlamed (N.state self.now.net.now).ties.tells_pipe self.now.sound (limit_met self.now.bench.now) self.now.differences
            self.now.began.faults (N.fault_count self.now.net.now) self.now.began.ends (N.end_count self.now.net.now) }
    {}
}

impl<'a, N: Net, Q: Schedule> Wire for LoopWire<'a, N, Q> {
    ghost far = { λ w. far_of w.bench.now w.unread.items };

    ghost coming = { λ _. nothing_coming };

    ghost fault_count = { λ w. looped w.differences (N.fault_count w.net.now) (N.end_count w.net.now) };

    ghost gives = { net_gives };

    ghost ties = { λ w. loop_ties w.net.ghost_name w.bench.ghost_name (N.lenders w.net.now) (N.state w.net.now)
        (far_of w.bench.now w.unread.items) w.began.faults w.began.ends };

    #[tactic(auto, using(crate::proofs::Loops::read_none, crate::proofs::Loops::sent_whole, crate::proofs::Loops::sent_front, crate::proofs::Loops::fed_ties, crate::proofs::Loops::front_ties, crate::proofs::Loops::kept_ties, crate::proofs::Loops::fault_rises, crate::proofs::Loops::end_rises, crate::proofs::Loops::difference_rises, crate::proofs::Lives::lives_on, crate::proofs::Lives::met_limit, crate::proofs::Exchanges::none_fed, crate::proofs::Exchanges::untouched))]
    fn send(&mut self, bytes: &[u8]) -> Result<(), WireFault>
        requires most { length bytes.now ≤ piece_most }
        requires piece { IsPiece bytes.now }
        requires open { IsOpen (far_of self.old.bench.now self.old.unread.items) }
        requires read { IsRead (far_of self.old.bench.now self.old.unread.items) }
        ensures sent { OnOk result (far_of self.new.bench.now self.new.unread.items
            ≡ option_map (sent bytes.now) (far_of self.old.bench.now self.old.unread.items)) }
        ensures live { OnOk result (IsTrue (are_open bytes.now) → IsLive (far_of self.new.bench.now self.new.unread.items)) }
        ensures prefix { OnErr result
            (SentFront bytes.now (far_of self.old.bench.now self.old.unread.items) (far_of self.new.bench.now self.new.unread.items)) }
        ensures coming { nothing_coming ≡ nothing_coming }
        ensures later { looped self.old.differences (N.fault_count self.old.net.now) (N.end_count self.old.net.now)
            ≤ looped self.new.differences (N.fault_count self.new.net.now) (N.end_count self.new.net.now) }
        ensures still { OnOk result (looped self.new.differences (N.fault_count self.new.net.now) (N.end_count self.new.net.now)
            ≡ looped self.old.differences (N.fault_count self.old.net.now) (N.end_count self.old.net.now)) }
        ensures own { IfErr result (λ why. net_gives why ≡ true) }
        ensures cause { IfErr result (SendCause (looped self.old.differences (N.fault_count self.old.net.now) (N.end_count self.old.net.now))
            (looped self.new.differences (N.fault_count self.new.net.now) (N.end_count self.new.net.now))
            (far_of self.new.bench.now self.new.unread.items)) }
        ensures ties { loop_ties self.new.net.ghost_name self.new.bench.ghost_name (N.lenders self.new.net.now) (N.state self.new.net.now)
            (far_of self.new.bench.now self.new.unread.items) self.new.began.faults self.new.began.ends
            ≡ loop_ties self.old.net.ghost_name self.old.bench.ghost_name (N.lenders self.old.net.now) (N.state self.old.net.now)
            (far_of self.old.bench.now self.old.unread.items) self.old.began.faults self.old.began.ends }
        ensures net { OnOk result (N.state self.new.net.now ≡ exchanged bytes.now (said_of self.old.bench.now bytes.now) (N.state self.old.net.now)) }
        ensures net_front { OnErr result (CrossedFront bytes.now self.new.unread.items (N.state self.old.net.now) (N.state self.new.net.now)) }
        ensures chip { OnOk result (self.new.bench.now ≡ feed_of self.old.bench.now bytes.now) }
        ensures in_step { OnOk result (InStep self.new.unread.items (N.state self.new.net.now).pipe) }
        ensures front { OnErr result (FedFront bytes.now self.old.bench.now self.new.bench.now self.old.unread.items self.new.unread.items) }
        ensures loop_cause { IfErr result (LoopCause (counts self.old.differences (N.fault_count self.old.net.now) (N.end_count self.old.net.now))
            (counts self.new.differences (N.fault_count self.new.net.now) (N.end_count self.new.net.now))
            (far_of self.new.bench.now self.new.unread.items)) }
        ensures limit { limit_met self.new.bench.now ≡ true → result ≡ Err WireFault.Ended }
        ensures alike { OnOk result (self.new.differences ≡ self.old.differences) }
        ensures told_alike { is_some (N.state self.old.net.now).pipe ≡ true → self.old.sound ≡ true → self.new.differences ≡ self.old.differences }
        ensures sound { OnOk result ((self.old.sound ≡ true) × (self.new.sound ≡ true)) }
        ensures unsound { OnErr result (limit_met self.new.bench.now ≡ false → self.new.sound ≡ false) }
        ensures fails_on { self.old.sound ≡ false
            → limit_met self.old.bench.now ≡ false
            → (result ≡ Err WireFault.SendFailed) × (self.new.differences ≡ counted self.old.differences) }
    {
        if self.bench.at_limit() {
            return Err(WireFault::Ended);
        }
        if !self.sound {
            count_fault(&mut self.differences);
            return Err(WireFault::SendFailed);
        }
        self.sound = false;
        let mut room = [0; PIECE_MOST];
        let came = &mut room[..bytes.len()];
        match exchange(self.net, self.bench, bytes, came, &mut self.unread) {
            Ok(()) => {
                self.sound = true;
                Ok(())
            }
            Err(Lost::Failed) => Err(WireFault::SendFailed),
            Err(Lost::Ended) | Err(Lost::AtLimit) => Err(WireFault::Ended),
            Err(Lost::Differs) => {
                count_fault(&mut self.differences);
                Err(WireFault::SendFailed)
            }
        }
    }

    #[tactic(auto, using(crate::proofs::Loops::answers_read, crate::proofs::Loops::chip_kept, crate::proofs::Loops::kept_ties, crate::proofs::Loops::fault_rises, crate::proofs::Loops::end_rises, crate::proofs::Loops::difference_rises, crate::proofs::Lives::met_limit, crate::proofs::Crossings::took_nothing))]
    fn recv(&mut self, into: &mut [u8]) -> Result<(), WireFault>
        requires open { IsOpen (far_of self.old.bench.now self.old.unread.items) }
        requires waiting { IfSome (far_of self.old.bench.now self.old.unread.items) (λ f. length into.old ≤ length f.unread) }
        ensures read { OnOk result
            (ReadsFront into.new (far_of self.old.bench.now self.old.unread.items) (far_of self.new.bench.now self.new.unread.items)) }
        ensures came { OnOk result (TakesComing into.new nothing_coming nothing_coming) }
        ensures chip { OnErr result
            (ReadsSome into.new (far_of self.old.bench.now self.old.unread.items) (far_of self.new.bench.now self.new.unread.items)) }
        ensures some { OnErr result (TakesSome into.new nothing_coming nothing_coming) }
        ensures later { looped self.old.differences (N.fault_count self.old.net.now) (N.end_count self.old.net.now)
            ≤ looped self.new.differences (N.fault_count self.new.net.now) (N.end_count self.new.net.now) }
        ensures still { OnOk result (looped self.new.differences (N.fault_count self.new.net.now) (N.end_count self.new.net.now)
            ≡ looped self.old.differences (N.fault_count self.old.net.now) (N.end_count self.old.net.now)) }
        ensures own { IfErr result (λ why. net_gives why ≡ true) }
        ensures cause { IfErr result (RecvCause (looped self.old.differences (N.fault_count self.old.net.now) (N.end_count self.old.net.now))
            (looped self.new.differences (N.fault_count self.new.net.now) (N.end_count self.new.net.now))
            (far_of self.new.bench.now self.new.unread.items)) }
        ensures ties { loop_ties self.new.net.ghost_name self.new.bench.ghost_name (N.lenders self.new.net.now) (N.state self.new.net.now)
            (far_of self.new.bench.now self.new.unread.items) self.new.began.faults self.new.began.ends
            ≡ loop_ties self.old.net.ghost_name self.old.bench.ghost_name (N.lenders self.old.net.now) (N.state self.old.net.now)
            (far_of self.old.bench.now self.old.unread.items) self.old.began.faults self.old.began.ends }
        ensures net { OnOk result (N.state self.new.net.now ≡ after_take end.Near (length into.new) (N.state self.old.net.now)) }
        ensures net_some { OnErr result (TookSome end.Near (length into.new) (N.state self.old.net.now) (N.state self.new.net.now)) }
        ensures bench { self.new.bench.now ≡ self.old.bench.now }
        ensures in_step { OnOk result (InStep self.new.unread.items (N.state self.new.net.now).pipe) }
        ensures loop_cause { IfErr result (LoopCause (counts self.old.differences (N.fault_count self.old.net.now) (N.end_count self.old.net.now))
            (counts self.new.differences (N.fault_count self.new.net.now) (N.end_count self.new.net.now))
            (far_of self.new.bench.now self.new.unread.items)) }
        ensures limit { limit_met self.new.bench.now ≡ true → result ≡ Err WireFault.Ended }
        ensures alike { OnOk result (self.new.differences ≡ self.old.differences) }
        ensures told_alike { is_some (N.state self.old.net.now).pipe ≡ true → self.old.sound ≡ true → self.new.differences ≡ self.old.differences }
        ensures sound { OnOk result ((self.old.sound ≡ true) × (self.new.sound ≡ true)) }
        ensures unsound { OnErr result (limit_met self.new.bench.now ≡ false → self.new.sound ≡ false) }
        ensures fails_on { self.old.sound ≡ false
            → limit_met self.old.bench.now ≡ false
            → (result ≡ Err WireFault.RecvFailed) × (self.new.differences ≡ counted self.old.differences) }
    {
        fill_unanswered(into);
        if self.bench.at_limit() {
            return Err(WireFault::Ended);
        }
        if !self.sound {
            count_fault(&mut self.differences);
            return Err(WireFault::RecvFailed);
        }
        self.sound = false;
        match take_answers(self.net, &mut self.unread, into) {
            Ok(()) => {
                self.sound = true;
                Ok(())
            }
            Err(Lost::Failed) => Err(WireFault::RecvFailed),
            Err(Lost::Ended) | Err(Lost::AtLimit) => Err(WireFault::Ended),
            Err(Lost::Differs) => {
                count_fault(&mut self.differences);
                Err(WireFault::RecvFailed)
            }
        }
    }

    fn faults(&self) -> u64 {
        let of_net = self.net.faults().saturating_add(self.net.ends());
        self.differences.saturating_add(of_net)
    }
}
