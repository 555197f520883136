//! The bit-bang stream over a net.
ghost use Rattle.std.specs.Prelude.{◌≡◌, ◌≤◌, ◌∷◌, None, true, IsTrue, length, IfErr, IfSome, OnErr, OnOk, option_map};
ghost use Rattle.std.proofs.Props.{props};
ghost use Rattle.debug_model.specs.Net.{PutFront, after_put, coming_of, is_open};
ghost use Rattle.debug_model.specs.declared.net.End.TheVariants as end;
ghost use Rattle.debug_model.specs.Told.{IsLive, IsOpen, IsRead};
ghost use Rattle.debug_model.specs.Wire.{IsPiece, ReadsFront, ReadsSome, RecvCause, SendCause, SentFront, TakesComing, TakesSome, are_open, piece_most, sent};
ghost use Rattle.jtag_net.specs.Wired.{PutCause, ReadCause, Sound, Took, TookSome, are_answers, is_wired, net_gives, summed, wired_ties};

use crate::take_all::{Cut, take_all};
use debug_model::{End, Net, Wire, WireFault};
use jt_base::count_fault;

/// A wire over the near end of a net, which the caller keeps. It tells what the net tells, and counts the net's faults and
/// ends, at most the greatest `u64`. It answers `Ended` where a take found the other side ended.
///
/// A read takes nothing more behind a byte that is neither `0` nor `1`: it fails with `RecvFailed`, is counted too, and that byte stands in its buffer. So a
/// peer that is no chip and then stays silent holds nobody. A told chip gives no such byte.
#[derive(Drop)]
pub struct NetWire<'a, N: Net> {
    net: &'a mut N,
    bad_answers: u64,
    ghost wired: { IsTrue (is_wired (N.state net.now)) },
    ghost sound: { Sound (N.state net.now) bad_answers } by { Prim.hlevel props },
}

impl<'a, N: Net> NetWire<'a, N> {
    /// A wire over this net, whose near end is open and which tells no pipe; where it tells a chip, no answer of that is unread.
    #[tactic(auto, using(crate::proofs::Judged::sound_first))]
    pub fn new(net: &'a mut N) -> Self
        requires open { is_open end.Near (N.state net.old) ≡ true }
        requires plain { (N.state net.old).pipe ≡ None }
        requires read { IsRead (N.state net.old).chip }
        ensures same_reference { result.net.ghost_name ≡ net.entry.ghost_name }
        ensures net { result.net.now ≡ net.old }
        ensures none { result.bad_answers ≡ 0 }
    {
        NetWire {
            net,
            bad_answers: 0,
        }
    }

    /// That no read over a told chip has ended at a byte that is no answer, as the type of a wire promises.
    pub fn know_sound(&self)
        ensures { Sound (N.state self.now.net.now) self.now.bad_answers }
    {}
}

impl<'a, N: Net> Wire for NetWire<'a, N> {
    ghost far = { λ w. (N.state w.net.now).chip };

    ghost coming = { λ w. coming_of (N.state w.net.now) };

    ghost fault_count = { λ w. summed w.bad_answers (N.fault_count w.net.now) (N.end_count w.net.now) };

    ghost gives = { net_gives };

    ghost ties = { λ w. wired_ties w.net.ghost_name (N.lenders w.net.now) (N.state w.net.now) };

    #[tactic(auto, using(crate::proofs::Puts::coming_stays, crate::proofs::Puts::coming_stays_cut, crate::proofs::Judged::sound_put, crate::proofs::Judged::sound_front))]
    fn send(&mut self, bytes: &[u8]) -> Result<(), WireFault>
        requires most { length bytes.now ≤ piece_most }
        requires piece { IsPiece bytes.now }
        requires open { IsOpen (N.state self.old.net.now).chip }
        requires read { IsRead (N.state self.old.net.now).chip }
        ensures sent { OnOk result ((N.state self.new.net.now).chip ≡ option_map (sent bytes.now) (N.state self.old.net.now).chip) }
        ensures live { OnOk result (IsTrue (are_open bytes.now) → IsLive (N.state self.new.net.now).chip) }
        ensures prefix { OnErr result (SentFront bytes.now (N.state self.old.net.now).chip (N.state self.new.net.now).chip) }
        ensures coming { coming_of (N.state self.new.net.now) ≡ coming_of (N.state self.old.net.now) }
        ensures later { summed self.old.bad_answers (N.fault_count self.old.net.now) (N.end_count self.old.net.now)
            ≤ summed self.new.bad_answers (N.fault_count self.new.net.now) (N.end_count self.new.net.now) }
        ensures still { OnOk result (summed self.new.bad_answers (N.fault_count self.new.net.now) (N.end_count self.new.net.now)
            ≡ summed self.old.bad_answers (N.fault_count self.old.net.now) (N.end_count self.old.net.now)) }
        ensures own { IfErr result (λ why. net_gives why ≡ true) }
        ensures cause { IfErr result (SendCause (summed self.old.bad_answers (N.fault_count self.old.net.now) (N.end_count self.old.net.now))
            (summed self.new.bad_answers (N.fault_count self.new.net.now) (N.end_count self.new.net.now)) (N.state self.new.net.now).chip) }
        ensures ties { wired_ties self.new.net.ghost_name (N.lenders self.new.net.now) (N.state self.new.net.now)
            ≡ wired_ties self.old.net.ghost_name (N.lenders self.old.net.now) (N.state self.old.net.now) }
        ensures net { OnOk result (N.state self.new.net.now ≡ after_put end.Near bytes.now (N.state self.old.net.now)) }
        ensures net_front { OnErr result (PutFront end.Near bytes.now (N.state self.old.net.now) (N.state self.new.net.now)) }
        ensures faults { IfErr result (PutCause (N.fault_count self.old.net.now) (N.fault_count self.new.net.now)) }
        ensures none { self.new.bad_answers ≡ self.old.bad_answers }
    {
        match self.net.put(End::Near, bytes) {
            Ok(()) => Ok(()),
            Err(_) => Err(WireFault::SendFailed),
        }
    }

    #[tactic(auto, using(crate::proofs::Takes::reads_some, crate::proofs::Takes::reads_front, crate::proofs::Takes::takes_coming, crate::proofs::Takes::takes_some, crate::proofs::Timed::took_ties, crate::proofs::Timed::some_ties, crate::proofs::Judged::sound_took, crate::proofs::Judged::sound_some, crate::proofs::Judged::sound_bad))]
    fn recv(&mut self, into: &mut [u8]) -> Result<(), WireFault>
        requires open { IsOpen (N.state self.old.net.now).chip }
        requires waiting { IfSome (N.state self.old.net.now).chip (λ f. length into.old ≤ length f.unread) }
        ensures read { OnOk result (ReadsFront into.new (N.state self.old.net.now).chip (N.state self.new.net.now).chip) }
        ensures chip { OnErr result (ReadsSome into.new (N.state self.old.net.now).chip (N.state self.new.net.now).chip) }
        ensures came { OnOk result (TakesComing into.new (coming_of (N.state self.old.net.now)) (coming_of (N.state self.new.net.now))) }
        ensures some { OnErr result (TakesSome into.new (coming_of (N.state self.old.net.now)) (coming_of (N.state self.new.net.now))) }
        ensures later { summed self.old.bad_answers (N.fault_count self.old.net.now) (N.end_count self.old.net.now)
            ≤ summed self.new.bad_answers (N.fault_count self.new.net.now) (N.end_count self.new.net.now) }
        ensures still { OnOk result (summed self.new.bad_answers (N.fault_count self.new.net.now) (N.end_count self.new.net.now)
            ≡ summed self.old.bad_answers (N.fault_count self.old.net.now) (N.end_count self.old.net.now)) }
        ensures own { IfErr result (λ why. net_gives why ≡ true) }
        ensures cause { IfErr result (RecvCause (summed self.old.bad_answers (N.fault_count self.old.net.now) (N.end_count self.old.net.now))
            (summed self.new.bad_answers (N.fault_count self.new.net.now) (N.end_count self.new.net.now)) (N.state self.new.net.now).chip) }
        ensures ties { wired_ties self.new.net.ghost_name (N.lenders self.new.net.now) (N.state self.new.net.now)
            ≡ wired_ties self.old.net.ghost_name (N.lenders self.old.net.now) (N.state self.old.net.now) }
        ensures net { OnOk result (Took (length into.new) into.new (N.state self.old.net.now) (N.state self.new.net.now)) }
        ensures net_some { OnErr result (TookSome into.new (N.state self.old.net.now) (N.state self.new.net.now)) }
        ensures answers { OnOk result (IsTrue (are_answers into.new)) }
        ensures none { OnOk result (self.new.bad_answers ≡ self.old.bad_answers) }
        ensures faults { IfErr result (ReadCause (are_answers into.new) self.old.bad_answers self.new.bad_answers
            (N.fault_count self.old.net.now) (N.fault_count self.new.net.now) (N.end_count self.old.net.now) (N.end_count self.new.net.now)) }
    {
        match take_all(self.net, into) {
            Ok(()) => Ok(()),
            Err(Cut::Failed) => Err(WireFault::RecvFailed),
            Err(Cut::Ended) => Err(WireFault::Ended),
            Err(Cut::BadAnswer) => {
                count_fault(&mut self.bad_answers);
                Err(WireFault::RecvFailed)
            }
        }
    }

    fn faults(&self) -> u64 {
        let of_net = self.net.faults().saturating_add(self.net.ends());
        self.bad_answers.saturating_add(of_net)
    }
}
