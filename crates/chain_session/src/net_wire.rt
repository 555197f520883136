//! The bit-bang stream to a chain over a net.
ghost use Rattle.std.specs.Prelude.{◌≡◌, ◌≤◌, None, true, length, IsTrue, IfErr, IfSome, OnErr, OnOk, is_none, option_map};
ghost use Rattle.debug_model.specs.Net.{PutFront, after_put, coming_of};
ghost use Rattle.debug_model.specs.Told.{IsLive, IsOpen, IsRead};
ghost use Rattle.debug_model.specs.Wire.{IsPiece, RecvCause, SendCause, TakesComing, TakesSome, are_open, piece_most};
ghost use Rattle.debug_model.specs.declared.net.End.TheVariants as end;
ghost use Rattle.jtag_net.specs.Wired.{PutCause, ReadCause, Took, TookSome, are_answers, net_gives, summed, wired_ties};
ghost use Rattle.chain_scan.specs.Told.{ChainReadsFront, ChainReadsSome, ChainSentFront, chain_sent, chip_told};
ghost use Rattle.chain_session.specs.Untold.{no_chain};

use chain_scan::ChainWire;
use debug_model::{Net, Wire, WireFault};
use jtag_net::NetWire;

/// A wire to a chain over the near end of a net which tells no chip, as one to a board does. It tells no chain; the answers that are to come it tells where the
/// net does. It hands each call on to the wire over the net, whose faults and whose count of them are its own.
#[derive(Drop)]
pub struct ChainNetWire<'a, N: Net> {
    wire: NetWire<'a, N>,
    ghost untold: { IsTrue (is_none (N.state wire.net.now).chip) },
}

impl<'a, N: Net> ChainNetWire<'a, N> {
    /// A wire to a chain over this one, whose net tells no chip.
    #[tactic(auto, using(crate::proofs::Untold::none_from))]
    pub fn new(wire: NetWire<'a, N>) -> Self
        requires untold { (N.state wire.net.now).chip ≡ None }
        ensures { result.wire ≡ wire.entry }
    {
        ChainNetWire { wire }
    }
}

impl<'a, N: Net> ChainWire for ChainNetWire<'a, N> {
    ghost far = { λ _. no_chain };

    ghost coming = { λ w. coming_of (N.state w.wire.net.now) };

    ghost fault_count = { λ w. summed w.wire.bad_answers (N.fault_count w.wire.net.now) (N.end_count w.wire.net.now) };

    ghost gives = { net_gives };

    ghost ties = { λ w. wired_ties w.wire.net.ghost_name (N.lenders w.wire.net.now) (N.state w.wire.net.now) };

    #[tactic(auto, using(crate::proofs::Untold::untold_open, crate::proofs::Untold::untold_read, crate::proofs::Untold::sent_untold, crate::proofs::Untold::send_cause))]
    fn send(&mut self, bytes: &[u8]) -> Result<(), WireFault>
        requires most { length bytes.now ≤ piece_most }
        requires piece { IsPiece bytes.now }
        requires open { IsOpen (chip_told no_chain) }
        requires read { IsRead (chip_told no_chain) }
        ensures sent { OnOk result (no_chain ≡ option_map (chain_sent bytes.now) no_chain) }
        ensures live { OnOk result (IsTrue (are_open bytes.now) → IsLive (chip_told no_chain)) }
        ensures prefix { OnErr result (ChainSentFront bytes.now no_chain no_chain) }
        ensures coming { coming_of (N.state self.new.wire.net.now) ≡ coming_of (N.state self.old.wire.net.now) }
        ensures later { summed self.old.wire.bad_answers (N.fault_count self.old.wire.net.now) (N.end_count self.old.wire.net.now)
            ≤ summed self.new.wire.bad_answers (N.fault_count self.new.wire.net.now) (N.end_count self.new.wire.net.now) }
        ensures still { OnOk result (summed self.new.wire.bad_answers (N.fault_count self.new.wire.net.now) (N.end_count self.new.wire.net.now)
            ≡ summed self.old.wire.bad_answers (N.fault_count self.old.wire.net.now) (N.end_count self.old.wire.net.now)) }
        ensures cause { IfErr result (SendCause
            (summed self.old.wire.bad_answers (N.fault_count self.old.wire.net.now) (N.end_count self.old.wire.net.now))
            (summed self.new.wire.bad_answers (N.fault_count self.new.wire.net.now) (N.end_count self.new.wire.net.now)) (chip_told no_chain)) }
        ensures own { IfErr result (λ why. net_gives why ≡ true) }
        ensures ties { wired_ties self.new.wire.net.ghost_name (N.lenders self.new.wire.net.now) (N.state self.new.wire.net.now)
            ≡ wired_ties self.old.wire.net.ghost_name (N.lenders self.old.wire.net.now) (N.state self.old.wire.net.now) }
        ensures net { OnOk result (N.state self.new.wire.net.now ≡ after_put end.Near bytes.now (N.state self.old.wire.net.now)) }
        ensures net_front { OnErr result (PutFront end.Near bytes.now (N.state self.old.wire.net.now) (N.state self.new.wire.net.now)) }
        ensures faults { IfErr result (PutCause (N.fault_count self.old.wire.net.now) (N.fault_count self.new.wire.net.now)) }
        ensures none { self.new.wire.bad_answers ≡ self.old.wire.bad_answers }
    {
        self.wire.send(bytes)
    }

    #[tactic(auto, using(crate::proofs::Untold::untold_open, crate::proofs::Untold::untold_waiting, crate::proofs::Untold::read_untold, crate::proofs::Untold::recv_cause))]
    fn recv(&mut self, into: &mut [u8]) -> Result<(), WireFault>
        requires open { IsOpen (chip_told no_chain) }
        requires waiting { IfSome no_chain (λ f. length into.old ≤ length f.unread) }
        ensures read { OnOk result (ChainReadsFront into.new no_chain no_chain) }
        ensures came { OnOk result (TakesComing into.new (coming_of (N.state self.old.wire.net.now)) (coming_of (N.state self.new.wire.net.now))) }
        ensures chain { OnErr result (ChainReadsSome into.new no_chain no_chain) }
        ensures some { OnErr result (TakesSome into.new (coming_of (N.state self.old.wire.net.now)) (coming_of (N.state self.new.wire.net.now))) }
        ensures later { summed self.old.wire.bad_answers (N.fault_count self.old.wire.net.now) (N.end_count self.old.wire.net.now)
            ≤ summed self.new.wire.bad_answers (N.fault_count self.new.wire.net.now) (N.end_count self.new.wire.net.now) }
        ensures still { OnOk result (summed self.new.wire.bad_answers (N.fault_count self.new.wire.net.now) (N.end_count self.new.wire.net.now)
            ≡ summed self.old.wire.bad_answers (N.fault_count self.old.wire.net.now) (N.end_count self.old.wire.net.now)) }
        ensures cause { IfErr result (RecvCause
            (summed self.old.wire.bad_answers (N.fault_count self.old.wire.net.now) (N.end_count self.old.wire.net.now))
            (summed self.new.wire.bad_answers (N.fault_count self.new.wire.net.now) (N.end_count self.new.wire.net.now)) (chip_told no_chain)) }
        ensures own { IfErr result (λ why. net_gives why ≡ true) }
        ensures ties { wired_ties self.new.wire.net.ghost_name (N.lenders self.new.wire.net.now) (N.state self.new.wire.net.now)
            ≡ wired_ties self.old.wire.net.ghost_name (N.lenders self.old.wire.net.now) (N.state self.old.wire.net.now) }
        ensures net { OnOk result (Took (length into.new) into.new (N.state self.old.wire.net.now) (N.state self.new.wire.net.now)) }
        ensures net_some { OnErr result (TookSome into.new (N.state self.old.wire.net.now) (N.state self.new.wire.net.now)) }
        ensures answers { OnOk result (IsTrue (are_answers into.new)) }
        ensures none { OnOk result (self.new.wire.bad_answers ≡ self.old.wire.bad_answers) }
        ensures faults { IfErr result (ReadCause (are_answers into.new) self.old.wire.bad_answers self.new.wire.bad_answers
            (N.fault_count self.old.wire.net.now) (N.fault_count self.new.wire.net.now)
            (N.end_count self.old.wire.net.now) (N.end_count self.new.wire.net.now)) }
    {
        self.wire.recv(into)
    }

    fn faults(&self) -> u64 {
        self.wire.faults()
    }
}
