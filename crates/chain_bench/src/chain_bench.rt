//! A wire to a chain on a bench.

ghost use Rattle.std.specs.Prelude.{◌≡◌, ℕ, ◌<◌, ◌≤◌, ◌↔◌, [], Err, IfErr, IfSome, IsSome, IsTrue, OnErr, OnOk, false, length, option_map, true};
ghost use Rattle.debug_model.specs.Loaded.{AsLoaded};
ghost use Rattle.debug_model.specs.Told.{IsLive, IsOpen, IsRead};
ghost use Rattle.debug_model.specs.Ties.{lent_by, ties_told};
ghost use Rattle.debug_model.specs.Wire.{IsPiece, RecvCause, SendCause, TakesComing, TakesSome, are_open, piece_most};
ghost use Rattle.chain_scan.specs.Bypassed.{IsPlannedTold};
ghost use Rattle.chain_scan.specs.Told.{ChainReadsFront, ChainReadsSome, ChainSentFront, chain_sent, chip_told};
ghost use Rattle.chip_core.specs.Feeds.{bench_gives, limit_met, nothing_coming};
ghost use Rattle.chain_bench.specs.Benched.{chain_far, planned_far, tck_of};

use crate::sides::Sides;
use crate::taking::take_all;
use arrayvec::ArrayVec;
use chain_scan::{ChainPlan, ChainWire};
use chip_core::{Answers, Bench};
use debug_model::{Schedule, WireFault, fill_unanswered};

/// A wire to a chain of several TAPs: the chip on a bench, which the caller keeps, and the devices of a plan beside it. It tells the chain.
///
/// No call of it fails but by the chip's event limit: `Ended` comes exactly where the bench has met it, in the call or before. A rise of TCK that meets the
/// limit reaches none of the devices.
#[derive(Drop)]
pub struct ChainBench<'a, Q: Schedule> {
    bench: &'a mut Bench<Q>,
    sides: Sides,
    unread: Answers,
    ghost loaded: { IsSome bench.now },
    ghost clock: { sides.tck ≡ tck_of bench.now },
}

impl<'a, Q: Schedule> ChainBench<'a, Q> {
    /// A wire to this bench, which is loaded, with the devices of this plan beside its chip, as a reset leaves them. TCK is 0, as behind a load.
    #[tactic(auto, using(crate::proofs::Tells::begins, crate::proofs::Tells::planned))]
    pub fn new(bench: &'a mut Bench<Q>, plan: &ChainPlan) -> Self
        requires loaded { IsSome bench.old }
        requires low { tck_of bench.old ≡ false }
        ensures same_reference { result.bench.ghost_name ≡ bench.entry.ghost_name }
        ensures bench { result.bench.now ≡ bench.old }
        ensures unread { result.unread.items ≡ [] }
        ensures chain { chain_far result.bench.now result.sides result.unread.items ≡ planned_far plan.now bench.old }
        ensures planned { IfSome bench.old AsLoaded → IsPlannedTold plan.now (chain_far result.bench.now result.sides result.unread.items) }
    {
        ChainBench {
            bench,
            sides: Sides::new(plan),
            unread: ArrayVec::new(),
        }
    }
}

impl<'a, Q: Schedule> ChainWire for ChainBench<'a, Q> {
    ghost far = { λ w. chain_far w.bench.now w.sides w.unread.items };

    ghost coming = { λ _. nothing_coming };

    ghost fault_count = { λ _. 0 };

    ghost gives = { bench_gives };

    ghost ties = { λ w. lent_by w.bench.ghost_name (ties_told (chip_told (chain_far w.bench.now w.sides w.unread.items))) };

    fn send(&mut self, bytes: &[u8]) -> Result<(), WireFault>
        requires most { length bytes.now ≤ piece_most }
        requires piece { IsPiece bytes.now }
        requires open { IsOpen (chip_told (chain_far self.old.bench.now self.old.sides self.old.unread.items)) }
        requires read { IsRead (chip_told (chain_far self.old.bench.now self.old.sides self.old.unread.items)) }
        ensures sent { OnOk result (chain_far self.new.bench.now self.new.sides self.new.unread.items
            ≡ option_map (chain_sent bytes.now) (chain_far self.old.bench.now self.old.sides self.old.unread.items)) }
        ensures live { OnOk result (IsTrue (are_open bytes.now) → IsLive (chip_told (chain_far self.new.bench.now self.new.sides self.new.unread.items))) }
        ensures prefix { OnErr result (ChainSentFront bytes.now (chain_far self.old.bench.now self.old.sides self.old.unread.items)
            (chain_far self.new.bench.now self.new.sides self.new.unread.items)) }
        ensures coming { nothing_coming ≡ nothing_coming }
        ensures later { 0 ≤ 0 }
        ensures still { OnOk result (◌≡◌ {A = ℕ} 0 0) }
        ensures own { IfErr result (λ why. bench_gives why ≡ true) }
        ensures cause { IfErr result (SendCause 0 0 (chip_told (chain_far self.new.bench.now self.new.sides self.new.unread.items))) }
        ensures ties { lent_by self.new.bench.ghost_name (ties_told (chip_told (chain_far self.new.bench.now self.new.sides self.new.unread.items)))
            ≡ lent_by self.old.bench.ghost_name (ties_told (chip_told (chain_far self.old.bench.now self.old.sides self.old.unread.items))) }
        ensures limit { (result ≡ Err WireFault.Ended) ↔ (limit_met self.new.bench.now ≡ true) }
    {
        take_all(self.bench, &mut self.sides, bytes, &mut self.unread);
        if self.bench.at_limit() {
            return Err(WireFault::Ended);
        }
        Ok(())
    }

    #[tactic(auto, using(crate::proofs::Tells::nothing_came, crate::proofs::Tells::front_read))]
    fn recv(&mut self, into: &mut [u8]) -> Result<(), WireFault>
        requires open { IsOpen (chip_told (chain_far self.old.bench.now self.old.sides self.old.unread.items)) }
        requires waiting { IfSome (chain_far self.old.bench.now self.old.sides self.old.unread.items) (λ f. length into.old ≤ length f.unread) }
        ensures read { OnOk result (ChainReadsFront into.new (chain_far self.old.bench.now self.old.sides self.old.unread.items)
            (chain_far self.new.bench.now self.new.sides self.new.unread.items)) }
        ensures came { OnOk result (TakesComing into.new nothing_coming nothing_coming) }
        ensures chain { OnErr result (ChainReadsSome into.new (chain_far self.old.bench.now self.old.sides self.old.unread.items)
            (chain_far self.new.bench.now self.new.sides self.new.unread.items)) }
        ensures some { OnErr result (TakesSome into.new nothing_coming nothing_coming) }
        ensures later { 0 ≤ 0 }
        ensures still { OnOk result (◌≡◌ {A = ℕ} 0 0) }
        ensures own { IfErr result (λ why. bench_gives why ≡ true) }
        ensures cause { IfErr result (RecvCause 0 0 (chip_told (chain_far self.new.bench.now self.new.sides self.new.unread.items))) }
        ensures ties { lent_by self.new.bench.ghost_name (ties_told (chip_told (chain_far self.new.bench.now self.new.sides self.new.unread.items)))
            ≡ lent_by self.old.bench.ghost_name (ties_told (chip_told (chain_far self.old.bench.now self.old.sides self.old.unread.items))) }
        ensures limit { (result ≡ Err WireFault.Ended) ↔ (limit_met self.new.bench.now ≡ true) }
    {
        if self.bench.at_limit() {
            fill_unanswered(into);
            return Err(WireFault::Ended);
        }
        let count = into.len();
        into.copy_from_slice(&self.unread.as_slice()[..count]);
        self.unread.drain(..count);
        Ok(())
    }

    fn faults(&self) -> u64 {
        0
    }
}
