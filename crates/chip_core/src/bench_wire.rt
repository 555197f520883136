//! A wire to the chip on a bench.

ghost use Rattle.std.specs.Prelude.{◌≡◌, ℕ, ◌+◌, ◌<◌, ◌≤◌, ◌++◌, ◌↔◌, [], Err, IfErr, IfSome, IsSome, IsTrue, OnErr, OnOk, length, option_map, true};
ghost use Rattle.arrayvec.specs.ArrayVec.{array_vec_len};
ghost use Rattle.debug_model.specs.Told.{IsLive, IsOpen, IsRead};
ghost use Rattle.debug_model.specs.Ties.{lent_by, ties_told};
ghost use Rattle.debug_model.specs.Wire.{IsPiece, ReadsFront, ReadsSome, RecvCause, SendCause, SentFront, TakesComing, TakesSome, are_open, piece_most, sent};
ghost use Rattle.chip_core.specs.Feeds.{bench_gives, far_of, feed_of, limit_met, nothing_coming, said_of};

use crate::bench::{Answers, Bench};
use arrayvec::ArrayVec;
use debug_model::{Schedule, Wire, WireFault, fill_unanswered};

/// A wire to the chip on a bench, which the caller keeps. It tells the chip, and hands bytes on in pieces of at most the given size.
///
/// No call of it fails but by the event limit: `Ended` comes exactly where the bench has met it, in the call or before.
#[derive(Drop)]
pub struct BenchWire<'a, Q: Schedule> {
    bench: &'a mut Bench<Q>,
    unread: Answers,
    piece: usize,
    ghost some: { (1 ≤ piece) × (piece ≤ piece_most) },
    ghost loaded: { IsSome bench.now },
}

/// Feeds all the bytes, at most `piece` at once, whatever each feed answers.
pub fn feed_pieces<Q: Schedule>(
    bench: &mut Bench<Q>,
    bytes: &[u8],
    piece: usize,
    answers: &mut Answers,
)
    requires some { 1 ≤ piece }
    requires loaded { IsSome bench.old }
    requires room { array_vec_len answers.old + length bytes.now ≤ piece_most }
    ensures chip { bench.new ≡ feed_of bench.old bytes.now }
    ensures answers { answers.new.items ≡ answers.old.items ++ said_of bench.old bytes.now }
    ensures loaded { IsSome bench.new }
{
    let mut rest = bytes;
    'pieces: while !rest.is_empty() {
        let (front, back) = rest.split_at(rest.len().min(piece));
        bench.feed(front, answers);
        rest = back;
    }
}

impl<'a, Q: Schedule> BenchWire<'a, Q> {
    /// A wire to this bench, which is loaded. A piece has 1 to 256 bytes.
    pub fn new(bench: &'a mut Bench<Q>, piece: usize) -> Self
        requires piece { (1 ≤ piece) × (piece ≤ piece_most) }
        requires loaded { IsSome bench.old }
        ensures same_reference { result.bench.ghost_name ≡ bench.entry.ghost_name }
        ensures bench { result.bench.now ≡ bench.old }
        ensures unread { result.unread.items ≡ [] }
    {
        BenchWire {
            bench,
            unread: ArrayVec::new(),
            piece,
        }
    }
}

impl<'a, Q: Schedule> Wire for BenchWire<'a, Q> {
    ghost far = { λ w. far_of w.bench.now w.unread.items };

    ghost coming = { λ _. nothing_coming };

    ghost fault_count = { λ _. 0 };

    ghost gives = { bench_gives };

    ghost ties = { λ w. lent_by w.bench.ghost_name (ties_told (far_of w.bench.now w.unread.items)) };

    fn send(&mut self, bytes: &[u8]) -> Result<(), WireFault>
        requires most { length bytes.now ≤ piece_most }
        requires piece { IsPiece bytes.now }
        requires open { IsOpen (far_of self.old.bench.now self.old.unread.items) }
        requires read { IsRead (far_of self.old.bench.now self.old.unread.items) }
        ensures sent { OnOk result (far_of self.new.bench.now self.new.unread.items
            ≡ option_map (sent bytes.now) (far_of self.old.bench.now self.old.unread.items)) }
        ensures live { OnOk result (IsTrue (are_open bytes.now) → IsLive (far_of self.new.bench.now self.new.unread.items)) }
        ensures prefix { OnErr result (SentFront bytes.now (far_of self.old.bench.now self.old.unread.items)
            (far_of self.new.bench.now self.new.unread.items)) }
        ensures coming { nothing_coming ≡ nothing_coming }
        ensures later { 0 ≤ 0 }
        ensures still { OnOk result (◌≡◌ {A = ℕ} 0 0) }
        ensures own { IfErr result (λ why. bench_gives why ≡ true) }
        ensures cause { IfErr result (SendCause 0 0 (far_of self.new.bench.now self.new.unread.items)) }
        ensures ties { lent_by self.new.bench.ghost_name (ties_told (far_of self.new.bench.now self.new.unread.items))
            ≡ lent_by self.old.bench.ghost_name (ties_told (far_of self.old.bench.now self.old.unread.items)) }
        ensures limit { (result ≡ Err WireFault.Ended) ↔ (limit_met self.new.bench.now ≡ true) }
    {
        feed_pieces(self.bench, bytes, self.piece, &mut self.unread);
        if self.bench.at_limit() {
            return Err(WireFault::Ended);
        }
        Ok(())
    }

    #[tactic(auto, using(debug_model::proofs::WireLemmas::none_came))]
    fn recv(&mut self, into: &mut [u8]) -> Result<(), WireFault>
        requires open { IsOpen (far_of self.old.bench.now self.old.unread.items) }
        requires waiting { IfSome (far_of self.old.bench.now self.old.unread.items) (λ f. length into.old ≤ length f.unread) }
        ensures read { OnOk result (ReadsFront into.new (far_of self.old.bench.now self.old.unread.items) (far_of self.new.bench.now self.new.unread.items)) }
        ensures came { OnOk result (TakesComing into.new nothing_coming nothing_coming) }
        ensures chip { OnErr result (ReadsSome into.new (far_of self.old.bench.now self.old.unread.items) (far_of self.new.bench.now self.new.unread.items)) }
        ensures some { OnErr result (TakesSome into.new nothing_coming nothing_coming) }
        ensures later { 0 ≤ 0 }
        ensures still { OnOk result (◌≡◌ {A = ℕ} 0 0) }
        ensures own { IfErr result (λ why. bench_gives why ≡ true) }
        ensures cause { IfErr result (RecvCause 0 0 (far_of self.new.bench.now self.new.unread.items)) }
        ensures ties { lent_by self.new.bench.ghost_name (ties_told (far_of self.new.bench.now self.new.unread.items))
            ≡ lent_by self.old.bench.ghost_name (ties_told (far_of self.old.bench.now self.old.unread.items)) }
        ensures limit { (result ≡ Err WireFault.Ended) ↔ (limit_met self.new.bench.now ≡ true) }
    {
        if self.bench.at_limit() {
            fill_unanswered(into);
            return Err(WireFault::Ended);
        }
        let count = into.len();
        into.copy_from_slice(&self.unread.as_slice()[..count]);
        self.unread.drain(..count);
        Ok(())
    }

    fn faults(&self) -> u64 {
        0
    }
}
