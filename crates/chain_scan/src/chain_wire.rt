ghost use Rattle.std.specs.Prelude.{◌≡◌, ◌≤◌, ℕ, List, Bool, true, Option, length, IsTrue, OnOk, OnErr, IfErr, IfSome, option_map};
ghost use Rattle.debug_model.specs.Ties.{Ties, lent_by};
ghost use Rattle.debug_model.specs.Told.{IsLive, IsOpen, IsRead};
ghost use Rattle.debug_model.specs.Wire.{IsPiece, RecvCause, SendCause, TakesComing, TakesSome, are_open, piece_most};
ghost use Rattle.chain_scan.specs.Told.{ChainFar, ChainReadsFront, ChainReadsSome, ChainSentFront, chain_sent, chip_told};

use debug_model::WireFault;

/// A wire that carries the bytes of the bit-bang stream to a chain of several TAPs, and its answers back.
///
/// Where it tells its far end, or the answers that are to come, the clauses say what each call does there: what those of a wire to a chip alone say, with the
/// chain in the chip's place.
pub trait ChainWire: Drop {
    ghost use Rattle.debug_model.specs.declared.wire.WireFault.{WireFault};

    /// The chain at the far end and its unread answers, where they are told.
    ghost far: { Self → Option ChainFar };

    /// The answers that are to come, where they are told beside a chain or without one.
    ghost coming: { Self → Option (List ℕ) };

    /// How many calls have failed.
    ghost fault_count: { Self → ℕ };

    /// The faults that a call may answer.
    ghost gives: { WireFault → Bool };

    /// What the wire keeps of the things below it.
    ghost ties: { Self → Ties };

    /// Sends at most 256 bytes, all of them signs; a `Q` is sent alone. On a fault some of them were sent, from the first on.
    fn send(&mut self, bytes: &[u8]) -> Result<(), WireFault>
        requires most { length bytes.now ≤ piece_most }
        requires piece { IsPiece bytes.now }
        requires open { IsOpen (chip_told (far self.old)) }
        requires read { IsRead (chip_told (far self.old)) }
        ensures sent { OnOk result (far self.new ≡ option_map (chain_sent bytes.now) (far self.old)) }
        ensures live { OnOk result (IsTrue (are_open bytes.now) → IsLive (chip_told (far self.new))) }
        ensures prefix { OnErr result (ChainSentFront bytes.now (far self.old) (far self.new)) }
        ensures coming { coming self.new ≡ coming self.old }
        ensures later { fault_count self.old ≤ fault_count self.new }
        ensures still { OnOk result (fault_count self.new ≡ fault_count self.old) }
        ensures cause { IfErr result (SendCause (fault_count self.old) (fault_count self.new) (chip_told (far self.new))) }
        ensures own { IfErr result (λ why. gives why ≡ true) }
        ensures ties { ties self.new ≡ ties self.old };

    /// Fills `into` with the next answers, as they came. On a fault those that came before it stand at its front, with `NO_ANSWER` of the crate `debug_model`
    /// in each place behind them, and no other was taken.
    fn recv(&mut self, into: &mut [u8]) -> Result<(), WireFault>
        requires open { IsOpen (chip_told (far self.old)) }
        requires waiting { IfSome (far self.old) (λ f. length into.old ≤ length f.unread) }
        ensures read { OnOk result (ChainReadsFront into.new (far self.old) (far self.new)) }
        ensures came { OnOk result (TakesComing into.new (coming self.old) (coming self.new)) }
        ensures chain { OnErr result (ChainReadsSome into.new (far self.old) (far self.new)) }
        ensures some { OnErr result (TakesSome into.new (coming self.old) (coming self.new)) }
        ensures later { fault_count self.old ≤ fault_count self.new }
        ensures still { OnOk result (fault_count self.new ≡ fault_count self.old) }
        ensures cause { IfErr result (RecvCause (fault_count self.old) (fault_count self.new) (chip_told (far self.new))) }
        ensures own { IfErr result (λ why. gives why ≡ true) }
        ensures ties { ties self.new ≡ ties self.old };

    /// How many calls have failed. The count stays at the top of a `u64`.
    fn faults(&self) -> u64
        ensures { result ≡ fault_count self.now };
}

impl<W: ChainWire> ChainWire for &mut W {
    ghost far = { λ w. W.far w.now };

    ghost coming = { λ w. W.coming w.now };

    ghost fault_count = { λ w. W.fault_count w.now };

    ghost gives = { W.gives };

    ghost ties = { λ w. lent_by w.ghost_name (W.ties w.now) };

    fn send(&mut self, bytes: &[u8]) -> Result<(), WireFault> {
        (**self).send(bytes)
    }

    fn recv(&mut self, into: &mut [u8]) -> Result<(), WireFault> {
        (**self).recv(into)
    }

    fn faults(&self) -> u64 {
        (**self).faults()
    }
}
