ghost use Rattle.std.specs.Prelude.{◌≡◌, ◌≤◌, ℕ, List, Bool, true, Option, length, replicate, IsTrue, OnOk, OnErr, IfErr, IfSome, option_map};
ghost use Rattle.debug_model.specs.Ties.{Ties, lent_by};
ghost use Rattle.debug_model.specs.Told.{Far, IsOpen, IsLive, IsRead};
ghost use Rattle.debug_model.specs.Wire.{IsPiece, are_open, no_answer, piece_most, sent, SentFront, ReadsFront, ReadsSome, TakesComing, TakesSome, SendCause};
ghost use Rattle.debug_model.specs.Wire.{RecvCause};

use thiserror::Error;

/// The most bytes that one [`Wire::send`] takes.
pub const PIECE_MOST: usize = 256;

/// What stands in a buffer in place of an answer that did not come: an answer of 0, which is refused by nobody.
pub const NO_ANSWER: u8 = b'0';

/// Fills a buffer, or what is left of it, with [`NO_ANSWER`].
pub fn fill_unanswered(into: &mut [u8])
    ensures { into.new ≡ replicate (length into.old) no_answer }
{
    into.fill(NO_ANSWER);
}

/// Why bytes did not cross a wire, or what crossed it in place of an answer.
#[derive(Clone, Copy, Debug, PartialEq, Eq, Error)]
pub enum WireFault {
    /// The bytes were not sent, or not all of them.
    #[error("send")]
    SendFailed,
    /// The answers were not received, or not all of them.
    #[error("receive")]
    RecvFailed,
    /// The other side has ended.
    #[error("ended")]
    Ended,
    /// An answer that is neither `0` nor `1`, kept here.
    #[error("answer 0x{0:02x}")]
    BadAnswer(u8),
}

/// A wire that carries the bytes of the bit-bang stream to a chip, and its answers back.
///
/// Where it tells its far end, or the answers that are to come, the clauses say what each call does there.
pub trait Wire: Drop {
    ghost use Rattle.debug_model.specs.declared.wire.WireFault.{WireFault};

    /// The chip at the far end and its unread answers, where they are told.
    ghost far: { Self → Option Far };

    /// The answers that are to come, where they are told beside a chip or without one.
    ghost coming: { Self → Option (List ℕ) };

    /// How many calls have failed.
    ghost fault_count: { Self → ℕ };

    /// The faults that a call may answer. What stands on another wire has that wire's, so it hands each on as it is.
    ghost gives: { WireFault → Bool };

    /// What the wire keeps of the things below it: the references that it borrows through, and how a net there was opened.
    ghost ties: { Self → Ties };

    /// Sends at most 256 bytes, all of them signs; a `Q` is sent alone. On a fault some of them were sent, from the first on.
    fn send(&mut self, bytes: &[u8]) -> Result<(), WireFault>
        requires most { length bytes.now ≤ piece_most }
        requires piece { IsPiece bytes.now }
        requires open { IsOpen (far self.old) }
        requires read { IsRead (far self.old) }
        ensures sent { OnOk result (far self.new ≡ option_map (sent bytes.now) (far self.old)) }
        ensures live { OnOk result (IsTrue (are_open bytes.now) → IsLive (far self.new)) }
        ensures prefix { OnErr result (SentFront bytes.now (far self.old) (far self.new)) }
        ensures coming { coming self.new ≡ coming self.old }
        ensures later { fault_count self.old ≤ fault_count self.new }
        ensures still { OnOk result (fault_count self.new ≡ fault_count self.old) }
        ensures cause { IfErr result (SendCause (fault_count self.old) (fault_count self.new) (far self.new)) }
        ensures own { IfErr result (λ why. gives why ≡ true) }
        ensures ties { ties self.new ≡ ties self.old };

    /// Fills `into` with the next answers, as they came. On a fault those that came before it stand at its front, with [`NO_ANSWER`] in each place behind
    /// them, and no other was taken.
    fn recv(&mut self, into: &mut [u8]) -> Result<(), WireFault>
        requires open { IsOpen (far self.old) }
        requires waiting { IfSome (far self.old) (λ f. length into.old ≤ length f.unread) }
        ensures read { OnOk result (ReadsFront into.new (far self.old) (far self.new)) }
        ensures came { OnOk result (TakesComing into.new (coming self.old) (coming self.new)) }
        ensures chip { OnErr result (ReadsSome into.new (far self.old) (far self.new)) }
        ensures some { OnErr result (TakesSome into.new (coming self.old) (coming self.new)) }
        ensures later { fault_count self.old ≤ fault_count self.new }
        ensures still { OnOk result (fault_count self.new ≡ fault_count self.old) }
        ensures cause { IfErr result (RecvCause (fault_count self.old) (fault_count self.new) (far self.new)) }
        ensures own { IfErr result (λ why. gives why ≡ true) }
        ensures ties { ties self.new ≡ ties self.old };

    /// How many calls have failed. The count stays at the top of a `u64`.
    fn faults(&self) -> u64
        ensures { result ≡ fault_count self.now };
}

impl<W: Wire> Wire for &mut W {
    ghost far = { λ w. W.far w.now };

    ghost coming = { λ w. W.coming w.now };

    ghost fault_count = { λ w. W.fault_count w.now };

    ghost gives = { W.gives };

    ghost ties = { λ w. lent_by w.ghost_name (W.ties w.now) };

    fn send(&mut self, bytes: &[u8]) -> Result<(), WireFault> {
        (**self).send(bytes)
    }

    fn recv(&mut self, into: &mut [u8]) -> Result<(), WireFault> {
        (**self).recv(into)
    }

    fn faults(&self) -> u64 {
        (**self).faults()
    }
}
