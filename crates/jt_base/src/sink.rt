//! Sinks of bytes.
ghost use Rattle.std.specs.Prelude.{◌≡◌, ℕ, List, ◌∷◌, Option, OnOk, OnErr};
ghost use Rattle.std.specs.Borrow.{GName};
ghost use Rattle.jt_base.specs.Faults.{HasCause, count_after};
ghost use Rattle.jt_base.specs.Sink.{grown, GrewByPrefix};

use thiserror::Error;

/// Why bytes weren't taken.
#[derive(Clone, Copy, Debug, PartialEq, Eq, Error)]
pub enum SinkFault {
    /// The sink took not all of the bytes, and the count of faults rose.
    #[error("the output cannot be written")]
    Failed,
}

/// Takes bytes.
pub trait Sink: Drop {
    /// The bytes that were taken, where they are told.
    ghost contents: { Self → Option (List ℕ) };

    /// How many calls have failed.
    ghost fault_count: { Self → ℕ };

    /// The references that this sink borrows through.
    ghost lenders: { Self → List GName };

    /// Takes all of the bytes, or fails and has taken a prefix of them.
    fn put(&mut self, bytes: &[u8]) -> Result<(), SinkFault>
        ensures put { OnOk result (contents self.new ≡ grown bytes.now (contents self.old)) }
        ensures front { OnErr result (GrewByPrefix bytes.now (contents self.old) (contents self.new)) }
        ensures cause { HasCause (fault_count self.old) (fault_count self.new) result }
        ensures count { fault_count self.new ≡ count_after result (fault_count self.old) }
        ensures lenders { lenders self.new ≡ lenders self.old };

    /// How many calls have failed. The count stands still at its type's end.
    fn faults(&self) -> u64
        ensures { result ≡ fault_count self.now };
}

impl<K: Sink> Sink for &mut K {
    ghost contents = { λ k. K.contents k.now };

    ghost fault_count = { λ k. K.fault_count k.now };

    ghost lenders = { λ k. k.ghost_name ∷ K.lenders k.now };

    fn put(&mut self, bytes: &[u8]) -> Result<(), SinkFault> {
        (**self).put(bytes)
    }

    fn faults(&self) -> u64 {
        (**self).faults()
    }
}
