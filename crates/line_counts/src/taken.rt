//! What a sink has taken: a history that only proofs read. It takes no memory, and its methods do nothing at run time.
ghost use Rattle.std.specs.Prelude.{◌≡◌, ℕ, List, [], ◌∷◌, ◌++◌};
ghost use Rattle.std.specs.Borrow.{ftrue};

use std::marker::Model;

// A clause reads the bytes as `bytes`.
#[derive(Drop)]
pub(crate) struct Taken {
    pub(crate) ghost bytes: { List ℕ },
}

impl Model for Taken {
    ghost also_owns = { λ _. ftrue };
}

impl Taken {
    pub(crate) fn new() -> Taken
        ensures { result.bytes ≡ [] }
    {
        Taken {}
    }

    pub(crate) fn and(&self, _byte: &u8) -> Taken
        ensures { result.bytes ≡ self.now.bytes ++ _byte.now ∷ [] }
    {
        Taken {}
    }
}
