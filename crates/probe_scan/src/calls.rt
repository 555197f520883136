//! What scans were asked for: a history that only proofs read. It takes no memory, and its methods do nothing at run time.
ghost use Rattle.std.specs.Prelude.{◌≡◌, List, [], ◌∷◌, ◌++◌};
ghost use Rattle.std.specs.Borrow.{ftrue};
ghost use Rattle.debug_model.specs.declared.asked.Asked.{Asked};

use debug_model::Asked;
use std::marker::Model;

// A clause reads the calls as `calls`.
#[derive(Drop)]
pub(crate) struct Calls {
    pub(crate) ghost calls: { List Asked },
}

impl Model for Calls {
    ghost also_owns = { λ _. ftrue };
}

impl Calls {
    pub(crate) fn new() -> Calls
        ensures { result.calls ≡ [] }
    {
        Calls {}
    }

    pub(crate) fn and(&self, _asked: &Asked) -> Calls
        ensures { result.calls ≡ self.now.calls ++ _asked.now ∷ [] }
    {
        Calls {}
    }
}
