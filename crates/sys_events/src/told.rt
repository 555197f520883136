//! What a journal was told: a history that only proofs read. It takes no memory, and its methods do nothing at run time.
ghost use Rattle.std.specs.Prelude.{◌≡◌, List, [], ◌∷◌, ◌++◌};
ghost use Rattle.std.specs.Borrow.{ftrue};
ghost use Rattle.debug_model.specs.declared.point.Point.{Point};

use debug_model::Point;
use std::marker::Model;

// A clause reads the points as `points`.
#[derive(Drop)]
pub(crate) struct Told {
    pub(crate) ghost points: { List Point },
}

impl Model for Told {
    ghost also_owns = { λ _. ftrue };
}

impl Told {
    pub(crate) fn new() -> Told
        ensures { result.points ≡ [] }
    {
        Told {}
    }

    pub(crate) fn and(&self, _point: &Point) -> Told
        ensures { result.points ≡ self.now.points ++ _point.now ∷ [] }
    {
        Told {}
    }
}
