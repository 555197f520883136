//! What an operation answers.

ghost use Rattle.std.specs.Prelude.{◌≡◌, [], ◌∷◌};

use arrayvec::ArrayVec;
use debug_model::Point;

/// The most points of one operation: a halt request is cleared, and a resume requested.
pub const MOST_POINTS: usize = 2;

/// What happened in an operation that a debugger can tell apart, in order.
pub type Points = ArrayVec<Point, MOST_POINTS>;

/// An operation on the debug module that has been performed.
#[derive(Drop)]
pub struct Performed {
    /// The word that was read, or the one that was written.
    pub result: u32,
    /// What the journal has of it.
    pub points: Points,
}

/// An operation of which the journal has nothing.
pub fn unnoted(word: u32) -> Performed
    ensures result { result.result ≡ word }
    ensures points { result.points.items ≡ [] }
{
    Performed {
        result: word,
        points: ArrayVec::new(),
    }
}

/// An operation of which the journal has one point.
pub fn noted(word: u32, point: Point) -> Performed
    ensures result { result.result ≡ word }
    ensures points { result.points.items ≡ point ∷ [] }
{
    let mut points = ArrayVec::new();
    points.push(point);
    Performed {
        result: word,
        points,
    }
}
