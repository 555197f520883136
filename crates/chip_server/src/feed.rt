//! What takes the bytes of a stream.

ghost use Rattle.std.specs.Prelude.{◌≡◌, ◌+◌, ◌≤◌, ◌++◌, [], IsSome, length};
ghost use Rattle.arrayvec.specs.ArrayVec.{array_vec_len};
ghost use Rattle.debug_model.specs.Chip.{Live};
ghost use Rattle.debug_model.specs.Wire.{piece_most};
ghost use Rattle.chip_server.specs.Feeding.{Feeding, TakesPieces, bench_feeding};
ghost use Rattle.chip_server.specs.BenchPieces.{bench_pieces};

use chip_core::{Answers, Bench, Fed};
use debug_model::Schedule;

/// What takes the bytes of the bit-bang stream, piece after piece, and answers them: the chip on a bench, or a chain with that chip in it.
///
/// A piece is only how the bytes happen to come: pieces fed one after the other are the whole of them fed at once.
pub trait Feed {
    ghost use Rattle.std.specs.Prelude.{List, Option};
    ghost use Rattle.std.specs.Borrow.{GName};

    /// What contracts see of it.
    ghost State: { Type 0 };

    /// What it is, or that it is blank.
    ghost state: { Self → Option State };

    /// What it is behind bytes, what it answers, and how they ended it.
    ghost feeding: { Feeding State };

    /// The references that it borrows through.
    ghost lenders: { Self → List GName };

    /// Gives it these bytes, and appends what it answers: each answer is `0` or `1`. It isn't blank, and there is room for as many answers as there are
    /// bytes. Behind what has ended it no byte is taken.
    fn feed(&mut self, bytes: &[u8], answers: &mut Answers) -> Fed
        requires loaded { IsSome (state self.old) }
        requires room { array_vec_len answers.old + length bytes.now ≤ piece_most }
        ensures state { state self.new ≡ feeding.feed_of (state self.old) bytes.now }
        ensures answers { answers.new.items ≡ answers.old.items ++ feeding.said_of (state self.old) bytes.now }
        ensures fed { result ≡ feeding.fed_of (state self.old) bytes.now }
        ensures loaded { IsSome (state self.new) }
        ensures room { array_vec_len answers.new ≤ array_vec_len answers.old + length bytes.now }
        ensures lenders { lenders self.new ≡ lenders self.old };

    /// No bytes do nothing, two pieces are the whole of them, and an end stands among the bytes of its piece.
    ghost takes_pieces: { TakesPieces feeding };
}

impl<Q: Schedule> Feed for Bench<Q> {
    ghost State = { Live };

    ghost state = { λ bench. bench };

    ghost feeding = { bench_feeding };

    ghost lenders = { λ _. [] };

    fn feed(&mut self, bytes: &[u8], answers: &mut Answers) -> Fed {
        Bench::feed(self, bytes, answers)
    }

    ghost takes_pieces = { bench_pieces };
}
