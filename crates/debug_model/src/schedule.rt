ghost use Rattle.std.specs.Prelude.{◌≡◌, ◌≤◌, length};
ghost use Rattle.debug_model.specs.Schedule.{RoundPlan, round_of, moved};

use crate::event::{Event, Round};

/// The rounds of a chip: at each rising edge of TCK it takes the next one.
pub trait Schedule: Drop {
    // A list of rounds, each of at most eight events, and the place of the next one.
    ghost plan: { Self → RoundPlan };

    /// The events of the next round, which stays the next one. An empty list of rounds gives empty rounds.
    fn round(&self) -> &[Event]
        ensures round { result.now ≡ round_of (plan self.now) }
        ensures few { length result.now ≤ 8 };

    /// Moves on to the round behind the next one: from the list's end back at its start.
    fn advance(&mut self)
        ensures { plan self.new ≡ moved (plan self.old) };

    /// The next round. It never fails: the list starts again at its end, and an empty list gives empty rounds.
    fn next(&mut self) -> Round
        ensures round { result.items ≡ round_of (plan self.old) }
        ensures moved { plan self.new ≡ moved (plan self.old) }
    {
        let round = Round::try_from(self.round()).unwrap();
        self.advance();
        round
    }
}
