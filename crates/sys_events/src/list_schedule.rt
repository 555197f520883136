ghost use Rattle.std.specs.Prelude.{◌≡◌, ◌≤◌, All, List, length, map};
ghost use Rattle.arrayvec.specs.ArrayVec.{array_vec_len};
ghost use Rattle.debug_model.specs.declared.event.Event.{Event};

use crate::place::following;
use debug_model::{Event, Round, Schedule};
use std::marker::Model;

/// A schedule whose rounds the caller lists.
///
/// Contracts see it as its plan: the rounds, and the place of the next one.
#[derive(Drop)]
pub struct ListSchedule {
    rounds: Vec<Round>,
    place: usize,
}

impl Model for ListSchedule {
    ghost use Rattle.std.specs.Prelude.{◌≤◌, ◌-◌, map, vec_len};
    ghost use Rattle.debug_model.specs.Schedule.{RoundPlan};

    ghost Value = { RoundPlan };

    ghost view = { λ s. record { rounds = map (λ r. r.items) s.rounds.items; place = s.place } };

    ghost invariant = { λ s. s.place ≤ vec_len s.rounds - 1 };
}

impl ListSchedule {
    /// Gives these rounds in order, and starts again after the last one. Without rounds each is empty.
    pub fn new(rounds: Vec<Round>) -> ListSchedule
        ensures plan { result ≡ record { rounds = map (λ r. r.items) rounds.items; place = 0 } }
        ensures few { All (λ (r : List Event). length r ≤ 8) result.rounds }
    {
        measure(&rounds);
        ListSchedule { rounds, place: 0 }
    }
}

/// Asks each round for its length: that none has more than eight events is the promise of its type, which a contract knows of a round only once it is asked.
fn measure(rounds: &[Round])
    ensures { All (λ r. array_vec_len r ≤ 8) rounds.now }
{
    for round in rounds {
        let _few = round.len();
    }
}

impl Schedule for ListSchedule {
    ghost plan = { λ s. s };

    #[inline(always)]
    fn round(&self) -> &[Event] {
        match self.rounds.get(self.place) {
            Some(round) => round.as_slice(),
            None => &[],
        }
    }

    #[inline(always)]
    fn advance(&mut self) {
        self.place = following(self.place, self.rounds.len());
    }
}
