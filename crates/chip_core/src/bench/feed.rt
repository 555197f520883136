//! Feeding a bench.

ghost use Rattle.std.specs.Prelude.{◌≡◌, ◌+◌, ◌≤◌, ◌++◌, IfSome, IsSome, None, length};
ghost use Rattle.arrayvec.specs.ArrayVec.{array_vec_len};
ghost use Rattle.debug_model.specs.Chip.{feed, said};
ghost use Rattle.debug_model.specs.Schedule.{RoundPlan};
ghost use Rattle.debug_model.specs.Wire.{piece_most};
ghost use Rattle.chip_core.specs.Fed.{fed};
ghost use Rattle.chip_core.specs.Feeds.{fed_of, feed_of, said_of};
ghost use Rattle.debug_model.specs.Offered.{TurnsOffered};

use super::{Answers, Bench};
use crate::chip::Chip;
use crate::fed::{Fed, fed_at};
use debug_model::Schedule;

impl<Q: Schedule> Chip<Q> {
    /// These bytes, where nothing has ended the chip.
    fn feed_live(&mut self, bytes: &[u8], answers: &mut Answers) -> Fed
        requires live { self.old.ended ≡ None }
        requires room { array_vec_len answers.old + length bytes.now ≤ piece_most }
        ensures chip { self.new ≡ feed self.old bytes.now }
        ensures answers { answers.new.items ≡ answers.old.items ++ said self.old bytes.now }
        ensures fed { result ≡ fed self.old bytes.now }
        ensures room { array_vec_len answers.new ≤ array_vec_len answers.old + length bytes.now }
    {
        let mut rest = bytes;
        let mut place = 0;
        'bytes: while let [byte, after @ ..] = rest {
            self.take(*byte, answers);
            if let Some(end) = self.ending() {
                return fed_at(end, place);
            }
            place += 1;
            rest = after;
        }
        Fed::All
    }

    /// These bytes; nothing behind what ended the chip.
    pub(crate) fn feed(&mut self, bytes: &[u8], answers: &mut Answers) -> Fed
        requires room { array_vec_len answers.old + length bytes.now ≤ piece_most }
        ensures chip { self.new ≡ feed self.old bytes.now }
        ensures answers { answers.new.items ≡ answers.old.items ++ said self.old bytes.now }
        ensures fed { result ≡ fed self.old bytes.now }
        ensures room { array_vec_len answers.new ≤ array_vec_len answers.old + length bytes.now }
    {
        match self.ending() {
            None => self.feed_live(bytes, answers),
            Some(end) => match bytes {
                [] => Fed::All,
                [_, ..] => fed_at(end, 0),
            },
        }
    }
}

impl<Q: Schedule> Bench<Q> {
    /// Gives the chip these bytes, and appends what it answers: each answer is `0` or `1`. The bench is loaded, and there is room for as many
    /// answers as there are bytes.
    ///
    /// Source: OpenOCD, remote_bitbang. Each rise of TCK acts on the TAP, and then takes the schedule's next round. What has ended the chip stays:
    /// behind it no byte is taken, and the answer is the same with place 0.
    pub fn feed(&mut self, bytes: &[u8], answers: &mut Answers) -> Fed
        requires loaded { IsSome self.old }
        requires room { array_vec_len answers.old + length bytes.now ≤ piece_most }
        ensures chip { self.new ≡ feed_of self.old bytes.now }
        ensures answers { answers.new.items ≡ answers.old.items ++ said_of self.old bytes.now }
        ensures fed { result ≡ fed_of self.old bytes.now }
        ensures loaded { IsSome self.new }
        ensures room { array_vec_len answers.new ≤ array_vec_len answers.old + length bytes.now }
        ensures turns { (first : RoundPlan) → IfSome self.old (λ l. TurnsOffered first l.chip) → IfSome self.new (λ l. TurnsOffered first l.chip) }
    {
        let Some(chip) = &mut self.chip else {
            return Fed::All;
        };
        chip.feed(bytes, answers)
    }
}
