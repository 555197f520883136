ghost use Rattle.std.specs.Prelude.{◌≡◌, ◌+◌, ◌%◌, ◌<◌, ◌≤◌, ◌==◌, All, List, length, map};
ghost use Rattle.debug_model.specs.declared.event.Event.{Event};
ghost use Rattle.arrayvec.specs.ArrayVec.{array_vec_len};
ghost use Rattle.debug_model.specs.Schedule.{Fair};
ghost use Rattle.sys_events.specs.Seed.{words_of, paired, round_at, rounds_of, seed_plan};

use crate::place::following;
use arrayvec::ArrayVec;
use debug_model::{Event, Round, Schedule};
use rand_core::SeedableRng;
use rand_core::utils::NextWord;
use rand_xoshiro::SplitMix64;
use std::marker::Model;

/// The most rounds in which each event stands once.
pub const MOST_BUSY: u8 = 32;

/// The most harts for which a schedule is made.
pub const MOST_HARTS: u8 = 4;

/// The most rounds before the first one comes again.
const ROUNDS: usize = MOST_BUSY as usize;

/// How many words of the generator a schedule uses: one for each hart's turn, then one for each other event.
pub const WORDS: usize = 7;

/// A schedule that a seed makes: each event stands in one of every `busy` rounds, and the seed says in which.
///
/// The rounds are made once. Contracts see their plan: the first `busy` rounds, and the place of the next one.
#[derive(Drop)]
pub struct SeedSchedule {
    rounds: ArrayVec<Round, ROUNDS>,
    place: usize,
}

impl Model for SeedSchedule {
    ghost use Rattle.std.specs.Prelude.{◌<◌, map};
    ghost use Rattle.arrayvec.specs.ArrayVec.{array_vec_len};
    ghost use Rattle.debug_model.specs.Schedule.{RoundPlan};

    ghost Value = { RoundPlan };

    ghost view = { λ s. record { rounds = map (λ r. r.items) s.rounds.items; place = s.place } };

    ghost invariant = { λ s. s.place < array_vec_len s.rounds };
}

impl SeedSchedule {
    /// The schedule of a seed for this number of harts, with each event in one of every `busy` rounds.
    ///
    /// `busy` is 1 to 32, where 1 puts each event into every round, and `harts` is 1 to 4. It takes no memory.
    pub fn new(seed: u64, busy: u8, harts: u8) -> SeedSchedule
        requires busy { (1 ≤ busy) × (busy ≤ MOST_BUSY) }
        requires harts { (1 ≤ harts) × (harts ≤ MOST_HARTS) }
        ensures plan { result ≡ seed_plan seed busy harts }
        ensures fair { Fair 32 harts result }
        ensures few { All (λ (r : List Event). length r ≤ 8) result.rounds }
    {
        let pairs = pair(first_words(seed), harts);
        SeedSchedule {
            rounds: make_rounds(pairs.as_slice(), busy),
            place: 0,
        }
    }
}

impl Schedule for SeedSchedule {
    ghost plan = { λ s. s };

    #[inline(always)]
    fn round(&self) -> &[Event] {
        self.rounds[self.place].as_slice()
    }

    #[inline(always)]
    fn advance(&mut self) {
        self.place = following(self.place, self.rounds.len());
    }
}

/// The events of a schedule in the order of a round, each with its word.
fn pair(words: [u64; WORDS], harts: u8) -> ArrayVec<(Event, u64), WORDS>
    requires { harts ≤ MOST_HARTS }
    ensures { result.items ≡ paired harts words }
{
    let [.., dmi_done, cmd_step, bus_done] = words;
    let mut pairs = ArrayVec::new();
    'turns: for hart in 0..harts {
        pairs.push((Event::Turn(hart), words[usize::from(hart)]));
    }
    pairs.push((Event::DmiDone, dmi_done));
    pairs.push((Event::CmdStep, cmd_step));
    pairs.push((Event::BusDone, bus_done));
    pairs
}

/// The first `busy` rounds.
fn make_rounds(pairs: &[(Event, u64)], busy: u8) -> ArrayVec<Round, ROUNDS>
    requires busy { busy ≤ MOST_BUSY }
    requires few { length pairs.now ≤ WORDS }
    ensures rounds { map (λ r. r.items) result.items ≡ rounds_of busy pairs.now }
    ensures count { array_vec_len result ≡ busy }
{
    let mut rounds = ArrayVec::new();
    for number in 0..busy {
        rounds.push(make_round(pairs, busy, number));
    }
    rounds
}

/// The first seven words of the seed's generator, SplitMix64: one for each event that there may be.
pub fn first_words(seed: u64) -> [u64; WORDS]
    ensures { result ≡ words_of seed }
{
    let mut random = SplitMix64::from_seed(seed.to_le_bytes());
    let mut words = [0; WORDS];
    for word in words.iter_mut() {
        *word = random.next_word();
    }
    words
}

/// The events of a round: those whose word and the round's number together are a multiple of `busy`.
fn make_round(pairs: &[(Event, u64)], busy: u8, number: u8) -> Round
    requires busy { 0 < busy }
    requires few { length pairs.now ≤ WORDS }
    ensures { result.items ≡ round_at busy pairs.now number }
{
    let mut round = Round::new();
    for (event, word) in pairs {
        if stands(*word, busy, number) {
            round.push(*event);
        }
    }
    round
}

/// Whether an event of this word stands in the round of this number.
fn stands(word: u64, busy: u8, number: u8) -> bool
    requires { 0 < busy }
    ensures { result ≡ ((number + word) % busy == 0) }
{
    // The word and the number together might not fit, so the word is taken modulo `busy` first.
    let busy = u64::from(busy);
    (u64::from(number) + word % busy) % busy == 0
}
