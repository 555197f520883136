//! The bench: a chip, or none yet.

ghost use Rattle.std.specs.Prelude.{◌≡◌, Some, None, IsSome};
ghost use Rattle.chip_core.specs.Feeds.{counts_of, harts_of, journal_of, limit_met, memory_of};
ghost use Rattle.chip_core.specs.Limits.{MeetsLimitRightly};
ghost use Rattle.std.specs.Prelude.{[], is_some};

mod feed;
mod load;

use crate::chip::Chip;
use arrayvec::ArrayVec;
use debug_model::{ChipEnd, Counts, Schedule};
use hart_debug::DebugHart;
use rv_mem::Ram;
use std::marker::Model;
use sys_events::Journal;

/// The most answers that a feed has room for.
pub const ANSWERS_MOST: usize = 256;

/// Answers of a chip, each the character `0` or `1`, in the order of their questions.
pub type Answers = ArrayVec<u8, ANSWERS_MOST>;

/// A bench with a chip that was loaded, or blank.
///
/// Contracts see the chip, with what ended it, where there is one.
#[derive(Drop)]
pub struct Bench<Q: Schedule> {
    chip: Option<Chip<Q>>,
    nothing_noted: Journal,
}

impl<Q: Schedule> Model for Bench<Q> {
    ghost use Rattle.std.specs.Coded.{codes};
    ghost use Rattle.std.specs.Prelude.{◌≡◌, [], Option};
    ghost use Rattle.rv_model.specs.Codes.{hart_code};
    ghost use Rattle.rv_model.specs.Memory.{memory_code};
    ghost use Rattle.debug_model.specs.Chip.{Live};

    ghost Value = { Option Live };

    ghost coded = { Prim.hlevel (codes, memory_code, hart_code) };

    ghost view = { λ b. b.chip };

    ghost invariant = { λ b. b.nothing_noted ≡ [] };
}

impl<Q: Schedule> Bench<Q> {
    /// A bench without a chip. It takes no memory.
    pub fn blank() -> Self
        ensures { result ≡ None }
    {
        Bench {
            chip: None,
            nothing_noted: Journal::empty(),
        }
    }

    /// Whether there is a chip.
    pub fn is_loaded(&self) -> bool
        ensures { result ≡ is_some self.now }
    {
        self.chip.is_some()
    }

    /// The harts, each at the place of its number; a blank bench has none.
    pub fn harts(&self) -> &[DebugHart]
        ensures { result.now ≡ harts_of self.now }
    {
        match &self.chip {
            Some(chip) => chip.system().harts(),
            None => &[],
        }
    }

    /// The memory of the harts.
    pub fn ram(&self) -> &Ram
        requires { IsSome self.now }
        ensures { memory_of self.now ≡ Some result.now }
    {
        self.chip.as_ref().unwrap().system().ram()
    }

    /// What has happened since the load; nothing on a blank bench.
    pub fn journal(&self) -> &Journal
        ensures { result.now ≡ journal_of self.now }
    {
        match &self.chip {
            Some(chip) => chip.system().journal(),
            None => &self.nothing_noted,
        }
    }

    /// What was counted since the load: at most 2^62 rounds, and at most as many of each other count.
    pub fn counts(&self) -> Counts
        ensures { result ≡ counts_of self.now }
    {
        match &self.chip {
            Some(chip) => chip.system().counts(),
            None => Counts {
                rounds: 0,
                dmi_done: 0,
                dmi_busy: 0,
                dmi_failed: 0,
            },
        }
    }

    /// That a chip which ended at its limit has more points than it may have, or as many rounds, as its type promises.
    pub fn know_limit(&self)
        ensures { MeetsLimitRightly self.now }
    {
        if let Some(chip) = &self.chip {
            chip.know_limit();
        }
    }

    /// Whether a rise of TCK has met the limit of points or of rounds since the load.
    pub fn at_limit(&self) -> bool
        ensures { result ≡ limit_met self.now }
    {
        match &self.chip {
            Some(chip) => matches!(chip.ending(), Some(ChipEnd::AtLimit)),
            None => false,
        }
    }
}
