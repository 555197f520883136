ghost use Rattle.std.specs.Prelude.{◌≡◌, ◌<◌, ◌≤◌, [], ◌∷◌, ◌++◌, length, count_by, IsTrue, ◌↔◌};
ghost use Rattle.sys_events.specs.Journal.{is_access, is_look, is_request, is_turn, journal_room};

use crate::told::Told;
use debug_model::Point;
use std::marker::Model;

/// The points of a chip, which it counts by their kinds and keeps none of. It takes no memory.
///
/// A clause reads it as the list of the points that it was told, in the order in which they came.
#[derive(Drop)]
pub struct Journal {
    turns: u64,
    looks: u64,
    requests: u64,
    accesses: u64,
    told: Told,
}

impl Model for Journal {
    ghost use Rattle.std.specs.Prelude.{List};
    ghost use Rattle.debug_model.specs.declared.point.Point.{Point};
    ghost use Rattle.sys_events.specs.Journal.{AreCountsOf};

    ghost Value = { List Point };

    ghost view = { λ j. j.told.points };

    ghost invariant = { λ j. AreCountsOf j.turns j.looks j.requests j.accesses j.told.points };
}

impl Journal {
    /// A journal that was told nothing yet.
    pub fn empty() -> Journal
        ensures { result ≡ [] }
    {
        Journal {
            turns: 0,
            looks: 0,
            requests: 0,
            accesses: 0,
            told: Told::new(),
        }
    }

    /// Appends a point. It takes always the same short time.
    #[inline(always)]
    pub fn note(&mut self, point: Point)
        requires { length self.old < journal_room }
        ensures { self.new ≡ self.old ++ point ∷ [] }
    {
        match point {
            Point::Turn(_) => self.turns += 1,
            Point::Look(_) => self.looks += 1,
            Point::HaltReq(_) | Point::HaltClear(_) | Point::ResumeReq(_) => self.requests += 1,
            Point::Access => self.accesses += 1,
        }
        self.told = self.told.and(&point);
    }

    /// How many points have come.
    #[inline(always)]
    pub fn len(&self) -> u64
        ensures { result ≡ length self.now }
    {
        self.turns + self.looks + self.requests + self.accesses
    }

    /// Whether no point has come.
    pub fn is_empty(&self) -> bool
        ensures { IsTrue result ↔ (self.now ≡ []) }
    {
        self.len() == 0
    }

    /// How many turns the harts had, also while they were halted.
    pub fn turns(&self) -> u64
        ensures { result ≡ count_by is_turn self.now }
    {
        self.turns
    }

    /// How often a debugger looked at a hart.
    pub fn looks(&self) -> u64
        ensures { result ≡ count_by is_look self.now }
    {
        self.looks
    }

    /// How often a debugger set or took back a halt request, or requested that a hart resume.
    pub fn requests(&self) -> u64
        ensures { result ≡ count_by is_request self.now }
    {
        self.requests
    }

    /// How many accesses to memory a debugger had made.
    pub fn accesses(&self) -> u64
        ensures { result ≡ count_by is_access self.now }
    {
        self.accesses
    }
}
