ghost use Rattle.std.specs.Prelude.{◌≡◌};
ghost use Rattle.probe_dmi.specs.Pace.{IsPace, behind_busy, never_waits, nothing_learnt};

/// The most clocks that a link waits.
const PAUSE_MOST: u8 = 24;

/// So many busy answers add a clock each.
const EAGER_MOST: u8 = 2;

/// How long a link waits in Run-Test/Idle before each scan of several operations.
#[derive(Clone, Copy, Debug, PartialEq, Eq)]
pub struct Pace {
    /// How many clocks.
    pub clocks: u8,
    /// At most so many clocks.
    pub most: u8,
    /// The last busy answer added none, and the next one does.
    pub due: bool,
}

impl Pace {
    /// That of a link which never waits.
    pub fn never() -> Self
        ensures value { result ≡ never_waits }
        ensures pace { IsPace result }
    {
        Pace {
            clocks: 0,
            most: 0,
            due: false,
        }
    }

    /// That of a link which has learnt nothing yet, and waits for at most 24 clocks.
    pub fn learning() -> Self
        ensures value { result ≡ nothing_learnt }
        ensures pace { IsPace result }
    {
        Pace {
            clocks: 0,
            most: PAUSE_MOST,
            due: false,
        }
    }

    /// That behind a busy answer: each of the first two adds a clock, and then each second one.
    pub fn behind_busy(self) -> Self
        requires pace { IsPace self }
        ensures value { result ≡ behind_busy self }
        ensures pace { IsPace result }
        ensures most { result.most ≡ self.most }
    {
        if self.clocks == self.most {
            return self;
        }
        if self.clocks < EAGER_MOST || self.due {
            return Pace {
                clocks: self.clocks + 1,
                due: false,
                ..self
            };
        }
        Pace { due: true, ..self }
    }
}
