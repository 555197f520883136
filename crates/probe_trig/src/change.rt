ghost use Rattle.std.specs.Prelude.{◌≡◌};
ghost use Rattle.abstract_debugger.specs.Slots.{trigger_back, trigger_forgotten, trigger_held};
ghost use Rattle.rv_model.specs.TriggerWords.{CountFits};
ghost use Rattle.probe_trig.specs.SlotRegisters.{trigger_changed, word_changed};

use rv_model::{Icount, Mcontrol6, Trigger, Version};

/// What is made of a slot that has a hit. One that has none stays as it is.
#[derive(Clone, Copy)]
pub enum Change {
    /// It is switched off.
    Hold,
    /// It is switched on again.
    PutBack,
    /// Its hit is cleared.
    Forget,
    /// It is switched on again, and its hit is cleared.
    PutBackAndForget,
}

/// A trigger that is off where it has a hit.
fn held(trigger: Trigger) -> Trigger
    requires fits { CountFits trigger }
    ensures is { result ≡ trigger_held trigger }
    ensures fits { CountFits result }
{
    match trigger {
        Trigger::Mcontrol6(at) => {
            let m = at.m && !at.hit;
            Trigger::Mcontrol6(Mcontrol6 { m, ..at })
        }
        Trigger::Icount(count) => {
            let m = count.m && !count.hit;
            Trigger::Icount(Icount { m, ..count })
        }
        Trigger::Disabled => Trigger::Disabled,
    }
}

/// A trigger that is on where it has a hit.
fn put_back(trigger: Trigger) -> Trigger
    requires fits { CountFits trigger }
    ensures is { result ≡ trigger_back trigger }
    ensures fits { CountFits result }
{
    match trigger {
        Trigger::Mcontrol6(at) => {
            let m = at.m || at.hit;
            Trigger::Mcontrol6(Mcontrol6 { m, ..at })
        }
        Trigger::Icount(count) => {
            let m = count.m || count.hit;
            Trigger::Icount(Icount { m, ..count })
        }
        Trigger::Disabled => Trigger::Disabled,
    }
}

/// A trigger without a hit.
fn forgotten(trigger: Trigger) -> Trigger
    requires fits { CountFits trigger }
    ensures is { result ≡ trigger_forgotten trigger }
    ensures fits { CountFits result }
{
    match trigger {
        Trigger::Mcontrol6(at) => Trigger::Mcontrol6(Mcontrol6 { hit: false, ..at }),
        Trigger::Icount(count) => Trigger::Icount(Icount {
            hit: false,
            ..count
        }),
        Trigger::Disabled => Trigger::Disabled,
    }
}

impl Change {
    /// A trigger behind the change.
    fn of_trigger(self, trigger: Trigger) -> Trigger
        requires fits { CountFits trigger }
        ensures is { result ≡ trigger_changed self trigger }
        ensures fits { CountFits result }
    {
        match self {
            Change::Hold => held(trigger),
            Change::PutBack => put_back(trigger),
            Change::Forget => forgotten(trigger),
            Change::PutBackAndForget => forgotten(put_back(trigger)),
        }
    }

    /// What `tdata1` is to hold behind the change, by the release that the word shows: its type stays.
    pub fn of_word(self, tdata1: u64) -> u64
        ensures { result ≡ word_changed self tdata1 }
    {
        let version = Version::shown_by(tdata1);
        self.of_trigger(Trigger::from_tdata1(tdata1, version))
            .tdata1(version)
    }
}
