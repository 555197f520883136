//! The edges of TCK, and the rounds.

ghost use Rattle.std.specs.Prelude.{◌≡◌, ◌+◌, ◌*◌, ◌≤◌, false, length};
ghost use Rattle.debug_model.specs.Chip.{after_events, after_round, at_limit, counted};
ghost use Rattle.sys_events.specs.Journal.{journal_room};
ghost use Rattle.chip_core.specs.Counted.{IsCounted};
ghost use Rattle.chip_core.specs.Parts.{parts_fallen, parts_risen, with_works};

use super::System;
use debug_model::Event;

impl System {
    /// The events of a round, in order.
    #[inline(always)]
    fn take_events(&mut self, events: &[Event])
        requires room { length self.old.works.site.journal + 2 * length events.now ≤ journal_room }
        requires counted { IsCounted 0 self.old.works }
        ensures events { self.new ≡ with_works (after_events events.now self.old.works) self.old }
        ensures counted { IsCounted 0 self.new.works }
    {
        let mut rest = events;
        'events: while let [event, after @ ..] = rest {
            self.take_event(*event);
            rest = after;
        }
    }

    /// A round: it counts, and its events happen.
    #[inline(always)]
    pub(crate) fn take_round(&mut self, events: &[Event])
        requires few { length events.now ≤ 8 }
        requires counted { IsCounted 0 (counted self.old.works) }
        requires live { at_limit self.old.works ≡ false }
        ensures round { self.new ≡ with_works (after_round events.now self.old.works) self.old }
        ensures counted { IsCounted 0 self.new.works }
    {
        self.counts.rounds += 1;
        self.take_events(events);
    }

    /// What a rise of TCK with these levels does to the TAP and the transport, and the count of captures that met an operation.
    #[inline(always)]
    pub(crate) fn rise(&mut self, tms: bool, tdi: bool)
        requires live { at_limit self.old.works ≡ false }
        requires counted { IsCounted 1 self.old.works }
        ensures tap { self.new ≡ parts_risen tms tdi self.old }
        ensures live { at_limit self.new.works ≡ false }
        ensures counted { IsCounted 0 (counted self.new.works) }
    {
        if self.tap.rise(tms, tdi) {
            self.counts.dmi_busy += 1;
        }
    }

    /// What a fall of TCK does to the TAP and the transport.
    #[inline(always)]
    pub(crate) fn fall(&mut self)
        requires counted { IsCounted 0 self.old.works }
        ensures tap { self.new ≡ parts_fallen self.old }
        ensures counted { IsCounted 1 self.new.works }
    {
        self.tap.fall();
    }
}
