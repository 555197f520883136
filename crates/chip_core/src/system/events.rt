//! The events of a round, one function for each kind.

ghost use Rattle.std.specs.Prelude.{◌≡◌, ◌+◌, ◌<◌, ◌≤◌, length};
ghost use Rattle.debug_model.specs.Chip.{after_event, lost_by, performed_by};
ghost use Rattle.debug_model.specs.Deeds.{bus_stepped, command_stepped, turned};
ghost use Rattle.sys_events.specs.Journal.{journal_room};
ghost use Rattle.chip_core.specs.Counted.{IsCounted};
ghost use Rattle.chip_core.specs.Parts.{with_site, with_works};

use super::System;
use crate::notes::{note_access, note_all};
use dbg_module::turns_serve;
use debug_model::{Event, Point};

impl System {
    /// A hart's turn, which the journal has; nothing where there is no such hart.
    #[inline(always)]
    fn turn(&mut self, hart: u8)
        requires room { length self.old.works.site.journal < journal_room }
        ensures { self.new ≡ with_site (turned hart self.old.works.site) self.old }
    {
        turns_serve();
        let place = usize::from(hart);
        if place < self.harts.len() {
            self.harts[place].turn(&mut self.ram);
            self.journal.note(Point::Turn(hart));
        }
    }

    /// The debug module performs the operation in flight, where there is one.
    fn perform(&mut self)
        requires room { length self.old.works.site.journal + 2 ≤ journal_room }
        requires counted { IsCounted 0 self.old.works }
        ensures { self.new ≡ with_works (performed_by self.old.works.dtm.flight self.old.works) self.old }
    {
        if let Some(operation) = self.tap.in_flight() {
            let performed = self.debug_module.perform(operation, &mut self.harts);
            self.tap.finish(performed.result);
            note_all(&mut self.journal, &performed.points);
            self.counts.dmi_done += 1;
        }
    }

    /// The operation in flight is dropped, where there is one.
    fn lose(&mut self)
        requires counted { IsCounted 0 self.old.works }
        ensures { self.new ≡ with_works (lost_by self.old.works.dtm.flight self.old.works) self.old }
    {
        if self.tap.in_flight().is_some() {
            self.tap.fail();
            self.counts.dmi_failed += 1;
        }
    }

    /// A micro step of the command that is under way, where one is.
    #[inline(always)]
    fn step_command(&mut self)
        requires room { length self.old.works.site.journal < journal_room }
        ensures { self.new ≡ with_site (command_stepped self.old.works.site) self.old }
    {
        let accessed = self
            .debug_module
            .command_step(&mut self.harts, &mut self.ram);
        note_access(&mut self.journal, accessed);
    }

    /// The access of the system bus that is under way, where one is.
    #[inline(always)]
    fn step_bus(&mut self)
        requires room { length self.old.works.site.journal < journal_room }
        ensures { self.new ≡ with_site (bus_stepped self.old.works.site) self.old }
    {
        let accessed = self.debug_module.bus_step(&mut self.ram);
        note_access(&mut self.journal, accessed);
    }

    #[tactic(auto, unfolding(debug_model::specs::Chip::after_event))]
    /// What an event does.
    #[inline(always)]
    fn act(&mut self, event: Event)
        requires room { length self.old.works.site.journal + 2 ≤ journal_room }
        requires counted { IsCounted 0 self.old.works }
        ensures { self.new ≡ with_works (after_event event self.old.works) self.old }
    {
        match event {
            Event::Turn(hart) => self.turn(hart),
            Event::DmiDone => self.perform(),
            Event::DmiFail => self.lose(),
            Event::CmdStep => self.step_command(),
            Event::BusDone => self.step_bus(),
        }
    }

    /// One event of a round: it notes two points at most.
    #[inline(always)]
    pub(super) fn take_event(&mut self, event: Event)
        requires room { length self.old.works.site.journal + 2 ≤ journal_room }
        requires counted { IsCounted 0 self.old.works }
        ensures event { self.new ≡ with_works (after_event event self.old.works) self.old }
        ensures room { length self.new.works.site.journal ≤ length self.old.works.site.journal + 2 }
        ensures counted { IsCounted 0 self.new.works }
    {
        self.act(event)
    }
}
