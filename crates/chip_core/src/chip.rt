//! The chip with its clock and its schedule: what each byte of the stream does to it.

ghost use Rattle.std.specs.Prelude.{◌≡◌, ◌+◌, ◌<◌, ◌≤◌, ◌++◌, Some, None, false, true, List};
ghost use Rattle.arrayvec.specs.ArrayVec.{array_vec_len};
ghost use Rattle.debug_model.specs.Chip.{after, answer, answer_byte, at_limit, end_of, fall, pins, rise, rise_end, taken_by};
ghost use Rattle.debug_model.specs.Wire.{piece_most};
ghost use Rattle.chip_core.specs.Counted.{IsCounted};
ghost use Rattle.chip_core.specs.Limits.{EndsAtLimit};
ghost use Rattle.chip_core.specs.Parts.{Parts, chip_of};

use crate::bench::Answers;
use crate::system::System;
use bitbang_stream::classify;
use debug_model::{ChipEnd, Schedule, Sign};
use std::marker::Model;

/// A chip, and what ended it, where something did.
#[derive(Drop)]
pub(crate) struct Chip<Q: Schedule> {
    clock: bool,
    system: System,
    schedule: Q,
    ending: Option<ChipEnd>,
}

impl<Q: Schedule> Model for Chip<Q> {
    ghost use Rattle.std.specs.Coded.{codes};
    ghost use Rattle.rv_model.specs.Codes.{hart_code};
    ghost use Rattle.rv_model.specs.Memory.{memory_code};
    ghost use Rattle.debug_model.specs.Chip.{Live};
    ghost use Rattle.chip_core.specs.Counted.{IsCounted, spare};
    ghost use Rattle.chip_core.specs.Limits.{EndsAtLimit};
    ghost use Rattle.chip_core.specs.Parts.{chip_of};

    ghost Value = { Live };

    ghost coded = { Prim.hlevel (codes, memory_code, hart_code) };

    ghost view = { λ c. record { chip = chip_of c.clock c.system (Q.plan c.schedule); ended = c.ending } };

    ghost invariant = { λ c. IsCounted (spare c.clock) c.system.works × EndsAtLimit c.ending c.system.works };
}

/// The character that answers a question about TDO.
#[inline(always)]
fn answer_byte(tdo: bool) -> u8
    ensures { result ≡ answer_byte tdo }
{
    match tdo {
        false => b'0',
        true => b'1',
    }
}

impl<Q: Schedule> Chip<Q> {
    /// A chip with TCK 0 that nothing has ended.
    pub(crate) fn new(system: System, schedule: Q) -> Self
        requires { IsCounted 0 system.works }
        ensures { result ≡ record { chip = chip_of false system (Q.plan schedule); ended = None } }
    {
        Chip {
            clock: false,
            system,
            schedule,
            ending: None,
        }
    }

    /// All but the clock and the schedule.
    pub(crate) fn system(&self) -> &System
        ensures port { result.now.port ≡ self.now.chip.port }
        ensures works { result.now.works ≡ self.now.chip.inside.works }
    {
        &self.system
    }

    /// That what ended a chip by its limit is a rise that found it met, as its type promises.
    pub(crate) fn know_limit(&self)
        ensures { EndsAtLimit self.now.ended self.now.chip.inside.works }
    {
        let _ = &self.clock;
    }

    /// What ended the chip.
    #[inline(always)]
    pub(crate) fn ending(&self) -> Option<ChipEnd>
        ensures { result ≡ self.now.ended }
    {
        self.ending
    }

    #[tactic(auto, unfolding(debug_model::specs::Chip::tick))]
    /// TCK rises: the TAP acts, and then a round is taken.
    #[inline(always)]
    fn rise(&mut self, tms: bool, tdi: bool)
        requires low { self.old.chip.tck ≡ false }
        requires live { at_limit self.old.chip.inside.works ≡ false }
        ensures { self.new ≡ record self.old { chip = rise tms tdi self.old.chip } }
    {
        self.system.rise(tms, tdi);
        self.system.take_round(self.schedule.round());
        self.schedule.advance();
        self.clock = true;
    }

    /// TCK falls.
    #[inline(always)]
    fn fall(&mut self)
        requires high { self.old.chip.tck ≡ true }
        ensures { self.new ≡ record self.old { chip = fall self.old.chip } }
    {
        self.system.fall();
        self.clock = false;
    }

    /// The pins take these levels. A rise past the limit ends the chip, and does nothing else.
    #[inline(always)]
    fn set_pins(&mut self, tck: bool, tms: bool, tdi: bool)
        requires live { self.old.ended ≡ None }
        ensures { self.new ≡ taken_by (rise_end self.old.chip.tck tck self.old.chip.inside.works)
            (pins self.old.chip.tck tck tms tdi self.old.chip) self.old.chip }
    {
        match (self.clock, tck) {
            (false, true) => {
                if self.system.is_at_limit() {
                    self.ending = Some(ChipEnd::AtLimit);
                } else {
                    self.rise(tms, tdi);
                }
            }
            (true, false) => self.fall(),
            (false, false) => {}
            (true, true) => {}
        }
    }

    /// One byte, where nothing has ended the chip. A byte that ends it does nothing else.
    #[inline(always)]
    pub(crate) fn take(&mut self, byte: u8, answers: &mut Answers)
        requires live { self.old.ended ≡ None }
        requires room { array_vec_len answers.old < piece_most }
        ensures chip { self.new ≡ after self.old byte }
        ensures answers { answers.new.items ≡ answers.old.items ++ answer self.old byte }
        ensures room { array_vec_len answers.new ≤ array_vec_len answers.old + 1 }
    {
        match classify(byte) {
            Ok(Sign::Pins(tck, tms, tdi)) => self.set_pins(tck, tms, tdi),
            Ok(Sign::Ask) => answers.push(answer_byte(self.system.tdo())),
            Ok(Sign::Light) => {}
            Ok(Sign::Reset(on)) => self.system.hold_reset(on),
            Ok(Sign::Quit) => self.ending = Some(ChipEnd::Quitted),
            Err(bad) => self.ending = Some(ChipEnd::BadByte(bad.0)),
        }
    }
}
