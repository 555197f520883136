//! A hart's turn, one function for each case (RISC-V Debug Specification 1.0, "Sdext (ISA Extension)").

ghost use Rattle.std.specs.Prelude.{◌≡◌, ◌<◌, nat_lt};
ghost use Rattle.rv_model.specs.Turn.{place_of, memory_after, masks_interrupts, resumed, halted_for, some_fires, stops_at_ebreak, ran, turn_outcome};
ghost use Rattle.rv_model.specs.Touch.{touch_of};
ghost use Rattle.rv_model.specs.Triggers.{fires};
ghost use Rattle.trig_unit.specs.Members.{members};
ghost use Rattle.hart_debug.specs.Execution.{exec_by};
ghost use Rattle.hart_debug.specs.Stops.{stopped_at_trigger};
ghost use Rattle.debug_model.specs.Journal.{with_debug};

use super::DebugHart;
use crate::ebreak::is_ebreak_at;
use rv_hart::Hart;
use rv_mem::Ram;
use rv_model::{Cause, Did, SlotSet, Turned};

/// Executes one instruction or takes one trap, or one interrupt where these are not masked.
fn execute(hart: &mut Hart, ram: &mut Ram, masked: bool) -> Did
    ensures core { hart.new ≡ (exec_by masked hart.old ram.old).step.core }
    ensures did { result ≡ (exec_by masked hart.old ram.old).step.did }
    ensures memory { ram.new ≡ (exec_by masked hart.old ram.old).memory }
{
    if masked {
        hart.exec_masked(ram)
    } else {
        hart.exec(ram)
    }
}

impl DebugHart {
    #[tactic(auto, unfolding(rv_model::specs::Turn::place_of, rv_model::specs::Turn::executes, rv_model::specs::Turn::memory_after))]
    /// The hart's next turn: a resume, a stop, nothing where it is halted, or else one instruction, trap or interrupt.
    pub fn turn(&mut self, ram: &mut Ram) -> Turned
        ensures place { record { hart = self.new; turned = result } ≡ place_of self.old ram.old }
        ensures memory { ram.new ≡ memory_after self.old ram.old }
    {
        match self.halted {
            Some(_) => {
                if self.resume_request {
                    self.resume()
                } else {
                    Turned::Idle
                }
            }
            None => {
                if self.halt_request {
                    self.halt(Cause::HaltReq)
                } else if self.stops_at_trigger(ram) {
                    self.halt(Cause::Trigger)
                } else if self.stops_at_ebreak(ram) {
                    self.halt(Cause::Ebreak)
                } else {
                    self.run(ram)
                }
            }
        }
    }

    /// The trigger slots that fire at the instruction at pc: at these a running hart stops that has no halt request.
    pub fn fired(&self, ram: &Ram) -> SlotSet
        ensures members { members result ≡ fires (touch_of self.now.core ram.now) self.now.debug.slots }
        ensures some { nat_lt 0 result.0 ≡ some_fires (touch_of self.now.core ram.now) self.now }
        ensures small { result.0 < 16 }
    {
        self.slots.fires(&self.hart.touch(ram))
    }

    /// Whether the hart halts at a trigger; the slots that fire take their hit.
    ///
    /// What the instruction touches is asked for only where a slot is armed: few harts have one in most turns.
    #[inline(always)]
    fn stops_at_trigger(&mut self, ram: &Ram) -> bool
        ensures answer { result ≡ some_fires (touch_of self.old.core ram.now) self.old }
        ensures hart { self.new ≡ stopped_at_trigger (touch_of self.old.core ram.now) self.old }
    {
        if self.slots.any_armed() {
            self.mark_fired(ram)
        } else {
            false
        }
    }

    /// The slots that fire take their hit. Are there any?
    #[inline(never)]
    fn mark_fired(&mut self, ram: &Ram) -> bool
        ensures answer { result ≡ some_fires (touch_of self.old.core ram.now) self.old }
        ensures hart { self.new ≡ stopped_at_trigger (touch_of self.old.core ram.now) self.old }
    {
        let fired = self.fired(ram);
        if fired.0 == 0 {
            return false;
        }
        self.slots.mark(fired);
        true
    }

    /// Whether the hart halts at an `ebreak` at pc.
    fn stops_at_ebreak(&self, ram: &Ram) -> bool
        ensures { result ≡ stops_at_ebreak self.now ram.now }
    {
        self.ebreakm && is_ebreak_at(&self.hart, ram)
    }

    /// The halted hart runs on, and says so.
    fn resume(&mut self) -> Turned
        ensures hart { self.new ≡ with_debug resumed self.old }
        ensures turned { result ≡ Turned.Resumed }
    {
        self.halted = None;
        self.resume_request = false;
        self.resume_ack = true;
        Turned::Resumed
    }

    /// The hart halts before its next instruction.
    fn halt(&mut self, why: Cause) -> Turned
        ensures hart { self.new ≡ with_debug (halted_for why) self.old }
        ensures turned { result ≡ Turned.Halted why }
    {
        self.halted = Some(why);
        Turned::Halted(why)
    }

    /// Whether a single step takes no interrupt.
    fn masks_interrupts(&self) -> bool
        ensures { result ≡ masks_interrupts self.now.debug }
    {
        self.step && !self.stepie
    }

    /// One instruction, one trap or one interrupt, behind which a single step halts. The counts fall.
    #[tactic(auto, unfolding(rv_model::specs::Turn::turn_outcome))]
    fn run(&mut self, ram: &mut Ram) -> Turned
        ensures place { record { hart = self.new; turned = result } ≡ ran (turn_outcome self.old ram.old) self.old }
        ensures memory { ram.new ≡ (turn_outcome self.old ram.old).memory }
    {
        let masked = self.masks_interrupts();
        let did = execute(&mut self.hart, ram, masked);
        self.slots.retired();
        if self.step {
            self.halted = Some(Cause::Step);
            return Turned::Halted(Cause::Step);
        }
        Turned::Ran(did)
    }
}
