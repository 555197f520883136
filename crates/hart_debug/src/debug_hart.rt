//! A hart and what only a debugger sees of it (RISC-V Debug Specification 1.0, "Sdext (ISA Extension)").

ghost use Rattle.std.specs.Prelude.{◌≡◌, ◌<◌, is_some};
ghost use Rattle.rv_model.specs.Board.{reset_hart};
ghost use Rattle.rv_model.specs.declared.version.Version.TheVariants.{V10};
ghost use Rattle.debug_model.specs.Journal.{with_debug};
ghost use Rattle.hart_debug.specs.Changes.{start_cause, step_set, ebreakm_set};

mod program_buffer;
mod registers;
mod requests;
mod turn;

use crate::start::Start;
use rv_hart::Hart;
use rv_model::{Cause, Version};
use std::marker::Model;
use trig_unit::Slots;

/// One hart: its core, its requests, the bits of `dcsr`, and its trigger slots.
#[derive(Drop)]
pub struct DebugHart {
    hart: Hart,
    halted: Option<Cause>,
    halt_request: bool,
    resume_request: bool,
    resume_ack: bool,
    have_reset: bool,
    step: bool,
    stepie: bool,
    ebreakm: bool,
    slots: Slots,
}

impl Model for DebugHart {
    ghost use Rattle.rv_model.specs.Board.{Hart};
    ghost use Rattle.rv_model.specs.Codes.{hart_code};

    ghost Value = { Hart };

    ghost coded = { hart_code };

    ghost view = { λ h. record {
      core = h.hart;
      debug = record {
        version = h.slots.version;
        halted = h.halted;
        halt_request = h.halt_request;
        resume_request = h.resume_request;
        resume_ack = h.resume_ack;
        have_reset = h.have_reset;
        step = h.step;
        stepie = h.stepie;
        ebreakm = h.ebreakm;
        tselect = h.slots.tselect;
        slots = h.slots.slots;
      };
    } };
}

/// Why a hart is halted that comes out of reset like this.
fn start_cause(start: Start) -> Option<Cause>
    ensures { result ≡ start_cause start }
{
    match start {
        Start::Running => None,
        Start::Halted => Some(Cause::Reset),
    }
}

impl DebugHart {
    /// The hart of a number below 4 as reset leaves it, of release 1.0.
    pub fn new(id: u8, start: Start) -> Self
        requires { id < 4 }
        ensures { result ≡ reset_hart V10 id (start_cause start) }
    {
        DebugHart::of_version(id, start, Version::V10)
    }

    /// The same of a release.
    pub fn of_version(id: u8, start: Start, version: Version) -> Self
        requires { id < 4 }
        ensures { result ≡ reset_hart version id (start_cause start) }
    {
        DebugHart {
            hart: Hart::new(id),
            halted: start_cause(start),
            halt_request: false,
            resume_request: false,
            resume_ack: false,
            have_reset: true,
            step: false,
            stepie: false,
            ebreakm: false,
            slots: Slots::of_version(version),
        }
    }

    /// What a program sees of its own hart.
    pub fn hart(&self) -> &Hart
        ensures { result.now ≡ self.now.core }
    {
        &self.hart
    }

    /// Whether the hart is halted.
    pub fn is_halted(&self) -> bool
        ensures { result ≡ is_some self.now.debug.halted }
    {
        self.halted.is_some()
    }

    /// Why the hart is halted (`dcsr`, the field `cause`), or `None` where it runs.
    pub fn cause(&self) -> Option<Cause>
        ensures { result ≡ self.now.debug.halted }
    {
        self.halted
    }

    /// Sets or clears `dcsr.step`: a hart with it halts behind each instruction, trap or interrupt.
    pub fn set_step(&mut self, on: bool)
        ensures { self.new ≡ with_debug (step_set on) self.old }
    {
        self.step = on;
    }

    /// Sets or clears `dcsr.ebreakm`: a hart with it halts at `ebreak` in place of a trap.
    pub fn set_ebreakm(&mut self, on: bool)
        ensures { self.new ≡ with_debug (ebreakm_set on) self.old }
    {
        self.ebreakm = on;
    }
}
