//! What a debugger asks of a hart, and what it reads of that
//! (RISC-V Debug Specification 1.0, "Debug Module Control" and "Debug Module Status").

ghost use Rattle.std.specs.Prelude.{◌≡◌};
ghost use Rattle.debug_model.specs.Journal.{halt_requested, resume_asked, with_debug};
ghost use Rattle.hart_debug.specs.Changes.{reset_acked};

use super::DebugHart;

impl DebugHart {
    /// Sets or clears the halt request (`haltreq`): it stays until it is cleared here.
    pub fn halt_request(&mut self, on: bool)
        ensures { self.new ≡ with_debug (halt_requested on) self.old }
    {
        self.halt_request = on;
    }

    /// Requests that the hart resume (`resumereq`): the resume ack is cleared, and a running hart ignores the request.
    pub fn resume_request(&mut self)
        ensures { self.new ≡ with_debug resume_asked self.old }
    {
        self.resume_ack = false;
        match self.halted {
            Some(_) => self.resume_request = true,
            None => {}
        }
    }

    /// Whether a halt request is set.
    pub fn halt_waits(&self) -> bool
        ensures { result ≡ self.now.debug.halt_request }
    {
        self.halt_request
    }

    /// Whether a request to resume has not been followed yet.
    pub fn resume_waits(&self) -> bool
        ensures { result ≡ self.now.debug.resume_request }
    {
        self.resume_request
    }

    /// Whether the hart has resumed since it was last asked to (`resumeack`).
    pub fn acked(&self) -> bool
        ensures { result ≡ self.now.debug.resume_ack }
    {
        self.resume_ack
    }

    /// Whether the hart has been reset and the debugger has not said that it knows (`havereset`).
    pub fn have_reset(&self) -> bool
        ensures { result ≡ self.now.debug.have_reset }
    {
        self.have_reset
    }

    /// The debugger knows of the reset (`ackhavereset`).
    pub fn ack_reset(&mut self)
        ensures { self.new ≡ with_debug reset_acked self.old }
    {
        self.have_reset = false;
    }
}
