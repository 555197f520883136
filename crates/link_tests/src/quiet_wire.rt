//! A wire to the chip on a bench that tells nothing of it: for a chip of which no contract of the opening speaks.

use chip_core::{Answers, Bench};
use debug_model::{PIECE_MOST, Schedule, Wire, WireFault, fill_unanswered};
use jt_base::count_fault;

/// Sending fails where no chip is on the bench, or more than 256 answers would be unread; receiving fails where too few are.
#[derive(Drop)]
pub struct QuietWire<'a, Q: Schedule> {
    bench: &'a mut Bench<Q>,
    unread: Answers,
    failed: u64,
}

impl<'a, Q: Schedule> QuietWire<'a, Q> {
    pub fn new(bench: &'a mut Bench<Q>) -> Self {
        QuietWire {
            bench,
            unread: Answers::new(),
            failed: 0,
        }
    }
}

impl<'a, Q: Schedule> Wire for QuietWire<'a, Q> {
    ghost use Rattle.std.specs.Prelude.{None, true};
    ghost use Rattle.debug_model.specs.Ties.{no_ties};

    ghost far = { λ _. None };

    ghost coming = { λ _. None };

    ghost fault_count = { λ w. w.failed };

    ghost gives = { λ _. true };

    ghost ties = { λ _. no_ties };

    fn send(&mut self, bytes: &[u8]) -> Result<(), WireFault> {
        if !self.bench.is_loaded() || self.unread.len() + bytes.len() > PIECE_MOST {
            count_fault(&mut self.failed);
            return Err(WireFault::SendFailed);
        }
        self.bench.feed(bytes, &mut self.unread);
        Ok(())
    }

    fn recv(&mut self, into: &mut [u8]) -> Result<(), WireFault> {
        let count = into.len();
        if count > self.unread.len() {
            fill_unanswered(into);
            count_fault(&mut self.failed);
            return Err(WireFault::RecvFailed);
        }
        into.copy_from_slice(&self.unread.as_slice()[..count]);
        self.unread.drain(..count);
        Ok(())
    }

    fn faults(&self) -> u64 {
        self.failed
    }
}
