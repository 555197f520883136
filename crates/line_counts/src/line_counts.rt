//! A sink that counts lines.
ghost use Rattle.std.specs.Prelude.{◌≡◌, ◌-◌, ◌^◌, min, List, [], ◌∷◌, ◌++◌, Some, IsOk};
ghost use Rattle.line_counts.specs.Counts.{lines_in, errors_in};

use crate::place::Place;
use crate::taken::Taken;
use jt_base::{Sink, SinkFault};
use std::marker::Model;

/// Counts the lines and the error lines of the bytes that it takes, and keeps none of them. It never fails.
///
/// A clause reads it as the list of the bytes that it took.
#[derive(Drop)]
pub struct LineCounts {
    lines: u64,
    errors: u64,
    place: Place,
    taken: Taken,
}

impl Model for LineCounts {
    ghost use Rattle.std.specs.Prelude.{ℕ, List};
    ghost use Rattle.line_counts.specs.Place.{AreCountsOf};

    ghost Value = { List ℕ };

    ghost view = { λ c. c.taken.bytes };

    ghost invariant = { λ c. AreCountsOf c.lines c.errors c.place c.taken.bytes };
}

impl LineCounts {
    /// Counts of nothing yet.
    pub fn new() -> Self
        ensures { result ≡ [] }
    {
        LineCounts {
            lines: 0,
            errors: 0,
            place: Place::START,
            taken: Taken::new(),
        }
    }

    /// How many whole lines were taken. The count stands still at its type's end.
    pub fn lines(&self) -> u64
        ensures { result ≡ min (lines_in self.now) (2 ^ 64 - 1) }
    {
        self.lines
    }

    /// How many of the whole lines begin with `error: `. The count stands still at its type's end.
    pub fn errors(&self) -> u64
        ensures { result ≡ min (errors_in self.now) (2 ^ 64 - 1) }
    {
        self.errors
    }

    fn take(&mut self, byte: u8)
        ensures { self.new ≡ self.old ++ byte ∷ [] }
    {
        if byte == b'\n' {
            self.lines = self.lines.saturating_add(1);
            if let Place::Error = self.place {
                self.errors = self.errors.saturating_add(1);
            }
            self.place = Place::START;
        } else {
            self.place = self.place.then(byte);
        }
        self.taken = self.taken.and(&byte);
    }
}

impl Sink for LineCounts {
    ghost contents = { λ s. Some s };

    ghost fault_count = { λ s. 0 };

    ghost lenders = { λ s. [] };

    fn put(&mut self, bytes: &[u8]) -> Result<(), SinkFault>
        ensures succeeds { IsOk result }
        ensures taken { self.new ≡ self.old ++ bytes.now }
    {
        for byte in bytes {
            self.take(*byte);
        }
        Ok(())
    }

    fn faults(&self) -> u64 {
        0
    }
}
