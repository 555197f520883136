//! Standard output: the trusted edge, which tells nothing of what was written.
ghost use Rattle.std.specs.Prelude.{◌≡◌, OnOk, OnErr};
ghost use Rattle.std.specs.Io.KnownBytes.{Appends};
ghost use Rattle.jt_base.specs.Written.{AppendsFront};

use crate::faults::count_fault;
use crate::sink::{Sink, SinkFault};
use std::io;
use std::io::Write;
use std::marker::Model;

/// Standard output. Contracts see how many calls have failed.
#[derive(Drop)]
pub struct StdSink<R: Print + Drop> {
    runtime: R,
    failed: u64,
}

impl<R: Print + Drop> Model for StdSink<R> {
    ghost use Rattle.std.specs.Prelude.{ℕ};

    ghost Value = { ℕ };

    ghost view = { λ s. s.failed };
}

impl<R: Print + Drop> StdSink<R> {
    /// The standard output of this runtime.
    pub fn new(runtime: R) -> Self
        ensures { result ≡ 0 }
    {
        StdSink { runtime, failed: 0 }
    }
}

// Writes piece after piece, and then what is held back. A write that takes nothing is an error.
fn write_whole<W: Write>(out: &mut W, bytes: &[u8]) -> io::Result<()>
    ensures whole { OnOk result (Appends (W.contents out.old) (W.contents out.new) bytes.now) }
    ensures front { OnErr result (AppendsFront (W.contents out.old) (W.contents out.new) bytes.now) }
{
    let mut rest = bytes;
    'pieces: for _ in 0..u64::MAX {
        if rest.is_empty() {
            return out.flush();
        }
        let count = out.write(rest)?;
        if count == 0 {
            return Err(took_nothing());
        }
        rest = &rest[count..];
    }
    Err(took_nothing())
}

fn took_nothing() -> io::Error {
    io::Error::from(io::ErrorKind::WriteZero)
}

impl<R: Print + Drop> Sink for StdSink<R> {
    ghost use Rattle.std.specs.Prelude.{None, []};

    ghost contents = { λ s. None };

    ghost fault_count = { λ s. s };

    ghost lenders = { λ s. [] };

    fn put(&mut self, bytes: &[u8]) -> Result<(), SinkFault> {
        if write_whole(&mut io::writer(&self.runtime), bytes).is_err() {
            count_fault(&mut self.failed);
            return Err(SinkFault::Failed);
        }
        Ok(())
    }

    fn faults(&self) -> u64 {
        self.failed
    }
}
