//! The three lines that a run prints whose session was made from a number.

ghost use Rattle.std.specs.Prelude.{◌≡◌, OnErr, OnOk};
ghost use Rattle.jt_base.specs.Faults.{HasCause};
ghost use Rattle.jt_base.specs.Sink.{GrewByPrefix, grown};
ghost use Rattle.jtag_run.specs.Summary.{summary};

use crate::lines::counted_line;
use jt_base::{Sink, SinkFault};

/// What a session has done: its commands, and the error lines and all lines that it put.
#[derive(Clone, Copy)]
pub struct Summary {
    /// The commands of its script.
    pub commands: u64,
    /// The error lines among its lines.
    pub errors: u64,
    /// The lines that it put.
    pub lines: u64,
}

/// Puts the three lines.
pub fn put_summary<K: Sink>(out: &mut K, counts: Summary) -> Result<(), SinkFault>
    ensures put { OnOk result (K.contents out.new ≡ grown (summary counts.commands counts.errors counts.lines) (K.contents out.old)) }
    ensures front { OnErr result (GrewByPrefix (summary counts.commands counts.errors counts.lines) (K.contents out.old) (K.contents out.new)) }
    ensures cause { HasCause (K.fault_count out.old) (K.fault_count out.new) result }
{
    out.put(&counted_line(b"commands ", counts.commands))?;
    out.put(&counted_line(b"errors ", counts.errors))?;
    out.put(&counted_line(b"lines ", counts.lines))?;
    Ok(())
}
